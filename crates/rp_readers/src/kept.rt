//! What binding found in the schemas of a repository, kept from one request to the next.

ghost use Rattle.std.specs.Prelude.{◌≡◌, ◌<◌, length, Some, IfOk, IfSome};
ghost use Rattle.std.specs.List.{position};
ghost use Rattle.std.specs.Str.{bytes_eq};
ghost use Rattle.rp_plain.specs.Instances as of_instances;
ghost use Rattle.rp_plain.specs.Meaning.{schema_name};
ghost use Rattle.rp_readers.specs.Single.{Says};

use crate::model_names::ModelNames;
use ex_layouts::Layouts;
use ex_loaded::LoadedSchema;
use p21_bind::bind_instance;
use p21_read::Mapping;
use p21_write::write_instance;
use plain_data::{Failure, Text};
use rp_content::Instance;
use rp_plain::messages::Refusal;
use std::alloc::{AllocError, Global};
use std::marker::Model;

/// The schemas of a repository, each with what was found in it for some instances. No reply tells what is kept.
#[derive(Drop)]
pub struct KeptLayouts<'s> {
    /// Of each schema.
    layouts: Vec<Layouts<'s>>,
}

impl<'s> Model for KeptLayouts<'s> {
    ghost use Rattle.std.specs.Prelude.{List};
    ghost use Rattle.ex_types.specs.Checked.{Checked};

    ghost Value = { List Checked };

    ghost view = { λ k. k.layouts.items };

    ghost use Rattle.std.specs.Coded.{codes};
    ghost use Rattle.ex_types.specs.contracts.schema.CheckedSchema as checked;

    ghost coded = { Prim.hlevel (codes, checked.the_row.coded) };
}

/// Where the schema of this name stands first.
fn place_named(layouts: &[Layouts<'_>], name: &Text) -> Option<usize>
    ensures place { result ≡ position (λ schema. bytes_eq name.now (schema_name schema)) layouts.now }
    ensures within { IfSome result (λ place. place < length layouts.now) }
{
    layouts
        .iter()
        .position(|layouts| name.as_str() == layouts.dictionary().name())
}

/// The instance of this name that the mapping is by the schema, or its first fault.
fn bound_by(
    alloc: Global,
    layouts: &mut Layouts<'_>,
    names: &ModelNames<'_>,
    name: u64,
    mapping: Mapping<'_>,
) -> Result<Instance, Refusal>
    ensures layouts { layouts.new ≡ layouts.old }
    ensures said { Says (of_instances.bound_by (Some layouts.old) (of_instances.is_defined names.now) name mapping.entry) result }
{
    match bind_instance(alloc, layouts, name, mapping, names) {
        Ok(instance) => Ok(instance),
        Err(Failure::Fault(fault)) => Err(Refusal::InstanceFault(fault)),
        Err(Failure::NoMemory) => Err(AllocError.into()),
    }
}

/// The line of an instance in canonical text, by the schema.
fn line_by(
    alloc: Global,
    layouts: &mut Layouts<'_>,
    instance: &Instance,
) -> Result<Text, AllocError>
    ensures layouts { layouts.new ≡ layouts.old }
    ensures text { IfOk result (λ text. text ≡ of_instances.line_by (Some layouts.old) (Some instance.now)) }
{
    write_instance(alloc, layouts, instance)
}

impl<'s> KeptLayouts<'s> {
    ghost use Rattle.std.specs.Prelude.{◌≡◌, Some, IfOk};
    ghost use Rattle.rp_plain.specs.Instances as of_instances;
    ghost use Rattle.rp_plain.specs.Meaning.{schema_named};
    ghost use Rattle.rp_readers.specs.Single.{Says};

    /// Those of the schemas.
    pub fn of(alloc: Global, schemas: &'s [LoadedSchema<'s>]) -> Result<KeptLayouts<'s>, AllocError>
        ensures { IfOk result (λ kept. kept ≡ schemas.now) }
    {
        let mut layouts = Vec::with_capacity(alloc, schemas.len())?;
        for schema in schemas {
            layouts.push(Layouts::of(alloc, schema.dictionary())?)?;
        }
        Ok(KeptLayouts { layouts })
    }

    /// The instance of this name that the mapping is by the schema of that name, or its first fault.
    pub fn bound(
        &mut self,
        alloc: Global,
        schema: &Text,
        names: &ModelNames<'_>,
        name: u64,
        mapping: Mapping<'_>,
    ) -> Result<Instance, Refusal>
        ensures schemas { self.new ≡ self.old }
        ensures said { Says (of_instances.bound_by (schema_named self.old schema.now) (of_instances.is_defined names.now) name mapping.entry) result }
    {
        match place_named(&self.layouts, schema) {
            Some(place) => bound_by(alloc, &mut self.layouts[place], names, name, mapping),
            None => Err(Refusal::UnknownSchema),
        }
    }

    /// The line of an instance in canonical text, by the schema of that name.
    pub fn line(
        &mut self,
        alloc: Global,
        schema: &Text,
        instance: &Instance,
    ) -> Result<Text, AllocError>
        ensures schemas { self.new ≡ self.old }
        ensures text { IfOk result (λ text. text ≡ of_instances.line_by (schema_named self.old schema.now) (Some instance.now)) }
    {
        match place_named(&self.layouts, schema) {
            Some(place) => line_by(alloc, &mut self.layouts[place], instance),
            None => Text::from_str(alloc, ""),
        }
    }
}
