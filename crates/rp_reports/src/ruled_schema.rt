//! A schema with its rules as they are evaluated.

ghost use Rattle.std.specs.Prelude.{◌≡◌};

use crate::attributes::{Names, all_names, name_of};
use ex_loaded::LoadedSchema;
use ex_named::AttributePlace;
use ex_types::CheckedSchema;
use plain_data::Text;
use rp_compile::compile;
use rp_meaning::Schema;
use shared::Shared;
use std::alloc::{AllocError, Global};
use std::marker::Model;

/// A schema with its rules as they are evaluated and the names of its attributes, which are found once for all populations.
pub(crate) struct RuledSchema<'s> {
    loaded: &'s LoadedSchema<'s>,
    rules: Schema,
    names: Names,
}

impl<'s> Drop for RuledSchema<'s> {
    fn drop(self) {
        let RuledSchema {
            loaded: _,
            rules,
            names,
        } = self;
        drop(rules);
        drop(names);
    }
}

impl<'s> Model for RuledSchema<'s> {
    ghost use Rattle.std.specs.Prelude.{◌≡◌, map};
    ghost use Rattle.ex_types.specs.Checked.{Checked};
    ghost use Rattle.rp_meaning.specs.Compiled.{compiled};
    ghost use Rattle.rp_reports.specs.Names.{names_of};
    ghost use Rattle.std.specs.Coded.{codes};
    ghost use Rattle.ex_types.specs.contracts.schema.CheckedSchema as checked;

    ghost Value = { Checked };

    ghost coded = { Prim.hlevel (codes, checked.the_row.coded) };

    ghost view = { λ r. r.loaded.now };

    ghost invariant = { λ r. record {
      rules : r.rules ≡ compiled r.loaded.now;
      names : r.names ≡ map names_of r.loaded.now.named.schema.entities;
    } };
}

impl<'s> RuledSchema<'s> {
    ghost use Rattle.std.specs.Prelude.{◌≡◌, option_copied, IfOk};
    ghost use Rattle.std.specs.Str.{bytes_eq};
    ghost use Rattle.rp_meaning.specs.Compiled.{compiled};
    ghost use Rattle.rp_plain.specs.Meaning.{schema_name};
    ghost use Rattle.rp_plain.specs.Reports as spec;

    /// The schema with what is found of it once.
    pub(crate) fn of(
        alloc: Global,
        loaded: &'s LoadedSchema<'s>,
    ) -> Result<RuledSchema<'s>, AllocError>
        ensures { IfOk result (λ ruled. ruled ≡ loaded.now) }
    {
        let checked = loaded.checked();
        let rules = compile(alloc, checked)?;
        let names = all_names(alloc, checked.entities())?;
        Ok(RuledSchema {
            loaded,
            rules,
            names,
        })
    }

    /// Whether it has this name.
    pub(crate) fn is_named(&self, name: &Text) -> bool
        ensures { result ≡ bytes_eq name.now (schema_name self.now) }
    {
        name.as_str() == self.checked().name()
    }

    /// The schema as its instances ask it.
    pub(crate) fn loaded(&self) -> &'s LoadedSchema<'s>
        ensures { result.now ≡ self.now }
    {
        self.loaded
    }

    /// The schema as it was checked.
    pub(crate) fn checked(&self) -> &'s CheckedSchema
        ensures { result.now ≡ self.now }
    {
        self.loaded.checked()
    }

    /// Its rules.
    pub(crate) fn rules(&self) -> &Schema
        ensures { result.now ≡ compiled self.now }
    {
        &self.rules
    }

    /// `ENTITY.ATTRIBUTE`, for an explicit attribute of an entity's own.
    pub(crate) fn attribute_name(&self, attribute: &AttributePlace) -> Option<&Shared<Text>>
        ensures { option_copied result ≡ spec.attribute_name self.now attribute.now }
    {
        name_of(&self.names, attribute)
    }
}
