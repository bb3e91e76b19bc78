//! The rules of a repository's schemas.

ghost use Rattle.std.specs.Prelude.{◌≡◌, option_copied};
ghost use Rattle.rp_plain.specs.Meaning.{schema_named};

use crate::ruled_schema::RuledSchema;
use crate::validation::validated;
use ex_loaded::LoadedSchema;
use plain_data::{Rows, Text};
use rp_group_domain::CountedModel;
use rp_plain::reports::ToldReport;
use std::alloc::{AllocError, Global};
use std::marker::Model;

/// The schemas of a repository, each with its rules as they are evaluated.
#[derive(Drop)]
pub struct SchemaRules<'s> {
    schemas: Vec<RuledSchema<'s>>,
}

impl<'s> Model for SchemaRules<'s> {
    ghost use Rattle.std.specs.Prelude.{List};
    ghost use Rattle.ex_types.specs.Checked.{Checked};
    ghost use Rattle.std.specs.Coded.{codes};
    ghost use Rattle.ex_types.specs.contracts.schema.CheckedSchema as checked;

    ghost Value = { List Checked };

    ghost coded = { Prim.hlevel (codes, checked.the_row.coded) };

    ghost view = { λ r. r.schemas.items };
}

/// The schema of this name.
fn named<'r, 's>(schemas: &'r [RuledSchema<'s>], name: &Text) -> Option<&'r RuledSchema<'s>>
    ensures { option_copied result ≡ schema_named schemas.now name.now }
{
    for schema in schemas {
        if schema.is_named(name) {
            return Some(schema);
        }
    }
    None
}

impl<'s> SchemaRules<'s> {
    ghost use Rattle.std.specs.Prelude.{◌≡◌, IfOk};
    ghost use Rattle.rp_population.specs.Populations.{population};
    ghost use Rattle.rp_positions.specs.Positions.{AreInOrder};
    ghost use Rattle.rp_plain.specs.Meaning.{schema_named};
    ghost use Rattle.rp_plain.specs.Populations.{validated_by};

    /// Those of the schemas.
    pub fn of(alloc: Global, schemas: &'s [LoadedSchema<'s>]) -> Result<SchemaRules<'s>, AllocError>
        ensures { IfOk result (λ rules. rules ≡ schemas.now) }
    {
        let mut ruled = Vec::with_capacity(alloc, schemas.len())?;
        for schema in schemas {
            ruled.push(RuledSchema::of(alloc, schema)?)?;
        }
        Ok(SchemaRules { schemas: ruled })
    }

    /// What is told of the population of some models by the rules of the schema of this name.
    pub fn validated(
        &self,
        alloc: Global,
        schema: &Text,
        models: &[CountedModel<'_>],
    ) -> Result<ToldReport, AllocError>
        requires { AreInOrder models.now }
        ensures { IfOk result (λ told. told ≡ validated_by (schema_named self.now schema.now) (population models.now)) }
    {
        match named(&self.schemas, schema) {
            Some(schema) => validated(alloc, schema, models),
            None => Ok(ToldReport {
                checks: Rows::new(alloc),
                steps: 0,
            }),
        }
    }
}
