//! A checked schema whose supertype expressions can be read.

ghost use Rattle.std.specs.Prelude.{◌≡◌, IfOk};
ghost use Rattle.plain_data.specs.Gives.{Gives};
ghost use Rattle.ex_subtypes.specs.Legal as legal;
ghost use Rattle.ex_subtypes.specs.Nodes.{all_kept};
ghost use Rattle.ex_compiled.specs.Compiling as spec;

use ex_subtypes::{Constraints, EntitySet, Illegal, SubtypeFault};
use ex_types::CheckedSchema;
use plain_data::Failure;
use std::alloc::{AllocError, Global};
use std::marker::Model;

/// A checked schema whose supertype expressions can be read.
#[derive(Drop)]
pub struct Compiled {
    schema: CheckedSchema,
    constraints: Constraints,
}

impl Model for Compiled {
    ghost use Rattle.std.specs.Prelude.{◌≡◌};
    ghost use Rattle.ex_types.specs.Checked.{Checked};
    ghost use Rattle.ex_subtypes.specs.Legal.{AreReadable};
    ghost use Rattle.ex_subtypes.specs.Nodes.{all_kept};

    ghost Value = { Checked };

    ghost view = { λ c. c.schema };

    ghost invariant = { λ c. AreReadable c.schema.named.schema.entities × (c.constraints ≡ all_kept c.schema.named.schema.entities) };

    ghost use Rattle.std.specs.Coded.{codes};
    ghost use Rattle.ex_types.specs.contracts.schema.CheckedSchema as checked;

    ghost coded = { Prim.hlevel (codes, checked.the_row.coded) };
}

impl Compiled {
    /// The schema, where its supertype expressions can be read. Else the fault of least offset.
    pub fn build(alloc: Global, schema: CheckedSchema) -> Result<Compiled, Failure<SubtypeFault>>
        ensures { Gives (λ compiled. compiled) result (spec.built schema) }
    {
        let constraints = Constraints::build(alloc, schema.entities())?;
        Ok(Compiled {
            schema,
            constraints,
        })
    }

    /// The schema, as it was checked.
    pub fn checked(&self) -> &CheckedSchema
        ensures { result.now ≡ self.now }
    {
        &self.schema
    }

    /// What was proved when it was made: no expression names an entity twice, or one that is no direct subtype.
    pub fn proved(&self)
        ensures { legal.AreReadable self.now.named.schema.entities }
    {
        let _ = &self.schema;
    }

    /// Why no instance may have exactly these entities, the first that holds; nothing where one may.
    /// A number beyond the schema is that of an entity without supertypes.
    ///
    /// Its time is near-linear in the set, its members' supertypes, and the nodes of their expressions at which members
    /// stand, with those above them.
    pub fn legal(&self, alloc: Global, set: &EntitySet) -> Result<Option<Illegal>, AllocError>
        ensures { IfOk result (λ found. found ≡ legal.refusal self.now.named.schema.entities set.now) }
    {
        self.constraints.legal(alloc, self.schema.entities(), set)
    }

    /// What is kept of its supertype expressions.
    pub fn constraints(&self) -> &Constraints
        ensures { result.now ≡ all_kept self.now.named.schema.entities }
    {
        &self.constraints
    }
}
