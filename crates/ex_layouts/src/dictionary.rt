//! What is looked up in a schema for each instance.

ghost use Rattle.std.specs.Prelude.{◌≡◌, not, is_some, IfOk};
ghost use Rattle.ex_layouts.specs.Entities as spec;

use ex_named::{NamedEntity, NamedSchema, NamedType};
use ex_selects::DefinedTypes;
use ex_subtypes::{Constraints, EntitySet};
use graphs::line;
use name_tables::NameOrder;
use plain_data::{Rows, Text};
use std::alloc::{AllocError, Global};
use std::marker::Model;

/// The data dictionary of a checked schema: what instances ask of it, with what its declared types come to, found once for all
/// of them. Contracts see it as the schema.
pub struct Dictionary<'s> {
    schema: &'s NamedSchema,
    /// Of each entity the entities that SUBTYPE OF lists.
    supertypes: &'s [Rows<usize>],
    /// The first bytes of the literals that are warned of.
    warnings: &'s [usize],
    constraints: &'s Constraints,
    /// The names of its entities, in the order of their bytes.
    entity_order: &'s NameOrder,
    defined_types: DefinedTypes<'s>,
}

impl<'s> Drop for Dictionary<'s> {
    fn drop(self) {
        let Dictionary {
            schema: _,
            supertypes: _,
            warnings: _,
            constraints: _,
            entity_order: _,
            defined_types,
        } = self;
        drop(defined_types);
    }
}

impl<'s> Model for Dictionary<'s> {
    ghost use Rattle.std.specs.Prelude.{◌≡◌, map};
    ghost use Rattle.ex_schemas.specs.Schemas.{Checked, entity_names};
    ghost use Rattle.ex_subtypes.specs.Legal.{AreReadable};
    ghost use Rattle.ex_subtypes.specs.Nodes.{all_kept};
    ghost use Rattle.graphs.specs.Graphs.{IsAcyclic};
    ghost use Rattle.name_tables.specs.Order.{IsOrderOf};

    ghost Value = { Checked };

    ghost view = { λ d. record { named = record { schema = d.schema.now; supertypes = d.supertypes.now }; warnings = d.warnings.now } };

    ghost invariant = { λ d. record {
      listed : d.supertypes.now ≡ map (λ e. e.supertypes) d.schema.now.entities;
      acyclic : IsAcyclic d.supertypes.now;
      readable : AreReadable d.schema.now.entities;
      kept : d.constraints.now ≡ all_kept d.schema.now.entities;
      order : IsOrderOf (entity_names d.schema.now.entities) d.entity_order.now;
      types : d.defined_types ≡ d.schema.now.types;
    } };

    ghost use Rattle.std.specs.Coded.{codes};
    ghost use Rattle.ex_named.specs.contracts.expression.NamedDataType as data_type;
    ghost use Rattle.ex_named.specs.contracts.expression.NamedExpression as expression;
    ghost use Rattle.ex_named.specs.contracts.statement.NamedStatement as statement;
    ghost use Rattle.ex_named.specs.contracts.declaration.NamedSupertype as supertype;

    ghost coded = { Prim.hlevel (codes, data_type.the_row.coded, expression.the_row.coded, statement.the_row.coded, supertype.the_row.coded) };
}

/// The set of these entities.
fn set_of(alloc: Global, numbers: &[usize]) -> Result<EntitySet, AllocError>
    ensures { IfOk result (λ set. set ≡ spec.ascending numbers.now) }
{
    let set = EntitySet::of(alloc, numbers)?;
    Ok(set)
}

impl<'s> Dictionary<'s> {
    ghost use Rattle.std.specs.Prelude.{◌≡◌, Some, IfOk, map};
    ghost use Rattle.ex_schemas.specs.Schemas.{entity_names};
    ghost use Rattle.ex_subtypes.specs.Legal.{AreReadable};
    ghost use Rattle.ex_subtypes.specs.Nodes.{all_kept};
    ghost use Rattle.graphs.specs.Graphs.{IsAcyclic, line as found_line};
    ghost use Rattle.name_tables.specs.Order.{IsOrderOf};
    ghost use Rattle.ex_layouts.specs.Entities as spec;

    /// That of a checked schema, whose parts these are: with its names bound, of each entity the entities that SUBTYPE OF lists,
    /// what is warned of, what is kept of its supertype expressions, and the names of its entities in the order of their bytes.
    pub fn of(
        alloc: Global,
        schema: &'s NamedSchema,
        supertypes: &'s [Rows<usize>],
        warnings: &'s [usize],
        constraints: &'s Constraints,
        entity_order: &'s NameOrder,
    ) -> Result<Dictionary<'s>, AllocError>
        requires listed { supertypes.now ≡ map (λ e. e.supertypes) schema.now.entities }
        requires acyclic { IsAcyclic supertypes.now }
        requires readable { AreReadable schema.now.entities }
        requires kept { constraints.now ≡ all_kept schema.now.entities }
        requires order { IsOrderOf (entity_names schema.now.entities) entity_order.now }
        ensures { IfOk result (λ dictionary. dictionary ≡ record { named = record { schema = schema.now; supertypes = supertypes.now }; warnings = warnings.now }) }
    {
        let defined_types = DefinedTypes::of(alloc, schema.types.as_slice())?;
        Ok(Dictionary {
            schema,
            supertypes,
            warnings,
            constraints,
            entity_order,
            defined_types,
        })
    }

    /// The name of the schema, in upper case.
    pub fn name(&self) -> &'s str
        ensures { result.now ≡ self.now.named.schema.name.text }
    {
        self.schema.name.text.as_str()
    }

    /// What its declared types come to.
    pub fn defined_types(&self) -> &DefinedTypes<'s>
        ensures { result.now ≡ self.now.named.schema.types }
    {
        &self.defined_types
    }

    pub fn types(&self) -> &'s [NamedType]
        ensures { result.now ≡ self.now.named.schema.types }
    {
        self.schema.types.as_slice()
    }

    pub fn entities(&self) -> &'s [NamedEntity]
        ensures { result.now ≡ spec.entities self.now }
    {
        self.schema.entities.as_slice()
    }

    /// The entity of this name, which is in upper case.
    pub fn entity_named(&self, name: &str) -> Option<usize>
        ensures { result ≡ spec.entity_named self.now name.now }
    {
        self.entity_order.number(name)
    }

    /// The entity of this name, in either case.
    pub fn entity_spelled(&self, alloc: Global, name: &str) -> Result<Option<usize>, AllocError>
        ensures { IfOk result (λ entity. entity ≡ spec.entity_spelled self.now name.now) }
    {
        let mut upper = Text::from_str(alloc, name)?;
        upper.make_ascii_uppercase();
        Ok(self.entity_named(upper.as_str()))
    }

    /// The entities above one and itself, in the order in which files write their values.
    pub fn line_of(&self, alloc: Global, entity: usize) -> Result<Rows<usize>, AllocError>
        ensures line { IfOk result (λ line. line ≡ spec.line_of self.now entity) }
        ensures found { IfOk result (λ line. found_line self.now.named.supertypes entity ≡ Some line) }
    {
        line(alloc, self.supertypes, entity)
    }

    /// Whether an instance may have exactly these entities, which may stand in any order.
    pub fn is_legal(&self, alloc: Global, numbers: &[usize]) -> Result<bool, AllocError>
        ensures { IfOk result (λ legal. legal ≡ spec.is_legal self.now numbers.now) }
    {
        let set = set_of(alloc, numbers)?;
        let found = self.constraints.legal(alloc, self.entities(), &set)?;
        Ok(found.is_none())
    }

    /// The same of an entity and all above it, of which this is the line. As a rule nothing speaks against them, which is told
    /// without a set.
    pub fn is_legal_line(
        &self,
        alloc: Global,
        entity: usize,
        line: &[usize],
    ) -> Result<bool, AllocError>
        requires { found_line self.now.named.supertypes entity ≡ Some line.now }
        ensures { IfOk result (λ legal. legal ≡ spec.is_legal self.now line.now) }
    {
        if self
            .constraints
            .is_unconstrained(self.entities(), entity, line)
        {
            return Ok(true);
        }
        self.is_legal(alloc, line)
    }

    /// How many of the schema's names come before that of an entity.
    pub fn name_rank(&self, entity: usize) -> usize
        ensures { result ≡ spec.name_rank self.now entity }
    {
        match self.entities().get(entity) {
            Some(declared) => self.entity_order.rank(declared.name.text.as_str()),
            None => 0,
        }
    }
}
