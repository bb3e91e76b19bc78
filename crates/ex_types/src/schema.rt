//! A schema whose types are checked.

ghost use Rattle.std.specs.Prelude.{◌≡◌, ◌↔◌, ℕ, IfOk, IsTrue, Some, Ok, length, map};
ghost use Rattle.std.specs.List.Sorted.{IsStrictlyIncreasing};
ghost use Rattle.plain_data.specs.Numbers.{is_among};
ghost use Rattle.plain_data.specs.Gives.{Gives};
ghost use Rattle.graphs.specs.Graphs as graphs;
ghost use Rattle.name_tables.specs.Order.{IsOrderOf, rank};
ghost use Rattle.name_tables.specs.Names.{place_of};
ghost use Rattle.ex_resolve.specs.Schemas as schemas;
ghost use Rattle.ex_types.specs.Checked as spec;
ghost use Rattle.ex_types.specs.Declarations as declarations;

use crate::declarations::fault_of;
use crate::known::known;
use crate::names::{entity_order, type_order};
use ex_kinds::TypeFault;
use ex_named::{AttributePlace, NamedConstant, NamedEntity, NamedFunction, NamedRule, NamedType};
use ex_resolve::Named;
use ex_typing::Known;
use ex_warnings::warnings;
use name_tables::NameOrder;
use plain_data::{Failure, Rows};
use std::alloc::{AllocError, Global};
use std::marker::Model;

/// A schema whose types are checked: the one that its named schema is accepted as.
pub struct CheckedSchema {
    resolved: Named,
    /// What its declarations say of kinds.
    known: Known,
    /// The first bytes of the literals that are warned of.
    warnings: Rows<usize>,
    /// The names of its entities, and of its types, in the order of their bytes.
    entity_order: NameOrder,
    type_order: NameOrder,
}

impl Drop for CheckedSchema {
    fn drop(self) {
        let CheckedSchema {
            resolved,
            known,
            warnings,
            entity_order,
            type_order,
        } = self;
        drop(resolved);
        drop(known);
        drop(warnings);
        drop(entity_order);
        drop(type_order);
    }
}

impl Model for CheckedSchema {
    ghost use Rattle.ex_types.specs.Checked as spec;

    ghost Value = { spec.Checked };

    ghost view = { λ s. record { named = s.resolved; warnings = s.warnings } };

    ghost use Rattle.std.specs.Prelude.{◌≡◌, Ok};
    ghost use Rattle.ex_types.specs.Declarations.{known as known_of};
    ghost use Rattle.name_tables.specs.Order.{IsOrderOf};

    ghost invariant = { λ s. (s.known ≡ known_of s.resolved.schema) × (spec.checked s.resolved ≡ Ok (record { named = s.resolved; warnings = s.warnings }))
        × IsOrderOf (spec.entity_names s.resolved.schema.entities) s.entity_order × IsOrderOf (spec.type_names s.resolved.schema.types) s.type_order };

    ghost use Rattle.std.specs.Coded.{codes};
    ghost use Rattle.ex_resolve.specs.contracts.named.Named as named_schema;

    ghost coded = { Prim.hlevel (codes, named_schema.the_row.coded) };
}

impl CheckedSchema {
    /// What was proved when it was made: its named schema is accepted as this one.
    pub fn proved(&self)
        ensures { spec.checked self.now.named ≡ Ok self.now }
    {
        let _ = &self.resolved;
    }

    /// The schema with its names bound, and the graph of its supertypes.
    pub fn resolved(&self) -> &Named
        ensures { result.now ≡ self.now.named }
    {
        &self.resolved
    }

    /// What its declarations say of kinds, as it was found when it was checked.
    pub fn known(&self) -> &Known
        ensures { result.now ≡ declarations.known self.now.named.schema }
    {
        &self.known
    }

    /// Its name, in upper case.
    pub fn name(&self) -> &str
        ensures { result.now ≡ self.now.named.schema.name.text }
    {
        self.resolved.named().name.text.as_str()
    }

    /// The first bytes of the literals that are warned of, in the order of the schema's strings.
    pub fn warnings(&self) -> &[usize]
        ensures { result.now ≡ self.now.warnings }
    {
        self.warnings.as_slice()
    }

    pub fn constants(&self) -> &[NamedConstant]
        ensures { result.now ≡ self.now.named.schema.constants }
    {
        self.resolved.named().constants.as_slice()
    }

    pub fn types(&self) -> &[NamedType]
        ensures { result.now ≡ self.now.named.schema.types }
    {
        self.resolved.named().types.as_slice()
    }

    pub fn entities(&self) -> &[NamedEntity]
        ensures { result.now ≡ self.now.named.schema.entities }
    {
        self.resolved.named().entities.as_slice()
    }

    pub fn functions(&self) -> &[NamedFunction]
        ensures { result.now ≡ self.now.named.schema.functions }
    {
        self.resolved.named().functions.as_slice()
    }

    pub fn rules(&self) -> &[NamedRule]
        ensures { result.now ≡ self.now.named.schema.rules }
    {
        self.resolved.named().rules.as_slice()
    }

    pub fn function_count(&self) -> usize
        ensures { result ≡ length self.now.named.schema.functions }
    {
        self.functions().len()
    }

    /// The number of the entity of this name, which is in upper case.
    pub fn entity_named(&self, name: &str) -> Option<usize>
        ensures { result ≡ place_of name.now (spec.entity_names self.now.named.schema.entities) }
    {
        self.entity_order.number(name)
    }

    /// How many of its entities have names that come before this one, in the order of their bytes.
    pub fn entity_rank(&self, name: &str) -> usize
        ensures { result ≡ rank (spec.entity_names self.now.named.schema.entities) name.now }
    {
        self.entity_order.rank(name)
    }

    /// The names of its entities, in the order of their bytes.
    pub fn entity_order(&self) -> &NameOrder
        ensures { IsOrderOf (spec.entity_names self.now.named.schema.entities) result.now }
    {
        &self.entity_order
    }

    /// The number of the type of this name, which is in upper case.
    pub fn type_named(&self, name: &str) -> Option<usize>
        ensures { result ≡ place_of name.now (spec.type_names self.now.named.schema.types) }
    {
        self.type_order.number(name)
    }

    /// How many of its types have names that come before this one, in the order of their bytes.
    pub fn type_rank(&self, name: &str) -> usize
        ensures { result ≡ rank (spec.type_names self.now.named.schema.types) name.now }
    {
        self.type_order.rank(name)
    }

    /// The entities above one, by their numbers in ascending order.
    pub fn ancestors(&self, alloc: Global, entity: usize) -> Result<Rows<usize>, AllocError>
        ensures ascending { IfOk result (λ found. IsStrictlyIncreasing found) }
        ensures exact { IfOk result (λ found. (a : ℕ) → IsTrue (is_among found a) ↔ graphs.IsAncestor self.now.named.supertypes entity a) }
    {
        self.resolved.ancestors(alloc, entity)
    }

    /// The entities above one and itself, in the order in which files write their values.
    pub fn line(&self, alloc: Global, entity: usize) -> Result<Rows<usize>, AllocError>
        ensures { IfOk result (λ found. graphs.line self.now.named.supertypes entity ≡ Some found) }
    {
        self.resolved.line(alloc, entity)
    }

    /// The inherited and own explicit attributes of an entity, in the order in which files write their values.
    pub fn attributes(
        &self,
        alloc: Global,
        entity: usize,
    ) -> Result<Rows<AttributePlace>, AllocError>
        ensures { IfOk result (λ found. schemas.attributes self.now.named entity ≡ Some found) }
    {
        self.resolved.attributes(alloc, entity)
    }
}

/// The schema, where its expressions can't go wrong in ways that the profile leaves out. Else the fault of least offset.
#[tactic(auto, unfolding(crate::specs::Checked::checked))]
pub fn check(alloc: Global, resolved: Named) -> Result<CheckedSchema, Failure<TypeFault>>
    ensures { Gives (λ schema. schema) result (spec.checked resolved) }
{
    let known = known(alloc, resolved.named())?;
    if let Some(fault) = fault_of(alloc, &known, resolved.named())? {
        return Err(Failure::Fault(fault));
    }
    let warnings = warnings(alloc, resolved.named())?;
    let entity_order = entity_order(alloc, resolved.named().entities.as_slice())?;
    let type_order = type_order(alloc, resolved.named().types.as_slice())?;
    Ok(CheckedSchema {
        resolved,
        known,
        warnings,
        entity_order,
        type_order,
    })
}
