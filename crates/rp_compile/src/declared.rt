//! What a schema declares, as expressions are compiled by it.

ghost use Rattle.std.specs.Prelude.{◌≡◌, IfOk};
ghost use Rattle.rp_meaning.specs.Compiled as compiled;

use ancestors::Descent;
use ex_types::CheckedSchema;
use plain_data::Rows;
use rp_code::NamedRole;
use rp_compile_names::{attributes, supertypes};
use rp_compile_trees::Declared;
use std::alloc::{AllocError, Global};

/// Of each entity its direct supertypes.
#[tactic(auto, unfolding(ex_types::specs::Declarations::known, ex_attributes::specs::Attributes::attributes_of))]
pub(crate) fn graph_of(
    alloc: Global,
    schema: &CheckedSchema,
) -> Result<Vec<Rows<usize>>, AllocError>
    ensures { IfOk result (λ graph. graph.items ≡ compiled.supertypes schema.now.named.schema) }
{
    supertypes(alloc, schema.entities())
}

/// What a schema of these roles declares, whose entities stand in this order by their names.
pub(crate) fn declared<'s>(
    alloc: Global,
    schema: &'s CheckedSchema,
    roles: &'s [NamedRole],
    order: &[usize],
) -> Result<Declared<'s>, AllocError>
    requires roles { roles.now ≡ compiled.roles schema.now.named.schema }
    requires order { order.now ≡ compiled.entity_order schema.now.named.schema }
    ensures { IfOk result (λ declared. declared ≡ compiled.declared schema.now.named.schema) }
{
    let supertypes = Descent::of(alloc, graph_of(alloc, schema)?)?;
    let attributes = attributes(alloc, schema.entities(), order)?;
    Ok(Declared::new(schema.known(), supertypes, attributes, roles))
}
