//! What is taken of a value, by what is said of its parts.

ghost use Rattle.std.specs.Prelude.{◌≡◌, IfOk};
ghost use Rattle.ex_attributes.specs.Attributes.{taken as taken_by};
ghost use Rattle.ex_kinds.specs.Faults.{behind as behind_by, either as either_by, ruled as ruled_by};
ghost use Rattle.ex_kinds.specs.Types.{plain as plain_by};
ghost use Rattle.ex_operators.specs.Taken.{indexed as indexed_by, ranged as ranged_by};
ghost use Rattle.ex_typing.specs.Expressions as spec;

use crate::known::Known;
use crate::leaves::grouped_at;
use ex_kinds::{Typed, either, ruled};
use ex_operators::{indexed, ranged};
use ex_tree::Name;
use std::alloc::{AllocError, Global};

/// The attribute of this name of a value.
#[tactic(auto, unfolding(ex_attributes::specs::Attributes::taken))]
pub(crate) fn attribute_taken(
    alloc: Global,
    schema: &Known,
    base: Typed,
    at: usize,
    name: &Name,
) -> Result<Typed, AllocError>
    ensures { IfOk result (λ typed. typed ≡ behind_by base.fault (taken_by schema.now.attributes (plain_by schema.now.types base.kinds) at name.now)) }
{
    let kinds = base.kinds.as_slice();
    let typed = match schema.found(alloc, kinds, name.text.as_str())? {
        Some(found) => found.told(alloc, at, name.at),
        None => {
            let plain = schema.types().plain(alloc, kinds)?;
            schema
                .attributes()
                .taken(alloc, plain.as_slice(), at, name)?
        },
    };
    Ok(typed.behind(base.fault))
}

/// A value as an instance of an entity.
pub(crate) fn group_taken(
    alloc: Global,
    schema: &Known,
    base: Typed,
    at: usize,
    entity: usize,
) -> Result<Typed, AllocError>
    ensures { IfOk result (λ typed. typed ≡ behind_by base.fault (spec.grouped_at schema.now at base.kinds entity)) }
{
    let typed = grouped_at(alloc, schema, at, base.kinds.as_slice(), entity)?;
    Ok(typed.behind(base.fault))
}

/// The element at an index.
pub(crate) fn index_taken(
    alloc: Global,
    schema: &Known,
    base: Typed,
    at: usize,
    index: Typed,
) -> Result<Typed, AllocError>
    ensures { IfOk result (λ typed. typed ≡ behind_by (either_by base.fault index.fault) (ruled_by at (indexed_by schema.now.types base.kinds index.kinds))) }
{
    let rule = indexed(
        alloc,
        schema.types(),
        base.kinds.as_slice(),
        index.kinds.as_slice(),
    );
    Ok(ruled(alloc, at, rule)?.behind(either(base.fault, index.fault)))
}

/// The part between two places.
pub(crate) fn range_taken(
    alloc: Global,
    schema: &Known,
    base: Typed,
    at: usize,
    low: Typed,
    high: Typed,
) -> Result<Typed, AllocError>
    ensures { IfOk result (λ typed. typed ≡ behind_by (either_by (either_by base.fault low.fault) high.fault) (ruled_by at (ranged_by schema.now.types base.kinds low.kinds high.kinds))) }
{
    let rule = ranged(
        alloc,
        schema.types(),
        base.kinds.as_slice(),
        low.kinds.as_slice(),
        high.kinds.as_slice(),
    );
    let fault = either(either(base.fault, low.fault), high.fault);
    Ok(ruled(alloc, at, rule)?.behind(fault))
}
