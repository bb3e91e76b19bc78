//! Kinds as sets.

ghost use Rattle.std.specs.Prelude.{◌≡◌, IfOk, IsTrue, OnOk};
ghost use Rattle.ex_kinds.specs.Kinds as spec;

use crate::kind::{Sort, ValueKind};
use crate::kinds::Kinds;
use std::alloc::{AllocError, Global};

/// Puts those behind the others that are not yet there.
pub fn join(kinds: &mut Kinds, more: &[ValueKind]) -> Result<(), AllocError>
    ensures { OnOk result (kinds.new ≡ spec.joined kinds.old more.now) }
{
    for kind in more {
        kinds.add(*kind)?;
    }
    Ok(())
}

/// What the elements may be, if this is of an aggregate or of whatever there is.
pub(crate) fn shallower(kind: ValueKind) -> Option<ValueKind>
    ensures { result ≡ spec.shallower kind }
{
    match kind.depth.checked_sub(1) {
        Some(depth) => Some(ValueKind {
            depth,
            sort: kind.sort,
        }),
        None => match kind.sort {
            Sort::Generic => Some(kind),
            _ => None,
        },
    }
}

/// What the elements may be, where it is an aggregate.
pub fn elements(alloc: Global, kinds: &[ValueKind]) -> Result<Kinds, AllocError>
    ensures { IfOk result (λ found. found ≡ spec.elements kinds.now) }
{
    // Each once: a value may have its elements on many ways, and each way again.
    let mut found = Kinds::new(alloc);
    for kind in kinds {
        if let Some(element) = shallower(*kind) {
            found.add(element)?;
        }
    }
    Ok(found)
}

/// Whether the value itself is of this kind, and no aggregate.
fn is_element(kind: ValueKind) -> bool
    ensures { result ≡ spec.is_element_at kind.depth kind.sort }
{
    match kind.sort {
        Sort::Aggregate => false,
        _ => kind.depth == 0,
    }
}

/// What it may be where it is no aggregate.
pub fn apart(alloc: Global, kinds: &[ValueKind]) -> Result<Kinds, AllocError>
    ensures { IfOk result (λ found. found ≡ spec.apart kinds.now) }
{
    let mut found = Kinds::new(alloc);
    for kind in kinds {
        if is_element(*kind) {
            found.push(*kind)?;
        }
    }
    Ok(found)
}

fn is_kind(kind: ValueKind, other: ValueKind) -> bool
    ensures { IsTrue result → kind ≡ other }
{
    kind == other
}

/// Whether the two have the same kinds in the same order.
pub fn are_same(kinds: &[ValueKind], others: &[ValueKind]) -> bool
    ensures { IsTrue result → kinds.now ≡ others.now }
{
    let (mut kinds, mut others) = (kinds, others);
    while let [kind, more @ ..] = kinds {
        let [other, more_others @ ..] = others else {
            return false;
        };
        if !is_kind(*kind, *other) {
            return false;
        }
        kinds = more;
        others = more_others;
    }
    matches!(others, [])
}

/// The same kinds once more.
pub fn copied(alloc: Global, kinds: &[ValueKind]) -> Result<Kinds, AllocError>
    ensures { IfOk result (λ found. found ≡ kinds.now) }
{
    Kinds::from_slice(alloc, kinds)
}
