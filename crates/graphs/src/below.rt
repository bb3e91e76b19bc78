//! The graph turned round: of each member its direct subtypes.

ghost use Rattle.std.specs.Prelude.{◌≡◌, ℕ, ◌==◌, ◌&&◌, ◌||◌, false, nat_lt, length, IfOk, OnOk};
ghost use Rattle.plain_data.specs.Numbers.{is_among};
ghost use Rattle.graphs.specs.Graphs as spec;

use crate::steps::supertypes;
use plain_data::Rows;
use std::alloc::{AllocError, Global};

/// Puts a member behind the subtypes of another, if that one has a list.
fn push_below(below: &mut Vec<Rows<usize>>, above: usize, member: usize) -> Result<(), AllocError>
    ensures length { OnOk result (length below.new.items ≡ length below.old.items) }
    ensures put { (d e : ℕ) → OnOk result (is_among (spec.supertypes below.new.items d) e ≡ (is_among (spec.supertypes below.old.items d) e || (nat_lt d (length below.old.items) && (above == d && member == e)))) }
{
    if above < below.len() {
        below[above].push(member)?;
    }
    Ok(())
}

/// Puts a member behind the subtypes of each of these.
fn put_below(
    below: &mut Vec<Rows<usize>>,
    supertypes: &[usize],
    member: usize,
) -> Result<(), AllocError>
    ensures length { OnOk result (length below.new.items ≡ length below.old.items) }
    ensures put { (d e : ℕ) → OnOk result (is_among (spec.supertypes below.new.items d) e ≡ (is_among (spec.supertypes below.old.items d) e || (nat_lt d (length below.old.items) && (is_among supertypes.now d && member == e)))) }
{
    for above in supertypes {
        push_below(below, *above, member)?;
    }
    Ok(())
}

/// So many empty lists.
fn empty_lists(alloc: Global, count: usize) -> Result<Vec<Rows<usize>>, AllocError>
    ensures length { IfOk result (λ lists. length lists.items ≡ count) }
    ensures empty { IfOk result (λ lists. (d e : ℕ) → is_among (spec.supertypes lists.items d) e ≡ false) }
{
    let mut lists = Vec::with_capacity(alloc, count)?;
    for _ in 0..count {
        lists.push(Rows::new(alloc))?;
    }
    Ok(lists)
}

/// Of each member its direct subtypes.
pub fn subtypes(alloc: Global, graph: &[Rows<usize>]) -> Result<Vec<Rows<usize>>, AllocError>
    ensures length { IfOk result (λ below. length below.items ≡ length graph.now) }
    ensures turned { IfOk result (λ below. (d e : ℕ) → is_among (spec.supertypes below.items d) e ≡ (nat_lt d (length graph.now) && is_among (spec.supertypes graph.now e) d)) }
{
    let mut below = empty_lists(alloc, graph.len())?;
    for member in 0..graph.len() {
        put_below(&mut below, supertypes(graph, member), member)?;
    }
    Ok(below)
}
