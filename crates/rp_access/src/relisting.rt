//! What a group lists with one model more or one less, in the order of owner and name.

ghost use Rattle.std.specs.Prelude.{◌≡◌, ◌++◌, filter, OnOk, IfOk};
ghost use Rattle.sorted_tables.specs.Table.{is_before, is_after};
ghost use Rattle.rp_rows.specs.Rows.{key_cmp};
ghost use Rattle.rp_rows.specs.Listings.{itself, with_member, without_member};

use plain_data::Rows;
use rp_rows::rows::{Key, Listing};
use std::alloc::{AllocError, Global};

/// Adds the members before a model.
fn push_before(
    alloc: Global,
    model: &Key,
    members: &[Key],
    out: &mut Vec<Key>,
) -> Result<(), AllocError>
    ensures { OnOk result (out.new.items ≡ out.old.items ++ filter (is_before key_cmp itself model.now) members.now) }
{
    for member in members {
        if member.order(model).is_lt() {
            out.push(member.copy(alloc)?)?;
        }
    }
    Ok(())
}

/// Adds the members after a model.
fn push_after(
    alloc: Global,
    model: &Key,
    members: &[Key],
    out: &mut Vec<Key>,
) -> Result<(), AllocError>
    ensures { OnOk result (out.new.items ≡ out.old.items ++ filter (is_after key_cmp itself model.now) members.now) }
{
    for member in members {
        if member.order(model).is_gt() {
            out.push(member.copy(alloc)?)?;
        }
    }
    Ok(())
}

/// What the group holds once it lists the model.
pub(crate) fn including(
    alloc: Global,
    listing: &Listing,
    model: &Key,
) -> Result<Listing, AllocError>
    ensures { IfOk result (λ l. l ≡ with_member model.now listing.now) }
{
    let former = listing.members.as_slice();
    let mut members = Vec::with_capacity(alloc, former.len().saturating_add(1))?;
    push_before(alloc, model, former, &mut members)?;
    members.push(model.copy(alloc)?)?;
    push_after(alloc, model, former, &mut members)?;
    Ok(Listing {
        schema: listing.schema.copy(alloc)?,
        members: Rows::from_vec(members),
    })
}

/// What the group holds once it doesn't list the model.
pub(crate) fn excluding(
    alloc: Global,
    listing: &Listing,
    model: &Key,
) -> Result<Listing, AllocError>
    ensures { IfOk result (λ l. l ≡ without_member model.now listing.now) }
{
    let former = listing.members.as_slice();
    let mut members = Vec::with_capacity(alloc, former.len())?;
    push_before(alloc, model, former, &mut members)?;
    push_after(alloc, model, former, &mut members)?;
    Ok(Listing {
        schema: listing.schema.copy(alloc)?,
        members: Rows::from_vec(members),
    })
}
