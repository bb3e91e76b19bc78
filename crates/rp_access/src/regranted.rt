//! A row's grants as a request leaves them, in order of partner.

ghost use Rattle.std.specs.Prelude.{◌≡◌, ◌++◌, filter, OnOk, IfOk};
ghost use Rattle.sorted_tables.specs.Table.{is_before, is_after, with_row};
ghost use Rattle.rp_rows.specs.Rows.{text_cmp, grant_key};
ghost use Rattle.rp_rows.specs.Alterations.{grant_for};

use plain_data::{Rows, Text};
use rp_rows::rows::{Grant, Level};
use std::alloc::{AllocError, Global};

fn copy_grant(alloc: Global, grant: &Grant) -> Result<Grant, AllocError>
    ensures { IfOk result (λ copy. copy ≡ grant.now) }
{
    let partner = grant.partner.copy(alloc)?;
    Ok(Grant {
        partner,
        level: grant.level,
    })
}

/// Adds the grants to partners before this one.
fn push_before(
    alloc: Global,
    to: &Text,
    grants: &[Grant],
    out: &mut Vec<Grant>,
) -> Result<(), AllocError>
    ensures { OnOk result (out.new.items ≡ out.old.items ++ filter (is_before text_cmp grant_key to.now) grants.now) }
{
    for grant in grants {
        if grant.partner.order(to).is_lt() {
            out.push(copy_grant(alloc, grant)?)?;
        }
    }
    Ok(())
}

/// Adds the grants to partners after this one.
fn push_after(
    alloc: Global,
    to: &Text,
    grants: &[Grant],
    out: &mut Vec<Grant>,
) -> Result<(), AllocError>
    ensures { OnOk result (out.new.items ≡ out.old.items ++ filter (is_after text_cmp grant_key to.now) grants.now) }
{
    for grant in grants {
        if grant.partner.order(to).is_gt() {
            out.push(copy_grant(alloc, grant)?)?;
        }
    }
    Ok(())
}

/// The grants with this level of the partner, or none, in place of any former one.
pub fn regranted_for(
    alloc: Global,
    to: Text,
    level: Option<Level>,
    grants: &[Grant],
) -> Result<Rows<Grant>, AllocError>
    ensures { IfOk result (λ g. g ≡ with_row text_cmp grant_key to (grant_for to level) grants.now) }
{
    let mut rows = Vec::new(alloc);
    let mut after = Vec::new(alloc);
    push_before(alloc, &to, grants, &mut rows)?;
    push_after(alloc, &to, grants, &mut after)?;
    if let Some(level) = level {
        rows.push(Grant { partner: to, level })?;
    }
    rows.append(&mut after)?;
    Ok(Rows::from_vec(rows))
}
