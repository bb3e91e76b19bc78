//! Rows that agree: their keys are the same.

ghost use Rattle.std.specs.Prelude.{◌≡◌, ◌<◌, length, IfOk};
ghost use Rattle.std.specs.List.{All, list_any};
ghost use Rattle.rp_meaning.specs.Report as spec;
ghost use Rattle.rp_faults.specs.Buckets as buckets;
ghost use Rattle.rp_rules.specs.Buckets.{HasValues, key_of_row};

use crate::culprits::push_if;
use crate::rows::Row;
use plain_data::Items;
use rp_faults::Buckets;
use rp_meaning::Culprit;
use std::alloc::{AllocError, Global};

/// The rows by their keys.
fn in_buckets<'r>(alloc: Global, rows: &'r [Row]) -> Result<Buckets<'r, Row>, AllocError>
    ensures { IfOk result (λ made. buckets.Holds key_of_row made rows.now) }
{
    let mut made = Buckets::new(alloc, rows.len())?;
    for row in rows {
        made.put(row.key(), row)?;
    }
    Ok(made)
}

/// Whether a row agrees with one of these.
fn agrees_with_one(row: &Row, others: &[&Row]) -> bool
    ensures { result ≡ list_any (spec.agrees row.now) (buckets.all_now others.now) }
{
    for other in others {
        if row.agrees(*other) {
            return true;
        }
    }
    false
}

/// The instances whose rows agree with another's, of rows of as many values.
pub(crate) fn agreeing(
    alloc: Global,
    rows: &[Row],
    count: usize,
) -> Result<Items<Culprit>, AllocError>
    requires { All (HasValues count) rows.now }
    ensures { IfOk result (λ found. found ≡ spec.agreeing rows.now) }
{
    let made = in_buckets(alloc, rows)?;
    let mut found = Items::new(alloc);
    for row in rows {
        let is_one = agrees_with_one(row, made.sharing(row.key()));
        push_if(&mut found, is_one, row.culprit())?;
    }
    Ok(found)
}
