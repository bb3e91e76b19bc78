//! The names of groups that a partner is granted, with one more or one less.

ghost use Rattle.std.specs.Prelude.{◌≡◌, ◌++◌, OnOk, IfOk};
ghost use Rattle.rp_store.specs.Entries.{without_name};
ghost use Rattle.rp_sight.specs.Granted.{relisted as Relisted};

use plain_data::{Rows, Text};
use rp_rows::rows::Level;
use std::alloc::{AllocError, Global};

/// Adds the names but this one.
fn push_others(
    alloc: Global,
    name: &Text,
    names: &[Text],
    out: &mut Vec<Text>,
) -> Result<(), AllocError>
    ensures { OnOk result (out.new.items ≡ out.old.items ++ without_name name.now names.now) }
{
    for other in names {
        if !other.is(name) {
            out.push(other.copy(alloc)?)?;
        }
    }
    Ok(())
}

/// The names, with this one if there is a level, else without it.
pub fn relisted(
    alloc: Global,
    name: &Text,
    level: Option<Level>,
    names: &[Text],
) -> Result<Rows<Text>, AllocError>
    ensures { IfOk result (λ r. r ≡ Relisted name.now level names.now) }
{
    let mut rows = Vec::new(alloc);
    push_others(alloc, name, names, &mut rows)?;
    if let Some(_) = level {
        rows.push(name.copy(alloc)?)?;
    }
    Ok(Rows::from_vec(rows))
}
