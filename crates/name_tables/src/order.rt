//! Names in the order of their bytes.

ghost use Rattle.std.specs.Prelude.{◌≡◌, ◌≤◌, ℕ, true, false, map, length, IfOk};
ghost use Rattle.std.specs.List.Sorted.{IsPartitionPoint};
ghost use Rattle.plain_data.specs.Numbers.{numbered};
ghost use Rattle.name_tables.specs.Order as spec;

use plain_data::Text;
use std::alloc::{AllocError, Global};
use std::marker::Model;

/// Names in the order of their bytes, each beside its number. Contracts see it as these pairs.
#[derive(Drop)]
pub struct NameOrder {
    rows: Vec<(Text, usize)>,
}

impl Model for NameOrder {
    ghost use Rattle.std.specs.Prelude.{List, ℕ};
    ghost use Rattle.name_tables.specs.Order as spec;

    ghost Value = { List (List ℕ × ℕ) };

    ghost view = { λ order. order.rows.items };

    ghost invariant = { λ order. spec.IsAscending order.rows.items };
}

impl NameOrder {
    /// The order of names that are numbered as they stand, from 0.
    pub fn of(alloc: Global, names: &[&str]) -> Result<NameOrder, AllocError>
        ensures { IfOk result (λ order. spec.IsOrderOf (map (λ n. n.now) names.now) order) }
    {
        let mut rows = numbered_rows(alloc, names)?;
        rows.sort_by(|row, other| row.0.order(&other.0))?;
        Ok(NameOrder { rows })
    }

    /// How many names come before this one, whether or not it is among them.
    pub fn rank(&self, name: &str) -> usize
        ensures { result ≡ spec.rows_before self.now name.now }
    {
        rank_in(&self.rows, name)
    }

    /// The number of this name, of equal ones the least.
    pub fn number(&self, name: &str) -> Option<usize>
        ensures { result ≡ spec.number_of name.now self.now }
    {
        number_in(&self.rows, name)
    }
}

/// The place of the first row whose name doesn't come before this one.
fn first_not_before(rows: &[(Text, usize)], name: &str) -> usize
    requires { spec.IsAscending rows.now }
    ensures within { result ≤ length rows.now }
    ensures parts { IsPartitionPoint (λ r. spec.is_before name.now r ≡ true) (λ r. spec.is_before name.now r ≡ false) rows.now result }
{
    rows.partition_point(|row| row.0.as_str() < name)
}

fn rank_in(rows: &[(Text, usize)], name: &str) -> usize
    requires { spec.IsAscending rows.now }
    ensures { result ≡ spec.rows_before rows.now name.now }
{
    first_not_before(rows, name)
}

fn number_in(rows: &[(Text, usize)], name: &str) -> Option<usize>
    requires { spec.IsAscending rows.now }
    ensures { result ≡ spec.number_of name.now rows.now }
{
    match rows.get(first_not_before(rows, name)) {
        Some(row) if row.0.as_str() == name => Some(row.1),
        _ => None,
    }
}

/// Each name beside its number.
fn numbered_rows(alloc: Global, names: &[&str]) -> Result<Vec<(Text, usize)>, AllocError>
    ensures { IfOk result (λ rows. rows.items ≡ numbered (λ number n. (n, number)) (map (λ n. n.now) names.now)) }
{
    let mut rows = Vec::with_capacity(alloc, names.len())?;
    for (number, name) in names.iter().enumerate() {
        rows.push((Text::from_str(alloc, name)?, number))?;
    }
    Ok(rows)
}
