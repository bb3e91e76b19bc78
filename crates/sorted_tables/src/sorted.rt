//! What is found in lists, and what is put there and taken out. Nothing here takes memory.

ghost use Rattle.std.specs.Prelude.{◌≡◌, ◌<◌, ◌≤◌, Some, None, MatchResult, option_copied, vec_len};
ghost use Rattle.std.specs.List as list;
ghost use Rattle.std.specs.Vec.{vec_capacity};
ghost use Rattle.sorted_tables.specs.Table.{is_at, with_row, IsAscending};
ghost use Rattle.sorted_tables.specs.Places.{place_of, IsThere, IsAbsent};

use crate::row::{KeyOf, Row, Sought};

/// How many rows stand before the key.
fn place<T: Row, S: Sought<T>>(rows: &[T], sought: &S) -> usize
    requires { IsAscending T.cmp T.key rows.now }
    ensures { result ≡ place_of T.cmp T.key (S.sought sought.now) rows.now }
{
    rows.partition_point(|row| sought.order_of(row).is_lt())
}

/// Where the row of the key stands, or where one is to stand.
pub fn search<T: Row, S: Sought<T>>(rows: &[T], sought: &S) -> Result<usize, usize>
    requires { IsAscending T.cmp T.key rows.now }
    ensures { MatchResult result (IsThere T.cmp T.key (S.sought sought.now) rows.now) (IsAbsent T.cmp T.key (S.sought sought.now) rows.now) }
{
    let place = place(rows, sought);
    if place >= rows.len() {
        return Err(place);
    }
    if sought.order_of(&rows[place]).is_eq() {
        Ok(place)
    } else {
        Err(place)
    }
}

/// The row of the key. The others aren't walked over.
pub fn find<'a, T: Row, S: Sought<T>>(rows: &'a [T], sought: &S) -> Option<&'a T>
    requires { IsAscending T.cmp T.key rows.now }
    ensures { option_copied result ≡ list.find (is_at T.cmp T.key (S.sought sought.now)) rows.now }
{
    match search(rows, sought) {
        Ok(place) => Some(&rows[place]),
        Err(_) => None,
    }
}

/// The row stands under its key from now on, in place of any former one.
pub fn put<T: Row + Drop>(rows: &mut Vec<T>, row: T)
    requires order { IsAscending T.cmp T.key rows.old.items }
    requires room { list.find (is_at T.cmp T.key (T.key row)) rows.old.items ≡ None → vec_len rows.old < vec_capacity rows.old }
    ensures rows { rows.new.items ≡ with_row T.cmp T.key (T.key row) (Some row) rows.old.items }
    ensures order { IsAscending T.cmp T.key rows.new.items }
    ensures room { vec_capacity rows.old ≤ vec_capacity rows.new }
{
    match search(rows, &KeyOf { row: &row }) {
        Ok(place) => rows[place] = row,
        Err(place) => rows.insert(place, row).unwrap(),
    }
}

/// No row stands under the key from now on.
pub fn remove<T: Row + Drop, S: Sought<T>>(rows: &mut Vec<T>, sought: &S)
    requires { IsAscending T.cmp T.key rows.old.items }
    ensures rows { rows.new.items ≡ with_row T.cmp T.key (S.sought sought.now) None rows.old.items }
    ensures order { IsAscending T.cmp T.key rows.new.items }
    ensures room { vec_capacity rows.old ≡ vec_capacity rows.new }
{
    if let Ok(place) = search(rows, sought) {
        let _ = rows.remove(place);
    }
}
