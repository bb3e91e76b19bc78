//! Rows in the order of their keys, each key once, that stand in a ring: a row that comes or goes moves those before it or those
//! behind it, whichever are fewer. What is found, and what a row put in its place or taken out makes of the list, is as of any
//! sorted table.
#![tactic(auto)]

ghost use Rattle.std.specs.Prelude.{◌≡◌, ◌<◌, ◌≤◌, ◌++◌, Some, None, MatchResult, option_copied, length, take, drop};
ghost use Rattle.std.specs.List as list;
ghost use Rattle.std.specs.VecDeque.{deque_len, deque_capacity};
ghost use Rattle.sorted_tables.specs.Table.{is_at, with_row, IsAscending};
ghost use Rattle.sorted_tables.specs.Places.{place_of, IsThere, IsAbsent};

use sorted_tables::{Row, Sought};
use std::collections::VecDeque;

/// How many rows stand before the key.
fn place<T: Row, S: Sought<T>>(rows: &VecDeque<T>, sought: &S) -> usize
    requires { IsAscending T.cmp T.key rows.now.items }
    ensures { result ≡ place_of T.cmp T.key (S.sought sought.now) rows.now.items }
{
    rows.partition_point(|row| sought.order_of(row).is_lt())
}

/// Where the row of the key stands, or where one is to stand.
pub fn search<T: Row, S: Sought<T>>(rows: &VecDeque<T>, sought: &S) -> Result<usize, usize>
    requires { IsAscending T.cmp T.key rows.now.items }
    ensures { MatchResult result (IsThere T.cmp T.key (S.sought sought.now) rows.now.items) (IsAbsent T.cmp T.key (S.sought sought.now) rows.now.items) }
{
    let place = place(rows, sought);
    if place >= rows.len() {
        return Err(place);
    }
    if sought.order_of(&rows[place]).is_eq() {
        Ok(place)
    } else {
        Err(place)
    }
}

/// The row of the key. The others aren't walked over.
pub fn find<'a, T: Row, S: Sought<T>>(rows: &'a VecDeque<T>, sought: &S) -> Option<&'a T>
    requires { IsAscending T.cmp T.key rows.now.items }
    ensures { option_copied result ≡ list.find (is_at T.cmp T.key (S.sought sought.now)) rows.now.items }
{
    match search(rows, sought) {
        Ok(place) => Some(&rows[place]),
        Err(_) => None,
    }
}

/// The row stands under the key from now on, which nothing stands under. It is told where it is to stand.
pub fn insert<T: Row + Drop>(rows: &mut VecDeque<T>, place: usize, row: T)
    requires absent { IsAbsent T.cmp T.key (T.key row) rows.old.items place }
    requires room { deque_len rows.old < deque_capacity rows.old }
    ensures rows { rows.new.items ≡ with_row T.cmp T.key (T.key row) (Some row) rows.old.items }
    ensures order { IsAscending T.cmp T.key rows.new.items }
{
    rows.insert(place, row).unwrap()
}

/// No row stands under the key from now on.
pub fn remove<T: Row + Drop, S: Sought<T>>(rows: &mut VecDeque<T>, sought: &S)
    requires { IsAscending T.cmp T.key rows.old.items }
    ensures rows { rows.new.items ≡ with_row T.cmp T.key (S.sought sought.now) None rows.old.items }
    ensures order { IsAscending T.cmp T.key rows.new.items }
{
    if let Ok(place) = search(rows, sought) {
        let _ = rows.remove(place);
    }
}

/// The rows from a place on and before another one, in two parts: those up to where the ring goes round its block, and those
/// behind.
pub fn part<T>(rows: &VecDeque<T>, first: usize, end: usize) -> (&[T], &[T])
    requires order { first ≤ end }
    requires within { end ≤ length rows.now.items }
    ensures { result.0.now ++ result.1.now ≡ drop first (take end rows.now.items) }
{
    let (front, back) = rows.as_slices();
    let turn = front.len();
    (
        &front[first.min(turn)..end.min(turn)],
        &back[first.saturating_sub(turn)..end.saturating_sub(turn)],
    )
}
