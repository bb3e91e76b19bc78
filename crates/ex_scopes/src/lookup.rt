//! Sets, marks, positions of names, and what was found or not.

ghost use Rattle.std.specs.Prelude.{◌≡◌, ◌<◌, length, IfSome};
ghost use Rattle.std.specs.List.{position};
ghost use Rattle.std.specs.Str.{bytes_eq};
ghost use Rattle.plain_data.specs.Numbers.{is_among};
ghost use Rattle.ex_named.specs.Outcomes.{Binds};
ghost use Rattle.ex_named.specs.Scopes as spec;

use ex_named::{Binding, NameFaultKind, refused};
use ex_tree::Name;
use std::collections::BTreeSet;

/// Whether a number is in the set.
pub(crate) fn is_in(set: &BTreeSet<usize>, number: usize) -> bool
    ensures { result ≡ is_among set.now.keys number }
{
    set.contains(&number)
}

/// Whether a number is marked.
pub(crate) fn is_marked(marks: &[bool], number: usize) -> bool
    ensures { result ≡ spec.is_marked marks.now number }
{
    marks.get(number).copied().unwrap_or(false)
}

/// What was found, or that the name means nothing here.
pub(crate) fn or_undeclared<T>(name: &Name, found: Option<T>) -> Binding<T>
    ensures { Binds result (spec.or_undeclared name.now found) }
{
    match found {
        Some(found) => Ok(found),
        None => refused(NameFaultKind::Undeclared, name.at),
    }
}

/// Where the name stands first.
pub(crate) fn place_among(names: &[&[u8]], name: &[u8]) -> Option<usize>
    ensures place { result ≡ position (λ n. bytes_eq n.now name.now) names.now }
    ensures within { IfSome result (λ place. place < length names.now) }
{
    names.iter().position(|other| *other == name)
}
