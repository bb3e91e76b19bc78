//! Forms of several items, proved once for every item and every language.

ghost use Rattle.std.specs.Prelude.{◌≡◌, ◌<◌, ◌≤◌, [], IfOk, OnOk};
ghost use Rattle.text_forms.specs.Forms.{repeat_by, many_by, some_by, separated_by};
ghost use Rattle.text_forms.specs.Forms as forms;
ghost use Rattle.text_forms.specs.Reads.{Reads, ReadsAs};

use crate::form::{Begins, Form, TokenSource};
use plain_data::{Failure, Items};
use std::alloc::{AllocError, Global};

/// No item, with room for one: most lists of a text have no more.
fn room_for_one<T>(alloc: Global) -> Result<Vec<T>, AllocError>
    ensures { IfOk result (λ found. found.items ≡ []) }
{
    Vec::with_capacity(alloc, 1)
}

/// No item, with room for one or for some more.
fn room_for<T>(alloc: Global, is_one: bool) -> Result<Vec<T>, AllocError>
    ensures { IfOk result (λ found. found.items ≡ []) }
{
    if is_one {
        return room_for_one(alloc);
    }
    Ok(Vec::new(alloc))
}

/// The items in memory of their own size. Lists are short and many, and each that shrank where it
/// stands would leave a hole behind it.
fn packed<T: Drop>(alloc: Global, found: Vec<T>) -> Result<Items<T>, AllocError>
    ensures { IfOk result (λ items. items ≡ found.items) }
{
    if found.capacity() == found.len() {
        return Ok(Items::from_vec(found));
    }
    let mut found = found;
    let mut packed = Vec::with_capacity(alloc, found.len())?;
    packed.append(&mut found)?;
    Ok(Items::from_vec(packed))
}

/// Items as long as one begins, after those that were found.
pub fn more<S: TokenSource, F: Form<S> + Begins<S>>(
    alloc: Global,
    source: &mut S,
    item: &F,
    mut found: Vec<F::Tree>,
) -> Result<Vec<F::Tree>, Failure<S::Fault>>
    requires { F.can_read item.now }
    ensures reads { ReadsAs (λ all. all.items) (repeat_by S.turns (F.begins item.now) (F.form item.now) found.items source.old) result source.new }
    ensures keeps { OnOk result (S.turns source.new ≤ S.turns source.old) }
{
    'more: while item.begins(source) {
        found.push(item.read(alloc, source)?)?;
    }
    Ok(found)
}

/// Items as long as one begins.
pub fn many<S: TokenSource, F: Form<S> + Begins<S>>(
    alloc: Global,
    source: &mut S,
    item: &F,
) -> Result<Items<F::Tree>, Failure<S::Fault>>
    requires { F.can_read item.now }
    ensures reads { Reads (many_by S.turns (F.begins item.now) (F.form item.now) source.old) result source.new }
    ensures keeps { OnOk result (S.turns source.new ≤ S.turns source.old) }
{
    let none = if item.begins(source) {
        room_for_one(alloc)?
    } else {
        Vec::new(alloc)
    };
    Ok(Items::from_vec(more(alloc, source, item, none)?))
}

/// One item or more, as long as one begins.
pub fn some<S: TokenSource, F: Form<S> + Begins<S>>(
    alloc: Global,
    source: &mut S,
    item: &F,
) -> Result<Items<F::Tree>, Failure<S::Fault>>
    requires { F.can_read item.now }
    ensures reads { Reads (some_by S.turns (F.begins item.now) (F.form item.now) source.old) result source.new }
    ensures takes { OnOk result (S.turns source.new < S.turns source.old) }
{
    let mut found = room_for_one(alloc)?;
    found.push(item.read(alloc, source)?)?;
    Ok(Items::from_vec(more(alloc, source, item, found)?))
}

/// One item or more, with tokens of this kind between.
pub fn separated<S: TokenSource, F: Form<S>>(
    alloc: Global,
    source: &mut S,
    separator: S::Kind,
    item: &F,
) -> Result<Items<F::Tree>, Failure<S::Fault>>
    requires { F.can_read item.now }
    ensures reads { Reads (separated_by S.turns (S.sees separator) (S.expect separator) (F.form item.now) source.old) result source.new }
    ensures takes { OnOk result (S.turns source.new < S.turns source.old) }
{
    let first = item.read(alloc, source)?;
    let mut found = room_for(alloc, !source.sees(separator))?;
    found.push(first)?;
    'more: while source.sees(separator) {
        source.expect(separator)?;
        found.push(item.read(alloc, source)?)?;
    }
    Ok(packed(alloc, found)?)
}

/// The item, if one begins.
pub fn optional<S: TokenSource, F: Form<S> + Begins<S>>(
    alloc: Global,
    source: &mut S,
    item: &F,
) -> Result<Option<F::Tree>, Failure<S::Fault>>
    requires { F.can_read item.now }
    ensures reads { Reads (forms.optional (F.begins item.now) (F.form item.now) source.old) result source.new }
    ensures keeps { OnOk result (S.turns source.new ≤ S.turns source.old) }
{
    if !item.begins(source) {
        return Ok(None);
    }
    Ok(Some(item.read(alloc, source)?))
}
