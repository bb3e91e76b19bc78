//! What is found of a name in each type, found for all types at once.

ghost use Rattle.std.specs.Prelude.{◌≡◌, ℕ, true, IfOk, IfSome, IsTrue};
ghost use Rattle.std.specs.Str.{bytes_eq};
ghost use Rattle.ex_renamings.specs.Leading.{is_marked as is_marked_in};
ghost use Rattle.ex_attributes.specs.Attributes as attributes_spec;
ghost use Rattle.ex_attributes.specs.Kept as spec;

use crate::attributes::Attributes;
use crate::found::Found;
use ex_kinds::{Kinds, Types, ValueKind, are_same};
use ex_renamings::is_marked;
use plain_data::Text;
use std::alloc::{AllocError, Global};

/// What is found of a name in each type, where all types that have it have it alike.
#[derive(Drop)]
pub struct Kept {
    pub name: Text,
    /// Which types stand for something that has it.
    pub marks: Vec<bool>,
    pub found: Found,
}

impl Kept {
    /// Whether it is of this name.
    pub fn is_of(&self, name: &str) -> bool
        ensures { result ≡ bytes_eq self.now.name name.now }
    {
        self.name.as_str() == name
    }

    /// What is found of the name in all that a type stands for.
    pub fn found_in(&self, alloc: Global, number: usize) -> Result<Found, AllocError>
        ensures { IfOk result (λ found. found ≡ spec.found_if (is_marked_in self.now.marks.items number) self.now.found) }
    {
        if is_marked(&self.marks, number) {
            self.found.copied()
        } else {
            Ok(Found::nothing(alloc))
        }
    }
}

/// What is found of a name among several kinds.
#[derive(Drop)]
pub struct KeptAmong {
    pub name: Text,
    pub kinds: Kinds,
    pub found: Found,
}

impl KeptAmong {
    /// Whether it was found of this name among these kinds.
    pub fn was_found_of(&self, name: &str, kinds: &[ValueKind]) -> bool
        ensures { IsTrue result → (bytes_eq self.now.name name.now ≡ true) × (self.now.kinds ≡ kinds.now) }
    {
        self.name.as_str() == name && are_same(self.kinds.as_slice(), kinds)
    }
}

/// What is found of the name in what a type declares itself.
fn own_found(
    alloc: Global,
    types: &Types,
    attributes: &Attributes,
    name: &str,
    number: usize,
) -> Result<Found, AllocError>
    ensures { IfOk result (λ found. found ≡ spec.after_own types.now attributes.now name.now attributes_spec.found_nothing number) }
{
    let own = types.own(alloc, number)?;
    attributes.found_among(alloc, own.as_slice(), name)
}

/// What is found of the name in the first type that declares what has it.
fn first_found(
    alloc: Global,
    types: &Types,
    attributes: &Attributes,
    name: &str,
) -> Result<Found, AllocError> {
    for number in 0..types.len() {
        let found = own_found(alloc, types, attributes, name, number)?;
        if found.is_there {
            return Ok(found);
        }
    }
    Ok(Found::nothing(alloc))
}

/// Whether what was found stays as it is where a type's own kinds are looked at too.
fn stays(
    alloc: Global,
    attributes: &Attributes,
    name: &str,
    found: &Found,
    own: &Kinds,
) -> Result<bool, AllocError>
    ensures { IfOk result (λ told. IsTrue told → attributes_spec.found_after attributes.now name.now found.now own.now ≡ found.now) }
{
    let after = attributes.found_from(alloc, found.copied()?, own.as_slice(), name)?;
    Ok(after.is_same(found))
}

/// Whether a type's own declaration has the name, if it has it so or not at all.
fn own_mark(
    alloc: Global,
    types: &Types,
    attributes: &Attributes,
    name: &str,
    found: &Found,
    number: usize,
) -> Result<Option<bool>, AllocError>
    ensures { IfOk result (λ told. IfSome told (spec.IsAlike types.now attributes.now name.now found.now number)) }
{
    let own = types.own(alloc, number)?;
    if !stays(alloc, attributes, name, found, &own)? {
        return Ok(None);
    }
    let first = attributes.found_among(alloc, own.as_slice(), name)?;
    if first.is_same(found) {
        Ok(Some(true))
    } else if first.is_nothing() {
        Ok(Some(false))
    } else {
        Ok(None)
    }
}

/// Which types' own declarations have the name, if each has it so or not at all.
fn own_marks(
    alloc: Global,
    types: &Types,
    attributes: &Attributes,
    name: &str,
    found: &Found,
) -> Result<Option<Vec<bool>>, AllocError>
    ensures { IfOk result (λ told. IfSome told (λ marks. (m : ℕ) → spec.IsAlike types.now attributes.now name.now found.now m (is_marked_in marks.items m))) }
{
    let mut marks = Vec::with_capacity(alloc, types.len())?;
    for number in 0..types.len() {
        match own_mark(alloc, types, attributes, name, found, number)? {
            Some(mark) => marks.push(mark)?,
            None => return Ok(None),
        }
    }
    Ok(Some(marks))
}

/// What is found of the name in each type, if all types that have it have it alike.
#[tactic(auto, unfolding(crate::specs::Kept::IsKept))]
pub fn keep(
    alloc: Global,
    types: &Types,
    attributes: &Attributes,
    name: &str,
) -> Result<Option<Kept>, AllocError>
    ensures { IfOk result (λ told. IfSome told (λ k. spec.IsKept types.now attributes.now k)) }
{
    let found = first_found(alloc, types, attributes, name)?.into_shared()?;
    let Some(own) = own_marks(alloc, types, attributes, name, &found)? else {
        return Ok(None);
    };
    let marks = types.leading(alloc, &own)?;
    let name = Text::from_str(alloc, name)?;
    Ok(Some(Kept { name, marks, found }))
}

/// What is found of the name among kinds.
pub fn keep_among(
    alloc: Global,
    types: &Types,
    attributes: &Attributes,
    kinds: Kinds,
    name: &str,
) -> Result<KeptAmong, AllocError>
    ensures { IfOk result (spec.IsKeptAmong types.now attributes.now) }
{
    let plain = types.plain(alloc, kinds.as_slice())?;
    let found = attributes
        .found_among(alloc, plain.as_slice(), name)?
        .into_shared()?;
    let name = Text::from_str(alloc, name)?;
    Ok(KeptAmong { name, kinds, found })
}
