//! What stands beside names, row after row.

ghost use Rattle.std.specs.Prelude.{◌≡◌, ◌<◌, ◌^◌, ℕ, List, [], ◌∷◌, ◌++◌, length, if◌then◌else◌, None, IfOk, OnOk, OnErr};
ghost use Rattle.std.specs.Str.{bytes_eq};
ghost use Rattle.name_tables.specs.Hashes.{first_at, values_in};
ghost use Rattle.name_tables.specs.Names.{named, values_of};

use crate::hashes::hash_of;
use std::alloc::{AllocError, Global};
use std::collections::BTreeMap;
use std::marker::Model;

/// The first name of a hash, and what stands beside it.
#[derive(Drop)]
pub(crate) struct Hashed<'a, T> {
    name: &'a [u8],
    values: Vec<T>,
}

/// What stands beside each name, row after row. The names' bytes are lent, not copied.
#[derive(Drop)]
pub struct NameRows<'a, T> {
    alloc: Global,
    rows: Vec<(&'a [u8], T)>,
    // Hashes are sooner compared than names.
    by_hash: BTreeMap<u64, Hashed<'a, T>>,
    // Of the names whose hash another has that came before: in order, and not in a list for each hash, since who writes
    // the names could choose colliding ones.
    others: BTreeMap<&'a [u8], Vec<T>>,
}

impl<'a, T> Model for NameRows<'a, T> {
    ghost use Rattle.std.specs.Prelude.{List, ℕ};
    ghost use Rattle.name_tables.specs.Names.{rows_of};
    ghost use Rattle.name_tables.specs.Hashes.{HasRows};

    ghost Value = { List (List ℕ × T) };

    ghost view = { λ table. rows_of table.rows.items };

    ghost invariant = { λ table. HasRows table.by_hash table.others (rows_of table.rows.items) };
}

impl<'a, T: Copy + Drop> NameRows<'a, T> {
    pub fn new(alloc: Global) -> NameRows<'a, T>
        ensures { result ≡ [] }
    {
        NameRows {
            alloc,
            rows: Vec::new(alloc),
            by_hash: BTreeMap::new(alloc),
            others: BTreeMap::new(alloc),
        }
    }

    /// How many rows were put.
    pub fn len(&self) -> usize
        ensures len { result ≡ length self.now }
        ensures small { result < 2 ^ 63 }
    {
        self.rows.len()
    }

    /// What stands beside this name, in the order in which it was put.
    pub fn get(&self, name: &[u8]) -> &[T]
        ensures { result.now ≡ named name.now self.now }
    {
        match self.by_hash.get(&hash_of(name)) {
            Some(first) if first.name == name => &first.values,
            Some(_) => values_of(&self.others, name),
            None => &[],
        }
    }

    /// Puts a row behind the others.
    pub fn push(&mut self, name: &'a [u8], value: T) -> Result<(), AllocError>
        ensures ok { OnOk result (self.new ≡ self.old ++ (name.now, value) ∷ []) }
        ensures err { OnErr result (self.new ≡ self.old) }
    {
        // With room for it first, the last push cannot fail.
        self.rows.reserve(1)?;
        put(self.alloc, &mut self.by_hash, &mut self.others, name, value)?;
        self.rows.push((name, value))?;
        Ok(())
    }
}

/// What stands beside this name, in the order in which it was put.
fn values_of<'m, T>(by_name: &'m BTreeMap<&[u8], Vec<T>>, name: &[u8]) -> &'m [T]
    ensures { result.now ≡ values_of name.now by_name.now }
{
    match by_name.get(name) {
        Some(values) => values,
        None => &[],
    }
}

/// Puts a value behind those of its name.
fn put<'a, T: Copy + Drop>(
    alloc: Global,
    by_hash: &mut BTreeMap<u64, Hashed<'a, T>>,
    others: &mut BTreeMap<&'a [u8], Vec<T>>,
    name: &'a [u8],
    value: T,
) -> Result<(), AllocError>
    requires { (other : List ℕ) → first_at other by_hash.old ≡ None → values_of other others.old ≡ [] }
    ensures ok { (other : List ℕ) → OnOk result (values_in other by_hash.new others.new ≡ (if bytes_eq name.now other then values_in other by_hash.old others.old ++ value ∷ [] else values_in other by_hash.old others.old)) }
    ensures err { (other : List ℕ) → OnErr result (values_in other by_hash.new others.new ≡ values_in other by_hash.old others.old) }
    ensures alone { (other : List ℕ) → first_at other by_hash.new ≡ None → values_of other others.new ≡ [] }
{
    let first = by_hash
        .entry(hash_of(name))?
        .or_try_insert_with(move || no_values(alloc, name))?;
    if first.name != name {
        return put_other(alloc, others, name, value);
    }
    first.values.push(value)?;
    Ok(())
}

/// Nothing beside a name, with room for one value: most names stand once.
fn no_values<'a, T>(alloc: Global, name: &'a [u8]) -> Result<Hashed<'a, T>, AllocError>
    ensures name { IfOk result (λ h. h.name.now ≡ name.now) }
    ensures empty { IfOk result (λ h. h.values.items ≡ []) }
{
    Ok(Hashed {
        name,
        values: Vec::with_capacity(alloc, 1)?,
    })
}

/// Puts a value behind those of its name, among names that others have the hash of.
fn put_other<'a, T: Copy + Drop>(
    alloc: Global,
    by_name: &mut BTreeMap<&'a [u8], Vec<T>>,
    name: &'a [u8],
    value: T,
) -> Result<(), AllocError>
    ensures ok { (other : List ℕ) → OnOk result (values_of other by_name.new ≡ (if bytes_eq name.now other then values_of other by_name.old ++ value ∷ [] else values_of other by_name.old)) }
    ensures err { (other : List ℕ) → OnErr result (values_of other by_name.new ≡ values_of other by_name.old) }
{
    let values = by_name
        .entry(name)?
        .or_try_insert_with(|| Vec::with_capacity(alloc, 1))?;
    values.push(value)?;
    Ok(())
}
