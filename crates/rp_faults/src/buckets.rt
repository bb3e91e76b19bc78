//! Things in buckets, by keys that those share which are the same.

ghost use Rattle.std.specs.Prelude.{◌≡◌, [], replicate, IfOk};

use plain_data::Items;
use std::alloc::{AllocError, Global};
use std::marker::Model;

/// Buckets in which things stand by their keys.
#[derive(Drop)]
pub struct Buckets<'r, T> {
    made: Vec<Items<&'r T>>,
}

impl<'r, T> Model for Buckets<'r, T> {
    ghost use Rattle.std.specs.Prelude.{List, ◌<◌, length};
    ghost use Rattle.std.specs.Borrow.{Bor};

    ghost Value = { List (List (Bor T)) };

    ghost view = { λ b. b.made.items };

    ghost invariant = { λ b. 0 < length b.made.items };
}

/// So many empty ones.
fn empty<'r, T>(alloc: Global, count: usize) -> Result<Vec<Items<&'r T>>, AllocError>
    ensures { IfOk result (λ made. made.items ≡ replicate count []) }
{
    let mut made = Vec::with_capacity(alloc, count)?;
    for _number in 0..count {
        made.push(Items::new(alloc))?;
    }
    Ok(made)
}

impl<'r, T> Buckets<'r, T> {
    ghost use Rattle.std.specs.Prelude.{◌≡◌, ◌<◌, length, IfOk, OnOk};
    ghost use Rattle.rp_faults.specs.Buckets as spec;

    /// Empty ones, with as much room as so many things need.
    pub fn new(alloc: Global, count: usize) -> Result<Buckets<'r, T>, AllocError>
        ensures room { IfOk result (λ buckets. 0 < length buckets) }
        ensures empty { IfOk result (λ buckets. spec.AreEmpty buckets) }
    {
        let count = if count == 0 { 1 } else { count };
        Ok(Buckets {
            made: empty(alloc, count)?,
        })
    }

    /// Puts something into the bucket of its key.
    pub fn put(&mut self, key: u32, thing: &'r T) -> Result<(), AllocError>
        ensures { OnOk result (self.new ≡ spec.put self.old key thing.entry) }
    {
        let number = key as usize % self.made.len();
        self.made[number].push(thing)
    }

    /// The bucket of a key.
    pub fn sharing(&self, key: u32) -> &[&'r T]
        ensures { result.now ≡ spec.sharing self.now key }
    {
        self.made[key as usize % self.made.len()].as_slice()
    }
}
