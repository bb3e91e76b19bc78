//! Instances in a list, of which the first places may be empty.

ghost use Rattle.std.specs.Prelude.{◌≡◌, ◌<◌, ◌≤◌, [], false, length, drop, set};
ghost use Rattle.std.specs.List.{insert, remove};
ghost use Rattle.std.specs.Vec.{vec_capacity};

use crate::instance::{Entities, Instance};
use plain_data::Items;
use std::alloc::Global;
use std::marker::Model;
use std::mem::replace;

/// Instances in a list, behind places that have nothing in them. Whatever is taken out of the front half leaves such a place, so
/// that what stands before it moves and the longer part stays.
#[derive(Drop)]
pub struct Gapped {
    items: Vec<Instance>,
    /// How many of the places are empty.
    gone: usize,
}

impl Model for Gapped {
    ghost use Rattle.std.specs.Prelude.{ℕ, ◌-◌, ◌≤◌, List, length, drop, vec_len};
    ghost use Rattle.std.specs.Vec.{vec_capacity};
    ghost use Rattle.rp_content.specs.declared.instance.Instance.{Instance};

    ghost Value = { List Instance × ℕ };

    ghost use Rattle.std.specs.Coded.{codes};
    ghost use Rattle.rp_content.specs.contracts.instance.Instance as instance_type;

    ghost coded = { Prim.hlevel (codes, instance_type.the_row.coded) };

    ghost view = { λ g. (drop g.gone g.items.items, vec_capacity g.items - vec_len g.items) };

    ghost invariant = { λ g. g.gone ≤ length g.items.items };
}

/// An empty place. It has no memory.
fn nothing(alloc: Global) -> Instance {
    Instance {
        name: 0,
        entities: Entities::Leaf(0),
        values: Items::new(alloc),
    }
}

/// The instance of a place comes to the front, and those before it move on by one.
fn bring_to_front(items: &mut [Instance], place: usize)
    requires { place < length items.old }
    ensures others { drop 1 items.new ≡ remove items.old place }
    ensures len { length items.new ≡ length items.old }
{
    items[..place + 1].rotate_right(1);
}

impl Gapped {
    /// With no empty place.
    pub fn of(items: Vec<Instance>) -> Gapped
        ensures { result.0 ≡ items.items }
    {
        Gapped { items, gone: 0 }
    }

    pub fn as_slice(&self) -> &[Instance]
        ensures { result.now ≡ self.now.0 }
    {
        &self.items[self.gone..]
    }

    pub fn len(&self) -> usize
        ensures len { result ≡ length self.now.0 }
        ensures small { result < 9223372036854775808 }
    {
        self.items.len() - self.gone
    }

    /// Whether there is no room for one more.
    pub fn is_full(&self) -> bool
        ensures { result ≡ false → 0 < self.now.1 }
    {
        self.items.len() >= self.items.capacity()
    }

    /// The instance stands at the place from now on, in place of the one there.
    pub fn set(&mut self, place: usize, instance: Instance)
        requires { place < length self.old.0 }
        ensures { self.new.0 ≡ set self.old.0 place instance }
    {
        self.items[self.gone + place] = instance;
    }

    /// The instance stands at the place from now on, before the one there.
    pub fn insert(&mut self, place: usize, instance: Instance)
        requires within { place ≤ length self.old.0 }
        requires room { 0 < self.old.1 }
        ensures { self.new.0 ≡ insert self.old.0 place instance }
    {
        self.items.insert(self.gone + place, instance).unwrap();
    }

    /// Takes out what stands at a place of the front half.
    fn remove_in_front(&mut self, place: usize)
        requires { place < length self.old.0 }
        ensures { self.new.0 ≡ remove self.old.0 place }
    {
        let alloc = *self.items.allocator();
        bring_to_front(&mut self.items[self.gone..], place);
        let _ = replace(&mut self.items[self.gone], nothing(alloc));
        self.gone += 1;
    }

    /// Takes out what stands at the place.
    pub fn remove(&mut self, place: usize)
        requires { place < length self.old.0 }
        ensures { self.new.0 ≡ remove self.old.0 place }
    {
        if place < self.len() / 2 {
            self.remove_in_front(place);
        } else {
            let _ = self.items.remove(self.gone + place);
        }
    }

    /// Moves all into this room, which has none in it.
    pub fn move_into(&mut self, mut room: Vec<Instance>)
        requires empty { room.items ≡ [] }
        requires room { length self.old.0 < vec_capacity room }
        ensures same { self.new.0 ≡ self.old.0 }
        ensures room { 0 < self.new.1 }
    {
        let count = self.len();
        self.items.rotate_left(self.gone);
        self.items.truncate(count);
        room.append(&mut self.items).unwrap();
        self.items = room;
        self.gone = 0;
    }
}
