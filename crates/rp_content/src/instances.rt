//! Instances in the order of their names.

ghost use Rattle.std.specs.Prelude.{◌≡◌, ◌<◌, [], Some, None, length, vec_len, IfOk, option_copied};
ghost use Rattle.std.specs.Vec.{vec_capacity};
ghost use Rattle.std.specs.List as list;
ghost use Rattle.std.specs.Ordering.{nat_cmp};
ghost use Rattle.sorted_tables.specs.Table.{is_at, with_row, IsAscending};
ghost use Rattle.rp_content.specs.Names.{instance_name, Takes};

use crate::gapped::Gapped;
use crate::instance::Instance;
use sorted_tables::{find, search};
use std::alloc::{AllocError, Global};
use std::marker::Model;

/// Instances in the order of their names, each name once.
#[derive(Drop)]
pub struct Instances {
    list: Gapped,
}

impl Model for Instances {
    ghost use Rattle.std.specs.Prelude.{List};
    ghost use Rattle.std.specs.Ordering.{nat_cmp};
    ghost use Rattle.sorted_tables.specs.Table.{IsAscending};
    ghost use Rattle.rp_content.specs.declared.instance.Instance.{Instance};
    ghost use Rattle.rp_content.specs.Names.{instance_name};

    ghost Value = { List Instance };

    ghost use Rattle.std.specs.Coded.{codes};
    ghost use Rattle.rp_content.specs.contracts.instance.Instance as instance_type;

    ghost coded = { Prim.hlevel (codes, instance_type.the_row.coded) };

    ghost view = { λ l. l.list.0 };

    ghost invariant = { λ l. IsAscending nat_cmp instance_name l.list.0 };
}

/// Room for so many instances, with none in it.
#[derive(Drop)]
pub struct Spare {
    items: Vec<Instance>,
}

impl Spare {
    /// No room.
    pub fn none(alloc: Global) -> Spare {
        Spare {
            items: Vec::new(alloc),
        }
    }
}

impl Model for Spare {
    ghost use Rattle.std.specs.Prelude.{◌≡◌, ℕ, []};
    ghost use Rattle.std.specs.Vec.{vec_capacity};

    ghost Value = { ℕ };

    ghost view = { λ s. vec_capacity s.items };

    ghost invariant = { λ s. s.items.items ≡ [] };
}

/// For how many instances room is made beside so many: for more than one more, so that it is seldom used.
fn room_beside(count: usize) -> usize
    requires { count < 9223372036854775808 }
    ensures { count < result }
{
    count + count / 2 + 1
}

/// Room for one more. Where there is none, all move into the spare.
fn make_room(list: &mut Gapped, spare: Spare)
    requires { length list.old.0 < spare }
    ensures same { list.new.0 ≡ list.old.0 }
    ensures room { 0 < list.new.1 }
{
    if list.is_full() {
        let Spare { items } = spare;
        list.move_into(items);
    }
}

impl Instances {
    /// None.
    pub fn new(alloc: Global) -> Instances
        ensures { result ≡ [] }
    {
        Instances {
            list: Gapped::of(Vec::new(alloc)),
        }
    }

    /// Those of a list, with the room that it has. It takes no memory.
    pub fn of(items: Vec<Instance>) -> Instances
        requires { IsAscending nat_cmp instance_name items.items }
        ensures { result ≡ items.items }
    {
        Instances {
            list: Gapped::of(items),
        }
    }

    /// All of them.
    pub fn as_slice(&self) -> &[Instance]
        ensures { result.now ≡ self.now }
    {
        self.list.as_slice()
    }

    /// All of them, whose names ascend.
    pub fn ordered(&self) -> &[Instance]
        ensures are { result.now ≡ self.now }
        ensures order { IsAscending nat_cmp instance_name self.now }
    {
        self.list.as_slice()
    }

    pub fn len(&self) -> usize
        ensures { result ≡ length self.now }
    {
        self.list.len()
    }

    /// The instance of this name. The others aren't walked over.
    pub fn get(&self, name: u64) -> Option<&Instance>
        ensures { option_copied result ≡ list.find (is_at nat_cmp instance_name name) self.now }
    {
        find(self.list.as_slice(), &name)
    }

    /// Room for one instance more than these.
    pub fn spare(&self, alloc: Global) -> Result<Spare, AllocError>
        ensures { IfOk result (λ spare. length self.now < spare) }
    {
        let items = Vec::with_capacity(alloc, room_beside(self.list.len()))?;
        Ok(Spare { items })
    }

    /// The instance stands under its name from now on. It takes no memory: where it is one more and there is no room for it, all
    /// move into the spare.
    pub fn put(&mut self, instance: Instance, spare: Spare)
        requires { Takes spare instance.name self.old }
        ensures { self.new ≡ with_row nat_cmp instance_name instance.name (Some instance) self.old }
    {
        match search(self.list.as_slice(), &instance.name) {
            Ok(place) => self.list.set(place, instance),
            Err(place) => {
                make_room(&mut self.list, spare);
                self.list.insert(place, instance);
            }
        }
    }

    /// No instance stands under the name from now on.
    pub fn drop_instance(&mut self, name: u64)
        ensures { self.new ≡ with_row nat_cmp instance_name name None self.old }
    {
        if let Ok(place) = search(self.list.as_slice(), &name) {
            self.list.remove(place);
        }
    }
}
