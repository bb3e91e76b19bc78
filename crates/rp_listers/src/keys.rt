//! Keys of groups, each of which stands in many lists and is kept once.

ghost use Rattle.std.specs.Prelude.{◌≡◌, [], length, nat_lt, OnOk, OnErr, IfOk, IfSome};
ghost use Rattle.rp_listers.specs.Kept.{with_key, without_key};

use rp_rows::rows::Key;
use shared::Shared;
use sorted_tables::{Row, Sought};
use std::alloc::{AllocError, Global};
use std::cmp::Ordering;
use std::marker::Model;

/// The key of a group.
#[derive(Drop)]
pub struct Lister {
    key: Shared<Key>,
}

impl Model for Lister {
    ghost use Rattle.rp_rows.specs.declared.rows.Key.{Key};

    ghost Value = { Key };

    ghost view = { λ l. l.key };
}

impl Lister {
    /// A copy of the key.
    pub(crate) fn of(alloc: Global, key: &Key) -> Result<Lister, AllocError>
        ensures { IfOk result (λ l. l ≡ key.now) }
    {
        let copy = key.copy(alloc)?;
        Ok(Lister {
            key: Shared::new(alloc, copy)?,
        })
    }

    /// The same once more. It copies no key.
    pub(crate) fn share(&self) -> Result<Lister, AllocError>
        ensures { IfOk result (λ l. l ≡ self.now) }
    {
        Ok(Lister {
            key: self.key.share()?,
        })
    }

    pub fn get(&self) -> &Key
        ensures { result.now ≡ self.now }
    {
        self.key.get()
    }
}

impl Row for Lister {
    ghost use Rattle.rp_rows.specs.Rows.{key_cmp};
    ghost use Rattle.rp_rows.specs.Listings.{itself};
    ghost use Rattle.rp_rows.proofs.Keys.{key_total};

    type Key = Key;

    ghost key = { itself };

    ghost cmp = { key_cmp };

    fn order(&self, other: &Lister) -> Ordering {
        self.get().order(other.get())
    }

    ghost total = { key_total };
}

impl Sought<Lister> for Key {
    ghost sought = { λ k. k };

    fn order_of(&self, lister: &Lister) -> Ordering {
        lister.get().order(self)
    }
}

/// Keys of groups in their order, each once.
#[derive(Drop)]
pub(crate) struct Keys {
    listers: Vec<Lister>,
}

impl Model for Keys {
    ghost use Rattle.std.specs.Prelude.{List};
    ghost use Rattle.sorted_tables.specs.Table.{IsAscending};
    ghost use Rattle.rp_rows.specs.declared.rows.Key.{Key};
    ghost use Rattle.rp_rows.specs.Rows.{key_cmp};
    ghost use Rattle.rp_rows.specs.Listings.{itself};

    ghost Value = { List Key };

    ghost view = { λ k. k.listers.items };

    ghost invariant = { λ k. IsAscending key_cmp itself k.listers.items };
}

impl Keys {
    pub(crate) fn new(alloc: Global) -> Keys
        ensures { result ≡ [] }
    {
        Keys {
            listers: Vec::new(alloc),
        }
    }

    pub(crate) fn as_slice(&self) -> &[Lister]
        ensures { result.now ≡ self.now }
    {
        self.listers.as_slice()
    }

    pub(crate) fn len(&self) -> usize
        ensures { result ≡ length self.now }
    {
        self.listers.len()
    }

    /// The key, if it is among these.
    pub(crate) fn find(&self, key: &Key) -> Option<&Lister> {
        sorted_tables::find(&self.listers, key)
    }

    /// The key is among these from now on.
    pub(crate) fn add(&mut self, lister: Lister) -> Result<(), AllocError>
        ensures added { OnOk result (self.new ≡ with_key lister self.old) }
        ensures kept { OnErr result (self.new ≡ self.old) }
    {
        self.listers.reserve(1)?;
        sorted_tables::put(&mut self.listers, lister);
        Ok(())
    }

    /// The key isn't among these from now on. It takes no memory.
    pub(crate) fn drop_key(&mut self, key: &Key)
        ensures { self.new ≡ without_key key.now self.old }
    {
        sorted_tables::remove(&mut self.listers, key);
    }
}
