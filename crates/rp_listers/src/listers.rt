//! Groups under the numbers of models.

ghost use Rattle.std.specs.Prelude.{◌≡◌, ◌==◌, ◌&&◌, true, false, ℕ, [], OnOk, IfOk, IfSome, option_copied, if◌then◌else◌};
ghost use Rattle.std.specs.List.{AllByRecursion};
ghost use Rattle.rp_rows.specs.declared.rows.Key.{Key as RowKey};
ghost use Rattle.rp_rows.specs.Rows.{same_key};
ghost use Rattle.rp_listers.specs.Kept.{first_at, others_at, is_first, has_key, tells_at, tells, without_key};

use crate::keys::{Keys, Lister};
use crate::numbers::{has_number, number_of};
use rp_rows::rows::Key;
use std::alloc::{AllocError, Global};
use std::collections::BTreeMap;
use std::marker::Model;

/// Groups under the numbers of models that they may list.
#[derive(Drop)]
pub struct Listers {
    alloc: Global,
    /// One for each number: most models are listed by one group.
    firsts: BTreeMap<u64, Lister>,
    others: BTreeMap<u64, Keys>,
}

impl Model for Listers {
    ghost use Rattle.rp_listers.specs.Kept.{KeptListers};

    ghost Value = { KeptListers };

    ghost view = { λ l. record { firsts = l.firsts.entries; others = l.others.entries } };
}

/// Whether the group is this one.
fn is_lister(group: &Key, lister: Option<&Lister>) -> bool
    ensures { result ≡ is_first group.now (option_copied lister.entry) }
{
    match lister {
        Some(lister) => group.is(lister.get()),
        None => false,
    }
}

/// The key that is kept of the group, if it is this one.
fn the_same<'a>(group: &Key, lister: Option<&'a Lister>) -> Option<&'a Lister>
    ensures { IfSome result (λ lister. lister.now ≡ group.now) }
{
    match lister {
        Some(lister) if group.is(lister.get()) => Some(lister),
        _ => None,
    }
}

/// Whether the key is one of these.
fn is_among(key: &Key, keys: &[Key]) -> bool {
    keys.iter().any(|other| other.is(key))
}

/// The first of the number isn't the group from now on. It takes no memory.
fn drop_first(firsts: &mut BTreeMap<u64, Lister>, number: u64, group: &Key)
    ensures numbers { (n : ℕ) → (n == number) ≡ false → first_at n firsts.new.entries ≡ first_at n firsts.old.entries }
    ensures groups { (k : RowKey) (n : ℕ) → same_key group.now k ≡ false → is_first k (first_at n firsts.old.entries) ≡ true → is_first k (first_at n firsts.new.entries) ≡ true }
{
    if is_lister(group, firsts.get(&number)) {
        let _ = firsts.remove(&number);
    }
}

/// The group is among the others of the number from now on.
fn add_other(
    alloc: Global,
    others: &mut BTreeMap<u64, Keys>,
    number: u64,
    lister: Lister,
) -> Result<(), AllocError>
    ensures kept { (k : RowKey) (n : ℕ) → has_key k (others_at n others.old.entries) ≡ true → has_key k (others_at n others.new.entries) ≡ true }
    ensures added { OnOk result (has_key lister (others_at number others.new.entries) ≡ true) }
{
    let keys = others.entry(number)?.or_insert(Keys::new(alloc));
    keys.add(lister)
}

/// The group isn't among the others of the number from now on. It takes no memory.
fn drop_other(others: &mut BTreeMap<u64, Keys>, number: u64, group: &Key)
    ensures { (n : ℕ) → others_at n others.new.entries ≡ (if n == number then without_key group.now (others_at n others.old.entries) else others_at n others.old.entries) }
{
    let Some(keys) = others.get_mut(&number) else {
        return;
    };
    keys.drop_key(group);
    if keys.len() == 0 {
        let _ = others.remove(&number);
    }
}

impl Listers {
    pub fn new(alloc: Global) -> Listers {
        Listers {
            alloc,
            firsts: BTreeMap::new(alloc),
            others: BTreeMap::new(alloc),
        }
    }

    /// One group that may list the models of a number.
    pub fn first(&self, number: u64) -> Option<&Lister>
        ensures { option_copied result ≡ first_at number self.now.firsts }
    {
        self.firsts.get(&number)
    }

    /// And the others.
    pub fn others(&self, number: u64) -> &[Lister]
        ensures { result.now ≡ others_at number self.now.others }
    {
        match self.others.get(&number) {
            Some(keys) => keys.as_slice(),
            None => &[],
        }
    }

    /// The group is told of at the number from now on.
    fn add(&mut self, number: u64, group: &Lister) -> Result<(), AllocError>
        ensures kept { (k : RowKey) (n : ℕ) → tells_at k n self.old ≡ true → tells_at k n self.new ≡ true }
        ensures added { OnOk result (tells_at group.now number self.new ≡ true) }
    {
        let first = self.firsts.get(&number);
        if is_lister(group.get(), first) {
            return Ok(());
        }
        let lister = group.share()?;
        if first.is_some() {
            return add_other(self.alloc, &mut self.others, number, lister);
        }
        self.firsts.insert(number, lister)?;
        Ok(())
    }

    /// The group isn't told of at the number from now on. It takes no memory.
    fn drop_at(&mut self, number: u64, group: &Key)
        ensures numbers { (k : RowKey) (n : ℕ) → (n == number) ≡ false → tells_at k n self.old ≡ true → tells_at k n self.new ≡ true }
        ensures groups { (k : RowKey) (n : ℕ) → same_key group.now k ≡ false → tells_at k n self.old ≡ true → tells_at k n self.new ≡ true }
    {
        drop_first(&mut self.firsts, number, group);
        drop_other(&mut self.others, number, group);
    }

    /// The key that is kept of the group under this model, if one is.
    fn kept(&self, group: &Key, model: Option<&Key>) -> Option<&Lister>
        ensures { IfSome result (λ lister. lister.now ≡ group.now) }
    {
        let number = match model {
            Some(model) => number_of(model),
            None => return None,
        };
        match the_same(group, self.firsts.get(&number)) {
            Some(lister) => Some(lister),
            None => match self.others.get(&number) {
                Some(keys) => the_same(group, keys.find(group)),
                None => None,
            },
        }
    }

    /// The key of the group, which is shared with what is kept of it under the first models: at most one of two is new.
    fn lister(&self, alloc: Global, group: &Key, models: &[Key]) -> Result<Lister, AllocError>
        ensures { IfOk result (λ lister. lister ≡ group.now) }
    {
        if let Some(lister) = self.kept(group, models.first()) {
            return lister.share();
        }
        match self.kept(group, models.get(1)) {
            Some(lister) => lister.share(),
            None => Lister::of(alloc, group),
        }
    }

    /// The group is told of to who asks for one of the models from now on. Without memory it may be, and no other is missed.
    pub fn list(&mut self, alloc: Global, group: &Key, models: &[Key]) -> Result<(), AllocError>
        ensures kept { (k m : RowKey) → tells k m self.old ≡ true → tells k m self.new ≡ true }
        ensures told { OnOk result (AllByRecursion (λ m. tells group.now m self.new ≡ true) models.now) }
    {
        let lister = self.lister(alloc, group, models)?;
        for model in models {
            self.add(number_of(model), &lister)?;
        }
        Ok(())
    }

    /// The group isn't told of any longer to who asks for the model, unless it is one of the models, or has the number of one. It
    /// takes no memory.
    fn drop_model(&mut self, group: &Key, model: &Key, models: &[Key])
        ensures others { (k m : RowKey) → same_key group.now k ≡ false → tells k m self.old ≡ true → tells k m self.new ≡ true }
        ensures own { AllByRecursion (λ m. tells group.now m self.old ≡ true) models.now → AllByRecursion (λ m. tells group.now m self.new ≡ true) models.now }
    {
        // (Keys are sooner compared than numbered.)
        if is_among(model, models) {
            return;
        }
        let number = number_of(model);
        if has_number(number, models) {
            return;
        }
        self.drop_at(number, group);
    }

    /// The group isn't told of any longer to who asks for one of the former models, unless it is one of the models. It takes no
    /// memory.
    pub fn unlist(&mut self, group: &Key, former: &[Key], models: &[Key])
        ensures others { (k m : RowKey) → same_key group.now k ≡ false → tells k m self.old ≡ true → tells k m self.new ≡ true }
        ensures own { AllByRecursion (λ m. tells group.now m self.old ≡ true) models.now → AllByRecursion (λ m. tells group.now m self.new ≡ true) models.now }
    {
        for model in former {
            self.drop_model(group, model, models);
        }
    }
}
