//! Where rows are noted. Nothing is proved of it: a row is compared with what is asked.

ghost use Rattle.std.specs.Prelude.{IfOk, IfSome};
ghost use Rattle.rp_meaning.specs.Expressions.{World};
ghost use Rattle.rp_eval_parts.specs.Serving.{Remembers, Serves, derived_body};

use crate::copies::left_after;
use crate::kept::{Derived, Row};
use rp_meaning::Schema;
use rp_value::Value;
use std::alloc::{AllocError, Global};

/// How many slots a table begins with. Each number of slots is a power of two.
const FIRST_SLOTS: usize = 1024;

/// How often a table doubles at most: it then has two slots for each of the most rows.
const DOUBLINGS: usize = 11;

/// How many slots are looked at for a derived attribute.
const PLACES: usize = 8;

/// How many rows there may be, and what all their values may weigh.
const MOST: usize = 1_048_576;

/// How many rows there may be beside one for each instance.
const BESIDE_INSTANCES: usize = 65_536;

/// What a value may weigh beside its steps.
const BESIDE_STEPS: usize = 16;

/// Where rows are noted: those of before an evaluation, and then those that it found.
#[derive(Drop)]
pub struct Table {
    /// 0, or 1 and the number of a row. The row may be gone.
    slots: Vec<u32>,
    /// How many derivations the entities before each one have, and how many all have.
    firsts: Vec<usize>,
    instances: usize,
    /// How many rows there may be, and how many there are.
    room: usize,
    rows: usize,
    /// What the values weigh, and what those of before the evaluation weigh.
    weight: usize,
    settled_weight: usize,
}

/// The row of a number.
#[inline(always)]
fn row_at<'r>(settled: &'r [Row], found: &'r [Row], number: usize) -> Option<&'r Row>
    ensures { (w : World) → Remembers w settled.now → Remembers w found.now → IfSome result (λ row. Serves w (derived_body row.now.of) row.now.kept) }
{
    match number.checked_sub(settled.len()) {
        None => settled.get(number),
        Some(number) => found.get(number),
    }
}

impl Table {
    /// One that has no room.
    pub(crate) fn none(alloc: Global) -> Table {
        Table {
            slots: Vec::new(alloc),
            firsts: Vec::new(alloc),
            instances: 0,
            room: 0,
            rows: 0,
            weight: 0,
            settled_weight: 0,
        }
    }

    /// One for the derived attributes of so many instances.
    pub(crate) fn new(alloc: Global, schema: &Schema, count: usize) -> Result<Table, AllocError> {
        let mut table = Table::none(alloc);
        let mut first: usize = 0;
        table.firsts.push(first)?;
        for entity in schema.entities.as_slice() {
            first = first.saturating_add(entity.derivations.len());
            table.firsts.push(first)?;
        }
        table.instances = count;
        table.room = count.saturating_add(BESIDE_INSTANCES).min(MOST);
        Ok(table)
    }

    /// An evaluation begins after so many rows. Those that the last one found may be gone.
    pub(crate) fn begin(&mut self, settled: usize) {
        if self.rows != settled {
            self.rows = settled;
            self.weight = self.settled_weight;
        }
        self.settled_weight = self.weight;
    }

    /// The first slot of a derived attribute, by the highest bits of a product.
    #[inline(always)]
    fn first_slot(&self, of: Derived) -> Option<usize> {
        let instance = of.instance as usize;
        let first = *self.firsts.get(of.derivation.entity)?;
        let next = *self.firsts.get(of.derivation.entity.wrapping_add(1))?;
        if self.instances <= instance || next.saturating_sub(first) <= of.derivation.place {
            return None;
        }
        let derivation = first.wrapping_add(of.derivation.place);
        let key = derivation.wrapping_mul(self.instances);
        let key = key.wrapping_add(instance);
        let hash = key.wrapping_mul(0x9E37_79B9_7F4A_7C15);
        Some((hash >> 32).wrapping_mul(self.slots.len()) >> 32)
    }

    /// The row of a derived attribute, and else a slot for it, if one is free.
    #[inline(always)]
    pub(crate) fn row<'r>(
        &self,
        settled: &'r [Row],
        found: &'r [Row],
        of: Derived,
    ) -> Result<&'r Row, Option<usize>>
        ensures { (w : World) → Remembers w settled.now → Remembers w found.now → IfOk result (λ row. Serves w (derived_body of) row.now.kept) }
    {
        let first = self.first_slot(of).ok_or(None)?;
        let mut free = None;
        for place in 0..PLACES {
            let slot = first.wrapping_add(place) & self.slots.len().wrapping_sub(1);
            let noted = *self.slots.get(slot).ok_or(None)? as usize;
            match row_at(settled, found, noted.wrapping_sub(1)) {
                Some(row) if row.of == of => return Ok(row),
                Some(_) => {}
                None => free = free.or(Some(slot)),
            }
            if noted == 0 {
                return Err(free);
            }
        }
        Err(free)
    }

    /// Notes the row of a number in a slot.
    fn note(&mut self, slot: usize, number: usize) {
        if slot < self.slots.len() && number < MOST {
            self.slots[slot] = (number + 1) as u32;
        }
    }

    /// Notes all rows. In their order each finds a slot: it found one among half as many.
    fn note_all(&mut self, settled: &[Row], found: &[Row]) -> Option<()> {
        for number in 0..self.rows {
            let row = row_at(settled, found, number)?;
            if let Err(Some(slot)) = self.row(settled, found, row.of) {
                self.note(slot, number);
            }
        }
        Some(())
    }

    /// Doubles, unless there are enough slots or memory is missing.
    fn double(&mut self, settled: &[Row], found: &[Row]) -> Option<()> {
        if self.room.saturating_mul(2) <= self.slots.len() {
            return None;
        }
        let slots = self.slots.len().saturating_mul(2).max(FIRST_SLOTS);
        self.slots.resize(slots, 0).ok()?;
        self.slots.clear();
        self.slots.resize(slots, 0).ok()?;
        self.note_all(settled, found)
    }

    /// A free slot for a derived attribute that has no row.
    pub(crate) fn free(&mut self, settled: &[Row], found: &[Row], of: Derived) -> Option<usize> {
        let _first = self.first_slot(of)?;
        for _doubling in 0..=DOUBLINGS {
            match self.row(settled, found, of) {
                Ok(_) => return None,
                Err(Some(slot)) => return Some(slot),
                Err(None) => self.double(settled, found)?,
            }
        }
        None
    }

    /// What a value weighs that took so many steps, if there is room for it.
    pub(crate) fn weight(&self, value: &Value, steps: usize) -> Option<usize> {
        if self.room <= self.rows {
            return None;
        }
        let room = MOST.saturating_sub(self.weight);
        let most = steps.saturating_add(BESIDE_STEPS).min(room);
        Some(most.saturating_sub(left_after(value, most)?))
    }

    /// Notes one more row in a free slot.
    pub(crate) fn add(&mut self, slot: usize, weight: usize) {
        self.note(slot, self.rows);
        self.rows = self.rows.saturating_add(1);
        self.weight = self.weight.saturating_add(weight);
    }
}
