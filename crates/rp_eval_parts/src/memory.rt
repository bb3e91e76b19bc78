//! Derived values that are remembered from one evaluation to the next.

ghost use Rattle.std.specs.Prelude.{◌≡◌, [], length, IfOk, IfSome};
ghost use Rattle.rp_meaning.specs.Expressions.{World};
ghost use Rattle.rp_eval_parts.specs.Serving.{Ready, Remembers, Serves, derived_body};

use crate::copies::copied;
use crate::kept::{Derived, Kept, Row};
use crate::table::Table;
use rp_meaning::{Domain, Schema};
use rp_value::Value;
use std::alloc::{AllocError, Global};
use std::marker::Model;
use std::mem::replace;

/// The values of derived attributes that evaluations over one schema and one population found. Contracts see the list of its rows.
#[derive(Drop)]
pub struct Memory {
    rows: Vec<Row>,
    table: Table,
}

impl Model for Memory {
    ghost use Rattle.std.specs.Prelude.{List};
    ghost use Rattle.std.specs.Coded.{codes};
    ghost use Rattle.rp_eval_parts.specs.declared.kept.Row.{Row};
    ghost use Rattle.rp_value.specs.contracts.value.Value as value;

    ghost Value = { List Row };

    ghost view = { λ m. m.rows.items };

    ghost coded = { Prim.hlevel (codes, value.the_row.coded) };
}

/// What one evaluation remembers. Its own rows become Memory's when it ends.
#[derive(Drop)]
pub struct Remembered<'m> {
    settled: &'m [Row],
    found: Vec<Row>,
    table: Table,
}

impl Memory {
    /// One that remembers nothing yet, for evaluations over a schema and a domain.
    pub fn new<D: Domain>(alloc: Global, schema: &Schema, domain: &D) -> Result<Memory, AllocError>
        ensures { IfOk result (λ memory. Remembers (record { schema = schema.now; population = D.population domain.now }) memory × (memory ≡ [])) }
    {
        let mut memory = Memory::none(alloc);
        memory.table = Table::new(alloc, schema, domain.count())?;
        Ok(memory)
    }

    /// One that keeps nothing.
    pub fn none(alloc: Global) -> Memory
        ensures { result ≡ [] }
    {
        Memory {
            rows: Vec::new(alloc),
            table: Table::none(alloc),
        }
    }

    /// How many derived values it keeps.
    pub fn len(&self) -> usize
        ensures { result ≡ length self.now }
    {
        self.rows.len()
    }

    /// Takes the table out, for an evaluation to fill.
    pub fn take_table(&mut self, alloc: Global) -> Table
        ensures { self.new ≡ self.old }
    {
        replace(&mut self.table, Table::none(alloc))
    }

    /// What an evaluation begins with.
    pub fn begin(&self, alloc: Global, mut table: Table) -> Remembered<'_>
        ensures { (w : World) → Remembers w self.now → Ready w result }
    {
        table.begin(self.rows.len());
        Remembered {
            settled: self.rows.as_slice(),
            found: Vec::new(alloc),
            table,
        }
    }

    /// Puts the table back; the rows stay.
    pub fn put_table(&mut self, table: Table)
        ensures { self.new ≡ self.old }
    {
        self.table = table;
    }

    /// Takes the rows that an evaluation found, after those that are there; where memory for these is missing, none.
    pub fn settle(&mut self, mut found: Vec<Row>)
        ensures { (w : World) → Remembers w self.old → Remembers w found.items → Remembers w self.new }
    {
        let _ = self.rows.append(&mut found);
    }
}

impl<'m> Remembered<'m> {
    /// What is kept of a derived attribute of an instance.
    pub fn get(&self, of: Derived) -> Option<&Kept>
        ensures { (w : World) → Ready w self.now → IfSome result (λ kept. Serves w (derived_body of) kept.now) }
    {
        match self.table.row(self.settled, self.found.as_slice(), of) {
            Ok(row) => Some(&row.kept),
            Err(_) => None,
        }
    }

    /// Keeps a value with its steps and its bodies, if there is room, if it isn't too heavy for its steps, and if memory is there.
    pub fn keep(&mut self, of: Derived, value: &Value, steps: usize, bodies: usize)
        ensures { (w : World) → Ready w self.old → Serves w (derived_body of) (record { value = value.now; steps = steps; bodies = bodies }) → Ready w self.new }
    {
        let Some(weight) = self.table.weight(value, steps) else {
            return;
        };
        let free = self.table.free(self.settled, self.found.as_slice(), of);
        let (Some(slot), Ok(value)) = (free, copied(value)) else {
            return;
        };
        let kept = Kept {
            value,
            steps,
            bodies,
        };
        if self.found.push(Row { of, kept }).is_ok() {
            self.table.add(slot, weight);
        }
    }

    /// Takes it apart: the rows that were found, and the table.
    pub fn into_parts(self) -> (Vec<Row>, Table)
        ensures { (w : World) → Ready w self.entry → Remembers w result.0.items }
    {
        (self.found, self.table)
    }
}
