//! Rows that are read from the front.

ghost use Rattle.std.specs.Prelude.{◌≡◌, take, drop};

use std::marker::Model;

/// What is left of rows.
#[derive(Drop)]
pub struct Rest<'r> {
    rows: &'r [bool],
}

impl<'r> Model for Rest<'r> {
    ghost use Rattle.std.specs.Prelude.{List, Bool};

    ghost Value = { List Bool };

    ghost view = { λ r. r.rows.now };
}

impl<'r> Rest<'r> {
    ghost use Rattle.std.specs.Prelude.{◌≡◌, take, drop};

    pub fn of(rows: &'r [bool]) -> Rest<'r>
        ensures { result ≡ rows.now }
    {
        Rest { rows }
    }

    /// So many of them.
    #[tactic(auto, using(crate::proofs::Decided::taken_group, crate::proofs::Decided::after_group))]
    pub fn take(&mut self, count: usize) -> &'r [bool]
        ensures taken { result.now ≡ take count self.old }
        ensures rest { self.new ≡ drop count self.old }
    {
        let (front, rest) = self.rows.split_at(count.min(self.rows.len()));
        self.rows = rest;
        front
    }
}
