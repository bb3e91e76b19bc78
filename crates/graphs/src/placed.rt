//! Members in the order in which they got their places.

ghost use Rattle.std.specs.Prelude.{◌≡◌, ◌∷◌, ◌++◌, ℕ, List, [], IfOk};
ghost use Rattle.graphs.specs.Placed as spec;

use plain_data::Rows;
use std::alloc::{AllocError, Global};
use std::marker::Model;

/// So many are looked through one by one. Marks for all members of a graph would take longer.
const FEW: usize = 16;

/// Members of a graph in the order in which they got their places.
pub struct Placed {
    order: Vec<usize>,
    /// Of each member of the graph whether it has its place, once there are more than a few.
    marks: Vec<bool>,
    /// How many members the graph has.
    count: usize,
}

impl Drop for Placed {
    fn drop(self) {
        let Placed {
            order,
            marks,
            count: _,
        } = self;
        drop(order);
        drop(marks);
    }
}

impl Model for Placed {
    ghost use Rattle.std.specs.Prelude.{List, ℕ};
    ghost use Rattle.graphs.specs.Placed as spec;

    ghost Value = { List ℕ };

    ghost view = { λ p. p.order.items };

    ghost invariant = { λ p. spec.AreMarks p.marks.items p.order.items };
}

/// So many marks, of which none is set.
fn no_marks(alloc: Global, count: usize) -> Result<Vec<bool>, AllocError>
    ensures { IfOk result (λ marks. spec.AreMarks marks.items []) }
{
    let mut marks = Vec::with_capacity(alloc, count)?;
    marks.resize(count, false)?;
    Ok(marks)
}

/// Sets the mark of a member, if it has one.
fn mark(marks: &mut [bool], member: usize)
    ensures { (placed : List ℕ) → spec.AreMarks marks.old placed → spec.AreMarks marks.new (placed ++ member ∷ []) }
{
    if member < marks.len() {
        marks[member] = true;
    }
}

/// The marks of these members.
fn marks_of(alloc: Global, members: &[usize], count: usize) -> Result<Vec<bool>, AllocError>
    ensures { IfOk result (λ marks. spec.AreMarks marks.items members.now) }
{
    let mut marks = no_marks(alloc, count)?;
    for member in members {
        mark(&mut marks, *member);
    }
    Ok(marks)
}

impl Placed {
    ghost use Rattle.std.specs.Prelude.{◌≡◌, ◌∷◌, ◌++◌, [], IfOk, OnOk};
    ghost use Rattle.plain_data.specs.Numbers.{is_among};

    /// No member of a graph of so many has its place yet.
    pub fn new(alloc: Global, count: usize) -> Placed
        ensures { result ≡ [] }
    {
        Placed {
            order: Vec::new(alloc),
            marks: Vec::new(alloc),
            count,
        }
    }

    /// Whether a member has its place.
    pub fn has(&self, member: usize) -> bool
        ensures { result ≡ is_among self.now member }
    {
        match self.marks.get(member) {
            Some(mark) => *mark,
            None => self.order.iter().any(|placed| *placed == member),
        }
    }

    /// Gives a member the next place.
    pub fn push(&mut self, alloc: Global, member: usize) -> Result<(), AllocError>
        ensures { OnOk result (self.new ≡ self.old ++ member ∷ []) }
    {
        if self.marks.is_empty() && self.order.len() >= FEW {
            self.marks = marks_of(alloc, &self.order, self.count)?;
        }
        self.order.push(member)?;
        mark(&mut self.marks, member);
        Ok(())
    }

    /// The members in this order.
    pub fn into_rows(self) -> Rows<usize>
        ensures { result ≡ self }
    {
        let Placed {
            order,
            marks,
            count: _,
        } = self;
        drop(marks);
        Rows::from_vec(order)
    }
}
