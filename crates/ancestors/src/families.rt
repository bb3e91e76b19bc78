//! A member of a graph together with its ancestors.

ghost use Rattle.std.specs.Prelude.{◌≡◌, ◌<◌, [], length, MatchOption, IfOk, IfSome};
ghost use Rattle.std.specs.List.Sorted.{IsStrictlyIncreasing};
ghost use Rattle.plain_data.specs.Numbers.{is_among};
ghost use Rattle.graphs.specs.Graphs as graphs;

use crate::descents::Descent;
use std::alloc::{AllocError, Global};
use std::marker::Model;

/// A member together with its ancestors, asked which members it has.
#[derive(Drop)]
pub struct Family<'d> {
    // Nobody, where there is none.
    descent: Option<&'d Descent>,
    member: usize,
}

impl<'d> Model for Family<'d> {
    ghost use Rattle.std.specs.Prelude.{List, ℕ};
    ghost use Rattle.ancestors.specs.Kept.{family_of};

    ghost Value = { List ℕ };

    ghost view = { λ f. family_of f.descent f.member };
}

impl<'d> Family<'d> {
    /// Of nobody.
    pub fn nobody() -> Family<'d>
        ensures { result ≡ [] }
    {
        Family {
            descent: None,
            member: 0,
        }
    }

    /// Of a member of the graph; of a number beyond it, nobody's.
    pub fn of(descent: &'d Descent, member: usize) -> Family<'d>
        ensures { result ≡ graphs.family descent.now member }
    {
        Family {
            descent: Some(descent),
            member,
        }
    }

    /// Whether a number is in it: by what is known of the graph, and where that doesn't tell it by a
    /// walk.
    pub fn has(&self, alloc: Global, number: usize) -> Result<bool, AllocError>
        ensures { IfOk result (λ told. told ≡ is_among self.now number) }
    {
        match self.descent {
            Some(descent) => descent.is_in_family(alloc, self.member, number),
            None => Ok(false),
        }
    }

    /// All of it, ascending, where it has at most so many.
    pub fn within(&self, alloc: Global, limit: usize) -> Result<Option<Vec<usize>>, AllocError>
        ensures exact { IfOk result (λ found. MatchOption found (limit < length self.now) (λ all. all.items ≡ self.now)) }
        ensures ascending { IfOk result (λ found. IfSome found (λ all. IsStrictlyIncreasing all.items)) }
    {
        match self.descent {
            Some(descent) => descent.family_within(alloc, self.member, limit),
            None => Ok(Some(Vec::new(alloc))),
        }
    }
}
