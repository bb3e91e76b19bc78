//! What an expression or a statement stands in.

ghost use Rattle.std.specs.Prelude.{◌≡◌, ◌<◌, [], ◌∷◌, IfOk, length, option_map};
ghost use Rattle.name_tables.specs.Names.{place_of};
ghost use Rattle.ex_named.specs.Outcomes.{Binds};
ghost use Rattle.ex_named.specs.Scopes as spec;

use crate::lookup::{or_undeclared, place_among};
use ancestors::Family;
use ex_named::{Binding, NameFaultKind, NamedExpression, refused};
use ex_tree::Name;
use name_tables::SortedNames;
use std::alloc::{AllocError, Global};
use std::collections::BTreeSet;
use std::marker::Model;

/// What an expression or a statement stands in: the open variables of QUERY and REPEAT, the parameters and locals, whether
/// SELF stands for something, the entities whose attributes are in scope, and the entities that a rule is for.
#[derive(Drop)]
pub struct Scope<'a> {
    // The innermost first.
    nested: Vec<&'a [u8]>,
    frame: &'a SortedNames<'a>,
    has_self: bool,
    family: &'a Family<'a>,
    populations: &'a BTreeSet<usize>,
}

impl<'a> Model for Scope<'a> {
    ghost use Rattle.name_tables.specs.Names.{bytes_of};
    ghost use Rattle.ex_named.specs.Scopes as spec;

    ghost Value = { spec.Scope };

    ghost view = { λ s. record { nested = bytes_of s.nested.items; frame = s.frame.now; has_self = s.has_self; family = s.family.now; populations = s.populations.now.keys } };
}

impl<'a> Scope<'a> {
    /// With no variable of QUERY or REPEAT open. The frame has the parameters and locals, which are the first slots.
    pub fn new(
        alloc: Global,
        frame: &'a SortedNames<'a>,
        has_self: bool,
        family: &'a Family<'a>,
        populations: &'a BTreeSet<usize>,
    ) -> Scope<'a>
        ensures { result ≡ record { nested = []; frame = frame.now; has_self = has_self; family = family.now; populations = populations.now.keys } }
    {
        Scope {
            nested: Vec::new(alloc),
            frame,
            has_self,
            family,
            populations,
        }
    }

    /// The same with one variable more, open within this scope.
    pub fn within(&self, alloc: Global, variable: &'a Name) -> Result<Scope<'a>, AllocError>
        ensures { IfOk result (λ s. s ≡ spec.within self.now variable.now.text) }
    {
        Ok(Scope {
            nested: one_more(alloc, variable.text.as_bytes(), &self.nested)?,
            frame: self.frame,
            has_self: self.has_self,
            family: self.family,
            populations: self.populations,
        })
    }

    /// The slot of a variable that can be assigned.
    pub fn assigned(&self, name: &Name) -> Binding<usize>
        ensures { Binds result (spec.assigned self.now name.now) }
    {
        let found = match self.nested_variable(name.text.as_bytes()) {
            Some(_) => None,
            None => self.frame.place(name.text.as_bytes()),
        };
        or_undeclared(name, found)
    }

    /// SELF, whose first byte is this.
    pub fn itself(&self, at: usize) -> Binding<NamedExpression>
        ensures { Binds result (spec.itself self.now at) }
    {
        if self.has_self {
            return Ok(NamedExpression::Itself);
        }
        refused(NameFaultKind::Undeclared, at)
    }

    /// The slot of the innermost variable of this name.
    pub(crate) fn variable(&self, name: &[u8]) -> Option<usize>
        ensures { result ≡ spec.variable self.now name.now }
    {
        match self.nested_variable(name) {
            Some(slot) => Some(slot),
            None => self.frame.place(name),
        }
    }

    pub(crate) fn family(&self) -> &Family<'a>
        ensures { result.now ≡ self.now.family }
    {
        self.family
    }

    pub(crate) fn populations(&self) -> &BTreeSet<usize>
        ensures { result.now.keys ≡ self.now.populations }
    {
        self.populations
    }

    fn nested_variable(&self, name: &[u8]) -> Option<usize>
        ensures { result ≡ spec.nested_variable self.now name.now }
    {
        let depth = place_among(&self.nested, name)?;
        Some(self.frame.len() + (self.nested.len() - 1 - depth))
    }
}

/// The names behind a new first one.
fn one_more<'a>(
    alloc: Global,
    first: &'a [u8],
    others: &[&'a [u8]],
) -> Result<Vec<&'a [u8]>, AllocError>
    ensures { IfOk result (λ names. names.items ≡ first.entry ∷ others.now) }
{
    let mut names = Vec::with_capacity(alloc, 1 + others.len())?;
    names.push(first)?;
    names.extend_from_slice(others)?;
    Ok(names)
}
