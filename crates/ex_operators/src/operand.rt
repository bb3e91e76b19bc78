//! Operands, of which it is found when it is asked what they may be.

ghost use Rattle.std.specs.Prelude.{◌≡◌, ◌==◌, ◌&&◌, false, IfOk, IsTrue};
ghost use Rattle.std.specs.List.{filter_map};
ghost use Rattle.ex_kinds.specs.Kinds as kinds;
ghost use Rattle.ex_kinds.specs.Types.{alternative as alternative_of, can_be as can_be_in, enumeration as enumeration_in, may_hold_instance as may_hold_instance_in, stays};
ghost use Rattle.ex_operators.specs.Fitting.{is_nothing};
ghost use Rattle.ex_operators.specs.Operands as spec;

use ex_kinds::{Kinds, PlainSort, Sort, Types, ValueKind, alternative, apart, elements};
use std::alloc::{AllocError, Global};
use std::marker::Model;

/// What an operand may be: its kinds, where no defined type stands for it, and what is among these.
#[derive(Drop)]
pub(crate) struct Operand<'a> {
    types: &'a Types,
    kinds: &'a [ValueKind],
}

impl<'a> Model for Operand<'a> {
    ghost use Rattle.ex_operators.specs.Operands.{operand, Operand as OperandValue};

    ghost Value = { OperandValue };

    ghost view = { λ o. operand o.types.now o.kinds.now };
}

impl<'a> Operand<'a> {
    /// What is of these kinds.
    pub(crate) fn of(types: &'a Types, kinds: &'a [ValueKind]) -> Operand<'a>
        ensures { result ≡ spec.operand types.now kinds.now }
    {
        Operand { types, kinds }
    }

    /// Whether it may be of this sort.
    pub(crate) fn can_be(&self, sort: PlainSort) -> bool
        ensures { result ≡ can_be_in self.now.possible sort }
    {
        self.types.can_be(self.kinds, sort)
    }

    /// Whether its first kind is of no defined type, as that of most is. It is then at least of that sort.
    pub(crate) fn is_plain(&self) -> bool
        ensures { IsTrue result → is_nothing self.now.possible ≡ false }
    {
        match self.kinds {
            [kind, ..] => is_own(*kind),
            [] => false,
        }
    }

    /// What its elements may be.
    pub(crate) fn elements(&self, alloc: Global) -> Result<Kinds, AllocError>
        ensures { IfOk result (λ found. found ≡ kinds.elements self.now.plain) }
    {
        if self.types.can_have_elements(self.kinds) {
            let plain = self.types.plain(alloc, self.kinds)?;
            elements(alloc, plain.as_slice())
        } else {
            Ok(Kinds::new(alloc))
        }
    }

    /// What it may be where it is no aggregate.
    pub(crate) fn apart(&self, alloc: Global) -> Result<Kinds, AllocError>
        ensures { IfOk result (λ found. found ≡ kinds.apart self.now.plain) }
    {
        let plain = self.types.plain(alloc, self.kinds)?;
        apart(alloc, plain.as_slice())
    }

    /// Whether it may hold an instance of an entity at any depth.
    pub(crate) fn may_hold_instance(&self) -> bool
        ensures { result ≡ may_hold_instance_in self.now.types self.now.plain }
    {
        self.types.may_hold_instance_plainly(self.kinds)
    }

    /// The types of its enumerations.
    pub(crate) fn enumerations(&self, alloc: Global) -> Result<Vec<usize>, AllocError>
        ensures { IfOk result (λ found. found.items ≡ self.now.possible.enumerations) }
    {
        let plain = self.types.plain(alloc, self.kinds)?;
        enumerations_of(alloc, plain.as_slice())
    }
}

/// Whether the value itself is of the kind, and of no defined type.
fn is_own(kind: ValueKind) -> bool
    ensures { result ≡ (kind.depth == 0) && stays (alternative_of kind) }
{
    kind.depth == 0 && alternative(kind).is_none()
}

/// The enumeration that the value itself is of.
fn enumeration(kind: ValueKind) -> Option<usize>
    ensures { result ≡ enumeration_in kind }
{
    match kind.sort {
        Sort::Enumeration(number) if kind.depth == 0 => Some(number),
        _ => None,
    }
}

/// The types of the enumerations among plain kinds.
fn enumerations_of(alloc: Global, kinds: &[ValueKind]) -> Result<Vec<usize>, AllocError>
    ensures { IfOk result (λ found. found.items ≡ filter_map enumeration_in kinds.now) }
{
    kinds.iter().copied().filter_map(enumeration).collect(alloc)
}
