//! Operators.

ghost use Rattle.std.specs.Prelude.{◌≡◌, IfOk};
ghost use Rattle.plain_data.specs.Gives.{Gives};
ghost use Rattle.ex_kinds.specs.declared.fault.TypeFaultKind.TheVariants.{Operand as OperandFault};
ghost use Rattle.ex_operators.specs.Operators as spec;

use crate::arithmetic::{difference, product, signed, sum, whole};
use crate::operand::Operand;
use crate::possibilities::{
    are_comparable, are_logicals, are_ordered, can_be_aggregate, can_be_logical,
};
use crate::ruling::{Ruling, logical, or_else_fault};
use ex_kinds::{Kinds, TypeFaultKind, Types, ValueKind};
use ex_tree::{BinaryOperator, IntervalOperator, UnaryOperator};
use plain_data::Failure;
use std::alloc::{AllocError, Global};

/// What an operator before its operand gives.
#[tactic(auto, unfolding(crate::specs::Operators::unary))]
pub fn unary(alloc: Global, types: &Types, operator: UnaryOperator, operand: &[ValueKind]) -> Ruling
    ensures { Gives (λ kinds. kinds) result (spec.unary types.now operator operand.now) }
{
    let possible = Operand::of(types, operand);
    match operator {
        UnaryOperator::Plus | UnaryOperator::Minus => signed(alloc, &possible),
        UnaryOperator::Not => logical_if(alloc, can_be_logical(&possible)),
    }
}

/// What an operator between two operands gives.
#[tactic(auto, unfolding(crate::specs::Operators::binary))]
pub fn binary(
    alloc: Global,
    types: &Types,
    operator: BinaryOperator,
    left: &[ValueKind],
    right: &[ValueKind],
) -> Ruling
    ensures { Gives (λ kinds. kinds) result (spec.binary types.now operator left.now right.now) }
{
    let left = Operand::of(types, left);
    let right = Operand::of(types, right);
    binary_by(alloc, operator, &left, &right)
}

/// Each of the two comparisons of an interval.
pub fn comparison(operator: IntervalOperator) -> BinaryOperator
    ensures { result ≡ spec.comparison operator }
{
    match operator {
        IntervalOperator::Less => BinaryOperator::Less,
        IntervalOperator::LessEqual => BinaryOperator::LessEqual,
    }
}

fn logical_if(alloc: Global, fine: bool) -> Ruling
    ensures { Gives (λ kinds. kinds) result (spec.or_else_fault fine OperandFault spec.logical) }
{
    or_else_fault(fine, TypeFaultKind::Operand, logical(alloc)?)
}

/// `=` and `<>` compare no instances of entities.
fn equality(alloc: Global, left: &Operand<'_>, right: &Operand<'_>) -> Ruling
    requires { right.now.types ≡ left.now.types }
    ensures { Gives (λ kinds. kinds) result (spec.equality left.now.types left.now.plain right.now.plain left.now.possible right.now.possible) }
{
    if left.may_hold_instance() || right.may_hold_instance() {
        return Err(Failure::Fault(TypeFaultKind::EntityComparison));
    }
    logical_if(alloc, are_comparable(alloc, left, right)?)
}

fn binary_by(
    alloc: Global,
    operator: BinaryOperator,
    left: &Operand<'_>,
    right: &Operand<'_>,
) -> Ruling
    requires { right.now.types ≡ left.now.types }
    ensures { Gives (λ kinds. kinds) result (spec.binary_by left.now.types operator left.now.plain right.now.plain left.now.possible right.now.possible) }
{
    let (first, second) = (left, right);
    match operator {
        BinaryOperator::Power | BinaryOperator::Div | BinaryOperator::Mod => {
            whole(alloc, first, second)
        }
        BinaryOperator::Multiply => product(alloc, left, second),
        BinaryOperator::Divide => Err(Failure::Fault(TypeFaultKind::RealArithmetic)),
        BinaryOperator::Add => sum(alloc, left, right),
        BinaryOperator::Subtract => difference(alloc, left, second),
        BinaryOperator::And | BinaryOperator::Or | BinaryOperator::Xor => {
            logical_if(alloc, are_logicals(first, second))
        }
        BinaryOperator::Less | BinaryOperator::Greater => {
            logical_if(alloc, are_ordered(alloc, first, second)?)
        }
        BinaryOperator::LessEqual | BinaryOperator::GreaterEqual => {
            logical_if(alloc, are_comparable(alloc, first, second)?)
        }
        BinaryOperator::NotEqual | BinaryOperator::Equal => equality(alloc, left, right),
        BinaryOperator::InstanceNotEqual | BinaryOperator::InstanceEqual => Ok(logical(alloc)?),
        BinaryOperator::In => logical_if(alloc, can_be_aggregate(second)),
    }
}

/// What an operator gives whatever stands beside it: a comparison is LOGICAL even where it is refused.
pub fn binary_anyway(alloc: Global, operator: BinaryOperator) -> Result<Kinds, AllocError>
    ensures { IfOk result (λ kinds. kinds ≡ spec.binary_anyway operator) }
{
    match operator {
        BinaryOperator::Power
        | BinaryOperator::Multiply
        | BinaryOperator::Divide
        | BinaryOperator::Div
        | BinaryOperator::Mod
        | BinaryOperator::Add
        | BinaryOperator::Subtract => Ok(Kinds::new(alloc)),
        _ => logical(alloc),
    }
}

/// What an operator on one operand gives whatever that is.
pub fn unary_anyway(alloc: Global, operator: UnaryOperator) -> Result<Kinds, AllocError>
    ensures { IfOk result (λ kinds. kinds ≡ spec.unary_anyway operator) }
{
    match operator {
        UnaryOperator::Not => logical(alloc),
        UnaryOperator::Plus | UnaryOperator::Minus => Ok(Kinds::new(alloc)),
    }
}
