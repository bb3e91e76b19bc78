//! CASE, which compares its selector with each label.

ghost use Rattle.std.specs.Prelude.{◌≡◌, not, IfOk};
ghost use Rattle.std.specs.List.{list_any};
ghost use Rattle.ex_kinds.specs.Types.{may_hold_instance};
ghost use Rattle.ex_operators.specs.Fitting.{are_comparable, possibly};
ghost use Rattle.ex_operators.specs.Operators as spec;

use crate::operand::Operand;
use crate::possibilities::are_comparable;
use ex_kinds::{Kinds, TypeFaultKind, Types, ValueKind};
use std::alloc::{AllocError, Global};

/// What is wrong with a CASE of this selector and these labels.
#[tactic(auto, unfolding(crate::specs::Operators::case_fault))]
pub fn case_fault(
    alloc: Global,
    types: &Types,
    selector: &[ValueKind],
    labels: &[Kinds],
) -> Result<Option<TypeFaultKind>, AllocError>
    ensures { IfOk result (λ f. f ≡ spec.case_fault types.now selector.now labels.now) }
{
    if types.may_hold_instance(selector) || may_any_hold_instance(types, labels) {
        return Ok(Some(TypeFaultKind::EntityComparison));
    }
    let selector = Operand::of(types, selector);
    if is_any_beside(alloc, types, &selector, labels)? {
        return Ok(Some(TypeFaultKind::Operand));
    }
    Ok(None)
}

fn may_any_hold_instance(types: &Types, labels: &[Kinds]) -> bool
    ensures { result ≡ list_any (may_hold_instance types.now) labels.now }
{
    labels
        .iter()
        .any(|label| types.may_hold_instance(label.as_slice()))
}

/// Whether one of these is not comparable with the selector.
fn is_any_beside(
    alloc: Global,
    types: &Types,
    selector: &Operand<'_>,
    labels: &[Kinds],
) -> Result<bool, AllocError>
    ensures { IfOk result (λ b. b ≡ list_any (λ label. not (are_comparable selector.now.possible (possibly types.now label))) labels.now) }
{
    for label in labels {
        let label = Operand::of(types, label.as_slice());
        if !are_comparable(alloc, selector, &label)? {
            return Ok(true);
        }
    }
    Ok(false)
}
