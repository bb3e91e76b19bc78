//! The labels of a CASE.

ghost use Rattle.std.specs.Prelude.{◌≡◌, ◌++◌, OnOk, IfOk};
ghost use Rattle.ex_typing_statements.specs.Statements as spec;

use ex_kinds::{Kinds, TypeFault, TypeFaultKind, fault_at};
use plain_data::Rows;
use std::alloc::AllocError;

/// What the labels of a CASE may be, and the fault that is told of its actions.
pub(crate) type Actions = (Rows<Kinds>, Option<TypeFault>);

/// Puts these labels behind the others.
pub(crate) fn append(labels: &mut Rows<Kinds>, more: Rows<Kinds>) -> Result<(), AllocError>
    ensures { OnOk result (labels.new ≡ labels.old ++ more) }
{
    for kinds in more.into_vec() {
        labels.push(kinds)?;
    }
    Ok(())
}

/// The fault of this kind, if there is one, which lies there.
pub(crate) fn fault_by(kind: Option<TypeFaultKind>, at: usize) -> Option<TypeFault>
    ensures { result ≡ spec.fault_by kind at }
{
    fault_at(kind?, at)
}
