//! Faults of types.

ghost use Rattle.std.specs.Prelude.{◌≡◌, ◌||◌, ◌&&◌, ◌==◌, nat_lt};
ghost use Rattle.ex_kinds.specs.Faults as spec;

/// What is wrong with an expression or a statement. Of two that lie at one offset the one that stands first here is told.
#[derive(Clone, Copy, PartialEq, Eq)]
pub enum TypeFaultKind {
    /// `/`, or an arithmetic operator with an operand that may be REAL.
    RealArithmetic,
    /// `=`, `<>`, CASE or VALUE_IN over what may hold an instance of an entity.
    EntityComparison,
    /// No possible kind of an operand fits the operator.
    Operand,
    /// The number of arguments is another, or no possible kind of one fits.
    Arguments,
    /// No possible kind of a value fits what it is given to.
    Assign,
    /// Nothing of the kind can be taken of the value.
    Qualifier,
    /// A name that means two things.
    Ambiguous,
}

/// The fault of least offset among a schema's types, and its first byte, from 0.
#[derive(Clone, Copy, PartialEq, Eq)]
pub struct TypeFault {
    pub kind: TypeFaultKind,
    pub at: usize,
}

/// The order of faults at one offset.
fn rank(kind: TypeFaultKind) -> usize
    ensures { result ≡ spec.rank kind }
{
    match kind {
        TypeFaultKind::RealArithmetic => 0,
        TypeFaultKind::EntityComparison => 1,
        TypeFaultKind::Operand => 2,
        TypeFaultKind::Arguments => 3,
        TypeFaultKind::Assign => 4,
        TypeFaultKind::Qualifier => 5,
        TypeFaultKind::Ambiguous => 6,
    }
}

/// Whether the first is told rather than the second.
fn precedes(first: TypeFault, second: TypeFault) -> bool
    ensures { result ≡ spec.precedes first second }
{
    first.at < second.at || (first.at == second.at && rank(first.kind) < rank(second.kind))
}

/// Of two parts the fault that is told.
pub fn either(first: Option<TypeFault>, second: Option<TypeFault>) -> Option<TypeFault>
    ensures { result ≡ spec.either first second }
{
    match (first, second) {
        (Some(first), Some(second)) if precedes(second, first) => Some(second),
        (None, second) => second,
        (first, _) => first,
    }
}

/// A fault that is there.
pub fn fault_at(kind: TypeFaultKind, at: usize) -> Option<TypeFault>
    ensures { result ≡ spec.fault_at kind at }
{
    Some(TypeFault { kind, at })
}
