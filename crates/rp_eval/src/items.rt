//! What instructions begin with.

ghost use Rattle.std.specs.Prelude.{◌≡◌, [], ◌∷◌, None, IfSome};
ghost use Rattle.rp_eval.specs.Parts.{HasFirst, HasNone};

use rp_code::{Instruction, behind};

/// The first instruction, and those after it.
#[inline(always)]
pub(crate) fn split(code: &[Instruction]) -> Option<(&Instruction, &[Instruction])>
    ensures first { IfSome result (λ p. code.now ≡ p.0.now ∷ p.1.now) }
    ensures none { result ≡ None → code.now ≡ [] }
{
    match code {
        [first, rest @ ..] => Some((first, rest)),
        [] => None,
    }
}

/// The first element of a list of expressions or of statements, and the list of the next ones.
#[inline(always)]
pub(crate) fn first_item(list: &[Instruction]) -> Option<(&[Instruction], &[Instruction])>
    ensures first { IfSome result (λ p. HasFirst list.now p.0.now p.1.now) }
    ensures none { result ≡ None → HasNone list.now }
{
    match list {
        [Instruction::Item(next), first @ ..] => Some((first, behind(first, *next))),
        _ => None,
    }
}
