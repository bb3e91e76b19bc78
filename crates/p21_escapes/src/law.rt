//! What is written of a text is read as this text.

ghost use Rattle.std.specs.Prelude.{◌≡◌, ℕ, List, false, true, Ok, IsUtf8};
ghost use Rattle.p21_escapes.specs.Decoding.{decoded};
ghost use Rattle.p21_escapes.specs.Encoding.{encoded, is_paired};

/// The spelling that canonical text has for a text spells this text, and may stand between
/// apostrophes.
#[tactic(auto, using(crate::proofs::Escapes::string_laws))]
pub fn read_string_again()
    ensures text { (text : List ℕ) → IsUtf8 text → decoded (encoded text) ≡ Ok text }
    ensures quoted { (text : List ℕ) → is_paired false (encoded text) ≡ true }
{}
