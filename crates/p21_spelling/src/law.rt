//! What is spelled is read again.

ghost use Rattle.std.specs.Prelude.{◌≡◌, ◌≤◌, ◌++◌, ℕ, ℤ, true, false, List, Ok, IsUtf8, FitsSigned};
ghost use mir.Syntax.{w64};
ghost use Rattle.std.specs.Fmt.{signed_decimal};
ghost use Rattle.std.specs.List.{list_all};
ghost use Rattle.p21_grammar.specs.Grammar.{instance, instances, value_at};
ghost use Rattle.p21_grammar.specs.File.{file_of};
ghost use Rattle.p21_read.specs.Single.{mapping_of};
ghost use Rattle.p21_lexemes.specs.Tokens.{Lexemes, lexemes, sees};
ghost use Rattle.p21_lexemes.specs.declared.token.TokenKind.TheVariants as k;
ghost use Rattle.p21_tree.specs.declared.instance.Instance.{Instance};
ghost use Rattle.p21_tree.specs.declared.instance.Mapping.{Mapping};
ghost use Rattle.p21_tree.specs.declared.raw.Raw.{Raw};
ghost use Rattle.p21_tree.specs.declared.value.Value.{Value};
ghost use Rattle.p21_escapes.specs.Encoding.{encoded};
ghost use Rattle.rp_numbers.specs.Decimals.{Decimal, IsNormal};
ghost use Rattle.rp_numbers.specs.Written.{written};
ghost use Rattle.p21_spelling.specs.Again.{ReadsAgain, ReadsAnywhere};
ghost use Rattle.p21_spelling.specs.Files.{file_text, is_file};
ghost use Rattle.p21_spelling.specs.Instances.{instance_text, is_instance, is_mapping, lines, mapping_text};
ghost use Rattle.p21_spelling.specs.Tokens.{is_integer, is_real, is_string};
ghost use Rattle.p21_spelling.specs.Values.{spelling};

/// A value that is well spelled and has no more levels than are left is read again from its spelling,
/// in front of any text that begins with a parenthesis, `,`, `;` or `=`.
#[tactic(auto, using(crate::proofs::Values::value_again))]
pub fn read_value_again()
    ensures { (v : Value) (n : ℕ) → (spelling v).is_spelled ≡ true → (spelling v).levels ≤ n → ReadsAgain (value_at n) (spelling v).text v }
{}

/// An instance that is well spelled is read again from its text, whatever follows it, and instances
/// from their lines in front of what is no instance.
#[tactic(auto, using(crate::proofs::Lines::instance_again, crate::proofs::Lines::lines_again))]
pub fn read_lines_again()
    ensures instance { (i : Instance) → is_instance i ≡ true → ReadsAnywhere instance (instance_text i) i }
    ensures lines { (is : List Instance) (at : ℕ) (rest : List ℕ) → list_all is_instance is ≡ true → ((at : ℕ) → sees k.Name (lexemes at rest) ≡ false) → (to : ℕ) × (instances (lexemes at (lines is ++ rest)) ≡ Ok (is, lexemes to rest)) }
{}

/// A mapping that is well spelled is read again by itself from its text, which is what stands between `=` and `;` in the
/// line of an instance; and what is read of a text by itself is well spelled, so that it stands in a file under any name.
#[tactic(auto, using(crate::proofs::Single::mapping_of_again, crate::proofs::Single::mapping_of_is))]
pub fn read_instance_again()
    ensures mapping { (m : Mapping) → is_mapping m ≡ true → mapping_of (mapping_text m) ≡ Ok m }
    ensures spelled { (m : Mapping) (text : List ℕ) → mapping_of text ≡ Ok m → is_mapping m ≡ true }
{}

/// A file that is well spelled is read again from its text.
#[tactic(auto, using(crate::proofs::Files::file_again))]
pub fn read_file_again()
    ensures { (raw : Raw) → is_file raw ≡ true → file_of (file_text raw) ≡ Ok raw }
{}

/// What is written of a text, of a decimal and of a whole number of 64 bits is well spelled.
#[tactic(auto, using(crate::proofs::Written::written_text, crate::proofs::Written::written_real, crate::proofs::Written::written_integer))]
pub fn tokens_are_spelled()
    ensures text { (text : List ℕ) → IsUtf8 text → is_string (encoded text) ≡ true }
    ensures real { (x : Decimal) → IsNormal x → is_real (written x) ≡ true }
    ensures integer { (z : ℤ) → FitsSigned w64 z → is_integer (signed_decimal z) ≡ true }
{}

/// What is read of a text is well spelled. So a tree is well spelled exactly where some text is read
/// as it.
#[tactic(auto, using(crate::proofs::WellSpelled::spelled))]
pub fn only_these_are_read()
    ensures spelled { (v : Value) (n at : ℕ) (text : List ℕ) (after : Lexemes) → value_at n (lexemes at text) ≡ Ok (v, after) → (spelling v).is_spelled ≡ true }
    ensures levels { (v : Value) (n at : ℕ) (text : List ℕ) (after : Lexemes) → value_at n (lexemes at text) ≡ Ok (v, after) → (spelling v).levels ≤ n }
    ensures instance { (i : Instance) (at : ℕ) (text : List ℕ) (after : Lexemes) → instance (lexemes at text) ≡ Ok (i, after) → is_instance i ≡ true }
    ensures file { (raw : Raw) (text : List ℕ) → file_of text ≡ Ok raw → is_file raw ≡ true }
{}
