//! What a type takes of a value, it takes again from the value's canonical text.

ghost use Rattle.std.specs.Prelude.{◌≡◌, ◌≤◌, ℕ, true, List, Some, Ok};
ghost use Rattle.ex_named.specs.declared.declaration.NamedSchema.{NamedSchema};
ghost use Rattle.ex_named.specs.declared.declaration.NamedType.{NamedType};
ghost use Rattle.ex_named.specs.declared.expression.NamedDataType.{NamedDataType};
ghost use Rattle.ex_resolve.specs.Proved.{DeclaresOnce, HasIdentifiers, held_types};
ghost use Rattle.graphs.specs.Graphs.{IsAcyclic};
ghost use Rattle.p21_laws.specs.Types.{AreTypes};
ghost use Rattle.p21_grammar.specs.Grammar.{value_at};
ghost use Rattle.p21_spelling.specs.Again.{ReadsAgain};
ghost use Rattle.p21_spelling.specs.Values.{spelling, text_of};
ghost use Rattle.p21_lexemes.specs.Tokens.{Lexemes, lexemes};
ghost use Rattle.p21_tree.specs.declared.value.Value as tree;
ghost use Rattle.p21_values.specs.Taking.{bound};
ghost use Rattle.p21_canonical.specs.Trees.{value_tree};
ghost use Rattle.rp_value.specs.declared.value.Value.{Value};

/// What a type took of a value of a file, it takes again from the tree that canonical text has for
/// it. This tree nests no deeper than the file's value did, and it is well spelled where that was.
#[tactic(auto, using(crate::proofs::Taken::taken))]
pub fn taken_again()
    ensures again { (types : List NamedType) → AreTypes types → (d : NamedDataType) (x : tree.Value) (w : Value) → bound types d x ≡ Some w → bound types d (value_tree types w) ≡ Some w }
    ensures levels { (types : List NamedType) → AreTypes types → (d : NamedDataType) (x : tree.Value) (w : Value) → bound types d x ≡ Some w → (spelling (value_tree types w)).levels ≤ (spelling x).levels }
    ensures spelled { (types : List NamedType) → AreTypes types → (d : NamedDataType) (x : tree.Value) (w : Value) → bound types d x ≡ Some w → (spelling x).is_spelled ≡ true → (spelling (value_tree types w)).is_spelled ≡ true }
{}

/// Where a file's value was read and taken, its canonical text is read in its place, as the tree from
/// which the same is taken.
#[tactic(auto, using(crate::proofs::Read::text_again))]
pub fn read_again()
    ensures { (types : List NamedType) → AreTypes types → (d : NamedDataType) (x : tree.Value) (w : Value) (n at : ℕ) (file : List ℕ) (after : Lexemes) → value_at n (lexemes at file) ≡ Ok (x, after) → bound types d x ≡ Some w → ReadsAgain (value_at n) (text_of (value_tree types w)) (value_tree types w) }
{}

/// The types of a schema whose names are bound are such types: its premises are what is proved of each.
pub fn accepted_types()
    ensures { (s : NamedSchema) → DeclaresOnce s → IsAcyclic (held_types s.types) → HasIdentifiers s → AreTypes s.types }
{}
