//! What is read of the text of rows.

ghost use Rattle.std.specs.Prelude.{◌≡◌, ℕ, List};
ghost use Rattle.std.specs.List.{AllByRecursion};
ghost use Rattle.std.specs.Str.{IsUtf8};
ghost use Rattle.json.specs.Lex.{tokens};
ghost use Rattle.serde_json.specs.Written.{compact_text};
ghost use Rattle.rp_rows.specs.declared.rows.ModelContent.{ModelContent as Held};
ghost use Rattle.rp_rows.specs.Rows.{Model as SpecModel, GroupRow as SpecGroup};
ghost use Rattle.rp_snapshot_texts.specs.Texts.{rows_data};
ghost use Rattle.rp_snapshot_texts.specs.Again.{IsTextGroup, IsTextModel, rows_tokens};

/// The text of rows whose texts are texts, behind its first line, is a text, and its tokens are those of its rows.
pub fn rows_again()
    ensures text { (file : Held → List ℕ) (groups : List SpecGroup) (models : List SpecModel) → AllByRecursion IsTextGroup groups → AllByRecursion (IsTextModel file) models → IsUtf8 (compact_text (rows_data file groups models)) }
    ensures read { (file : Held → List ℕ) (groups : List SpecGroup) (models : List SpecModel) → AllByRecursion IsTextGroup groups → AllByRecursion (IsTextModel file) models → tokens (compact_text (rows_data file groups models)) ≡ rows_tokens file groups models }
{}
