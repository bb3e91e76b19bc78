//! Versions of snapshots.

ghost use Rattle.std.specs.Prelude.{◌≡◌, ℕ, List, IfOk};
ghost use Rattle.rp_rows.specs.declared.rows.ModelContent.{ModelContent as Held};
ghost use Rattle.rp_snapshot_texts.specs.Texts.{first_line};

use plain_data::Text;
use rp_rows::rows::ModelContent;
use std::alloc::{AllocError, Global};

/// What a version of snapshots writes: its number on the first line, and a file for the header and the instances that a
/// model holds.
pub trait Version {
    ghost number: { Self → ℕ };

    ghost writes: { Self → Held → List ℕ };

    fn first_line(&self) -> &'static [u8]
        ensures { result.now ≡ first_line (number self.now) };

    /// The file of what a model holds.
    fn file(&self, alloc: Global, model: &ModelContent) -> Result<Text, AllocError>
        ensures { IfOk result (λ text. text ≡ writes self.now model.now) };
}
