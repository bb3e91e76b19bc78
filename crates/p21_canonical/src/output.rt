//! The text that is written.

ghost use Rattle.std.specs.Prelude.{◌≡◌, ◌<◌, ◌++◌, ◌∷◌, [], OnOk, IfOk};
ghost use Rattle.p21_escapes.specs.Encoding.{encoded};

use p21_strings::encode_string;
use plain_data::Text;
use std::alloc::{AllocError, Global};
use std::marker::Model;

/// A text to which pieces are appended, in UTF-8 at all times, so that it becomes a `Text` as it stands.
#[derive(Drop)]
pub struct Output {
    bytes: Vec<u8>,
}

impl Model for Output {
    ghost use Rattle.std.specs.Prelude.{List, ℕ, IsUtf8};

    ghost Value = { List ℕ };

    ghost view = { λ o. o.bytes.items };

    ghost invariant = { λ o. IsUtf8 o.bytes.items };
}

impl Output {
    /// Nothing yet.
    #[tactic(auto, using(crate::proofs::Ascii::empty_utf8))]
    pub fn new(alloc: Global) -> Output
        ensures { result ≡ [] }
    {
        Output {
            bytes: Vec::new(alloc),
        }
    }

    /// Nothing yet, with room for so many bytes.
    #[tactic(auto, using(crate::proofs::Ascii::empty_utf8))]
    pub fn with_capacity(alloc: Global, capacity: usize) -> Result<Output, AllocError>
        ensures { IfOk result (λ out. out ≡ []) }
    {
        let bytes = Vec::with_capacity(alloc, capacity)?;
        Ok(Output { bytes })
    }

    /// Appends an ASCII character.
    pub fn push(&mut self, character: u8) -> Result<(), AllocError>
        requires { character < 128 }
        ensures { OnOk result (self.new ≡ self.old ++ character ∷ []) }
    {
        self.bytes.push(character)?;
        Ok(())
    }

    /// Appends a text as it is.
    pub fn push_str(&mut self, text: &str) -> Result<(), AllocError>
        ensures { OnOk result (self.new ≡ self.old ++ text.now) }
    {
        self.bytes.extend_from_slice(text.as_bytes())
    }

    /// Appends the spelling of a text, without the apostrophes around it.
    pub fn push_encoded(&mut self, text: &str) -> Result<(), AllocError>
        ensures { OnOk result (self.new ≡ self.old ++ encoded text.now) }
    {
        encode_string(&mut self.bytes, text)
    }

    /// The whole text, which is not moved in memory.
    pub fn into_text(self) -> Text
        ensures { result ≡ self }
    {
        let Output { bytes } = self;
        // It is UTF-8 by the invariant.
        Text::new(unsafe { String::from_utf8_unchecked(bytes) })
    }
}
