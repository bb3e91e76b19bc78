//! Members of JSON objects, written one after another.

ghost use Rattle.std.specs.Prelude.{◌≡◌, [], ◌∷◌, ◌++◌, OnOk, decimal};
ghost use Rattle.json.specs.Token.{key as key_token, number as number_token, string as string_token};

use json::Writer;
use std::alloc::AllocError;

/// A key, and a text.
///
/// # Errors
///
/// Want of memory.
pub fn string_at(out: &mut Writer, key: &str, text: &str) -> Result<(), AllocError>
    ensures ok { OnOk result (out.new.tokens ≡ out.old.tokens ++ key_token key.now ∷ string_token text.now ∷ []) }
    ensures before { out.new.before ≡ out.old.before }
{
    out.key(key)?;
    out.string(text)
}

/// A key, and a number.
///
/// # Errors
///
/// Want of memory.
pub fn number_at(out: &mut Writer, key: &str, n: u64) -> Result<(), AllocError>
    ensures ok { OnOk result (out.new.tokens ≡ out.old.tokens ++ key_token key.now ∷ number_token (decimal n) ∷ []) }
    ensures before { out.new.before ≡ out.old.before }
{
    out.key(key)?;
    out.u64(n)
}
