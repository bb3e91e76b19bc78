//! How canonical text writes a text.

ghost use Rattle.std.specs.Prelude.{◌≡◌, ◌++◌, OnOk, OnErr};
ghost use Rattle.std.specs.List.{list_all};
ghost use Rattle.p21_escapes.specs.Encoding as spec;

use p21_escapes::push_all;
use std::alloc::AllocError;

/// Whether a text is ASCII, and written as it is.
fn are_themselves(text: &[u8]) -> bool
    ensures { result ≡ list_all spec.is_itself text.now }
{
    text.iter().all(|b| (b' '..=b'~').contains(b) && *b != b'\'' && *b != b'\\')
}

/// Appends the one spelling that canonical text has for a text, without the apostrophes around it.
///
/// # Errors
///
/// Want of memory. `out` then holds what it held before.
pub fn encode_string(out: &mut Vec<u8>, text: &str) -> Result<(), AllocError>
    ensures ok { OnOk result (out.new.items ≡ out.old.items ++ spec.encoded text.now) }
    ensures err { OnErr result (out.new.items ≡ out.old.items) }
{
    if are_themselves(text.as_bytes()) {
        return out.extend_from_slice(text.as_bytes());
    }
    let len = out.len();
    match push_all(out, text) {
        Ok(()) => Ok(()),
        Err(e) => {
            out.truncate(len);
            Err(e)
        }
    }
}
