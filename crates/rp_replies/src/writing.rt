//! Members of JSON objects, written one after another.

ghost use Rattle.std.specs.Prelude.{◌≡◌, [], ◌∷◌, ◌++◌, OnOk};
ghost use Rattle.json.specs.Token.{begin_object, end_object, boolean as boolean_token, key as key_token};
ghost use Rattle.rp_replies.specs.Replies.{place_data};
ghost use Rattle.rp_json.specs.Tokens.{tokens_of};

use json::Writer;
use rp_json::{number_at, string_at};
use std::alloc::AllocError;

/// The beginning of an object whose one member is an object.
pub(crate) fn open(out: &mut Writer, key: &str) -> Result<(), AllocError>
    ensures ok { OnOk result (out.new.tokens ≡ out.old.tokens ++ begin_object ∷ key_token key.now ∷ begin_object ∷ []) }
    ensures before { out.new.before ≡ out.old.before }
{
    out.begin_object()?;
    out.key(key)?;
    out.begin_object()
}

/// The end of two objects.
pub(crate) fn close(out: &mut Writer) -> Result<(), AllocError>
    ensures ok { OnOk result (out.new.tokens ≡ out.old.tokens ++ end_object ∷ end_object ∷ []) }
    ensures before { out.new.before ≡ out.old.before }
{
    out.end_object()?;
    out.end_object()
}

pub(crate) fn boolean_at(out: &mut Writer, key: &str, truth: bool) -> Result<(), AllocError>
    ensures ok { OnOk result (out.new.tokens ≡ out.old.tokens ++ key_token key.now ∷ boolean_token truth ∷ []) }
    ensures before { out.new.before ≡ out.old.before }
{
    out.key(key)?;
    out.boolean(truth)
}

/// An object with a place in a text, and of which kind it is.
pub(crate) fn place_of_kind(out: &mut Writer, at: usize, kind: &str) -> Result<(), AllocError>
    ensures ok { OnOk result (out.new.tokens ≡ out.old.tokens ++ tokens_of (place_data at kind.now)) }
    ensures before { out.new.before ≡ out.old.before }
{
    out.begin_object()?;
    number_at(out, "at", at as u64)?;
    string_at(out, "kind", kind)?;
    out.end_object()
}
