//! One token at a time.

ghost use Rattle.std.specs.Prelude.{◌≡◌, ◌<◌, length, OnOk};
ghost use Rattle.rp_snapshot_rows.specs.Reading as spec;
ghost use Rattle.rp_snapshot_rows.specs.Reading.{Gives, Passes};

use crate::lack::Lack;
use fast_float::Numeral;
use json::{Reader, Token};
use plain_data::Failure;

pub(crate) fn begin_object(reader: &mut Reader<'_>) -> Result<(), Failure<Lack>>
    ensures read { Passes result reader.new (spec.after_begin_object reader.old) }
    ensures shorter { OnOk result (length reader.new < length reader.old) }
{
    match reader.next() {
        Some(Token::BeginObject) => Ok(()),
        _ => Err(Failure::Fault(Lack::Form)),
    }
}

pub(crate) fn end_object(reader: &mut Reader<'_>) -> Result<(), Failure<Lack>>
    ensures read { Passes result reader.new (spec.after_end_object reader.old) }
    ensures shorter { OnOk result (length reader.new < length reader.old) }
{
    match reader.next() {
        Some(Token::EndObject) => Ok(()),
        _ => Err(Failure::Fault(Lack::Form)),
    }
}

pub(crate) fn begin_array(reader: &mut Reader<'_>) -> Result<(), Failure<Lack>>
    ensures read { Passes result reader.new (spec.after_begin_array reader.old) }
    ensures shorter { OnOk result (length reader.new < length reader.old) }
{
    match reader.next() {
        Some(Token::BeginArray) => Ok(()),
        _ => Err(Failure::Fault(Lack::Form)),
    }
}

pub(crate) fn end_array(reader: &mut Reader<'_>) -> Result<(), Failure<Lack>>
    ensures read { Passes result reader.new (spec.after_end_array reader.old) }
    ensures shorter { OnOk result (length reader.new < length reader.old) }
{
    match reader.next() {
        Some(Token::EndArray) => Ok(()),
        _ => Err(Failure::Fault(Lack::Form)),
    }
}

pub(crate) fn key(reader: &mut Reader<'_>, name: &str) -> Result<(), Failure<Lack>>
    ensures read { Passes result reader.new (spec.after_key name.now reader.old) }
    ensures shorter { OnOk result (length reader.new < length reader.old) }
{
    match reader.next() {
        Some(Token::Key(found)) if found == name => Ok(()),
        _ => Err(Failure::Fault(Lack::Form)),
    }
}

pub(crate) fn string<'a>(reader: &mut Reader<'a>) -> Result<&'a str, Failure<Lack>>
    ensures read { Gives (λ s. s.now) result reader.new (spec.string_at reader.old) }
    ensures shorter { OnOk result (length reader.new < length reader.old) }
{
    match reader.next() {
        Some(Token::String(found)) => Ok(found),
        _ => Err(Failure::Fault(Lack::Form)),
    }
}

fn whole_of(text: &str) -> Option<u64>
    ensures { result ≡ spec.whole_of text.now }
{
    Numeral::scan(text.as_bytes()).to_u64()
}

/// A whole number of 64 bits.
pub(crate) fn number(reader: &mut Reader<'_>) -> Result<u64, Failure<Lack>>
    ensures read { Gives (λ n. n) result reader.new (spec.number_at reader.old) }
    ensures shorter { OnOk result (length reader.new < length reader.old) }
{
    match reader.next() {
        Some(Token::Number(text)) => whole_of(text).ok_or(Failure::Fault(Lack::Form)),
        _ => Err(Failure::Fault(Lack::Form)),
    }
}
