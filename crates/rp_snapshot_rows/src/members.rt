//! Members of objects, in the order in which they are written.
#![tactic(auto, unfolding(crate::specs::Reading::text_at, crate::specs::Reading::whole_at, crate::specs::Reading::list_at, crate::specs::Reading::first_list_at))]

ghost use Rattle.std.specs.Prelude.{◌<◌, length, OnOk};
ghost use Rattle.rp_snapshot_rows.specs.Reading as spec;
ghost use Rattle.rp_snapshot_rows.specs.Reading.{Gives, Passes};

use crate::lack::Lack;
use crate::tokens::{begin_array, begin_object, key, number, string};
use json::Reader;
use plain_data::Failure;

/// The text of this name.
pub(crate) fn text<'a>(reader: &mut Reader<'a>, name: &str) -> Result<&'a str, Failure<Lack>>
    ensures read { Gives (λ s. s.now) result reader.new (spec.text_at name.now reader.old) }
    ensures shorter { OnOk result (length reader.new < length reader.old) }
{
    key(reader, name)?;
    string(reader)
}

/// The number of this name.
pub(crate) fn whole(reader: &mut Reader<'_>, name: &str) -> Result<u64, Failure<Lack>>
    ensures read { Gives (λ n. n) result reader.new (spec.whole_at name.now reader.old) }
    ensures shorter { OnOk result (length reader.new < length reader.old) }
{
    key(reader, name)?;
    number(reader)
}

/// A number and a text, of these names.
#[tactic(auto, unfolding(crate::specs::Reading::numbered_at))]
pub(crate) fn numbered<'a>(
    reader: &mut Reader<'a>,
    number: &str,
    name: &str,
) -> Result<(u64, &'a str), Failure<Lack>>
    ensures read { Gives (λ p. (p.0, p.1.now)) result reader.new (spec.numbered_at number.now name.now reader.old) }
    ensures shorter { OnOk result (length reader.new < length reader.old) }
{
    let number = whole(reader, number)?;
    let text = text(reader, name)?;
    Ok((number, text))
}

/// The bracket that opens the list of this name.
pub(crate) fn list_at(reader: &mut Reader<'_>, name: &str) -> Result<(), Failure<Lack>>
    ensures read { Passes result reader.new (spec.list_at name.now reader.old) }
    ensures shorter { OnOk result (length reader.new < length reader.old) }
{
    key(reader, name)?;
    begin_array(reader)
}

/// The brace of an object, and the bracket that opens its first list, which is of this name.
pub(crate) fn first_list_at(reader: &mut Reader<'_>, name: &str) -> Result<(), Failure<Lack>>
    ensures read { Passes result reader.new (spec.first_list_at name.now reader.old) }
    ensures shorter { OnOk result (length reader.new < length reader.old) }
{
    begin_object(reader)?;
    list_at(reader, name)
}
