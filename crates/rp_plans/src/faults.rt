//! The tests that several requests have.

ghost use Rattle.std.specs.Prelude.{◌≡◌};
ghost use Rattle.rp_plain.specs.Meaning as meaning;
ghost use Rattle.rp_plain.specs.Meaning.{first_some};
ghost use Rattle.rp_plain.specs.Files as of_files;
ghost use Rattle.rp_readers.specs.Told.{told};

use plain_data::Text;
use rp_io::FILE_LIMIT;
use rp_plain::messages::Refusal;
use rp_readers::Readers;
use rp_rows::names::is_valid_name;
use rp_rows::rows::{Key, Right};
use rp_sight::at_least;

/// The first refusal, if any test gives one.
pub fn first(tests: &[Option<Refusal>]) -> Option<Refusal>
    ensures { result ≡ first_some tests.now }
{
    for test in tests {
        if test.is_some() {
            return *test;
        }
    }
    None
}

/// The refusal, where the test holds.
pub fn when(test: bool, refusal: Refusal) -> Option<Refusal>
    ensures { result ≡ meaning.when test refusal }
{
    if test { Some(refusal) } else { None }
}

/// Of a file or a text over the limit.
pub fn too_large(text: &Text) -> Option<Refusal>
    ensures { result ≡ of_files.too_large text.now }
{
    when(text.as_bytes().len() > FILE_LIMIT, Refusal::TooLarge)
}

/// Of a text that is no name.
pub fn name_fault(name: &Text) -> Option<Refusal>
    ensures { result ≡ meaning.name_fault name.now }
{
    when(!is_valid_name(name), Refusal::BadName)
}

/// Of two texts of which one is no name.
pub fn names_fault(one: &Text, other: &Text) -> Option<Refusal>
    ensures { result ≡ meaning.names_fault one.now other.now }
{
    let valid = is_valid_name(one) && is_valid_name(other);
    when(!valid, Refusal::BadName)
}

/// Of a key whose owner or name is no name.
pub fn key_fault(key: &Key) -> Option<Refusal>
    ensures { result ≡ meaning.key_fault key.now }
{
    names_fault(&key.owner, &key.name)
}

/// Of the name of no partner.
pub fn is_no_partner(asked: &Readers<'_, '_>, name: &Text) -> Option<Refusal>
    ensures { result ≡ meaning.is_no_partner (told asked.now) name.now }
{
    when(!asked.has_partner(name), Refusal::UnknownPartner)
}

/// Of what isn't seen.
pub fn unseen(right: Right) -> Option<Refusal>
    ensures { result ≡ meaning.unseen right }
{
    when(!at_least(Right::Reads, right), Refusal::NoSuchItem)
}

/// Of what isn't seen, or is seen with too low a level.
pub fn lacks(needed: Right, right: Right) -> Option<Refusal>
    ensures { result ≡ meaning.lacks needed right }
{
    if at_least(Right::Reads, right) {
        when(!at_least(needed, right), Refusal::NoRight)
    } else {
        Some(Refusal::NoSuchItem)
    }
}
