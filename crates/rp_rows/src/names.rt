//! Names of partners, models and groups.

ghost use Rattle.std.specs.Prelude.{◌≡◌};
ghost use Rattle.std.specs.List.{list_all};
ghost use Rattle.rp_rows.specs.Names.{is_name, is_byte_of_name};

use plain_data::Text;

fn is_name_byte(byte: u8) -> bool
    ensures { result ≡ is_byte_of_name byte }
{
    byte.is_ascii_alphanumeric() || byte == b'_' || byte == b'.' || byte == b'-'
}

fn has_name_bytes(bytes: &[u8]) -> bool
    ensures { result ≡ list_all is_byte_of_name bytes.now }
{
    bytes.iter().all(|byte| is_name_byte(*byte))
}

fn is_text_of_name(bytes: &[u8]) -> bool
    ensures { result ≡ is_name bytes.now }
{
    1 <= bytes.len() && bytes.len() <= 64 && has_name_bytes(bytes)
}

/// Whether the text is 1 to 64 letters, digits, underscores, full stops and hyphens.
pub fn is_valid_name(text: &Text) -> bool
    ensures { result ≡ is_name text.now }
{
    is_text_of_name(text.as_bytes())
}
