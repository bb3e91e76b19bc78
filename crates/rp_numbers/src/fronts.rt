//! How many bytes in front of a text are of a number.

ghost use Rattle.std.specs.Prelude.{◌≡◌, ◌≢◌, ◌<◌, ◌≤◌, length, take, slice_index, true};
ghost use Rattle.std.specs.List.{list_all};
ghost use Rattle.std.specs.Char.{is_ascii_digit};
ghost use Rattle.rp_numbers.specs.Spelling as spec;

fn byte(text: &[u8], at: usize) -> u8
    ensures value { result ≡ slice_index text.now at }
    ensures within { result ≢ 0 → at < length text.now }
{
    if at < text.len() { text[at] } else { 0 }
}

/// 1 where a sign stands in front, or else 0.
pub fn sign_len(text: &[u8]) -> usize
    ensures value { result ≡ spec.sign_len text.now }
    ensures within { result ≤ length text.now }
{
    let b = byte(text, 0);
    if b == b'+' || b == b'-' { 1 } else { 0 }
}

fn count_digits(text: &[u8]) -> usize
    ensures value { result ≡ spec.digits_len text.now }
    ensures some { is_ascii_digit (slice_index text.now 0) ≡ true → 0 < result }
    ensures within { result ≤ length text.now }
{
    text.iter().take_while(|b| b.is_ascii_digit()).count()
}

/// How many digits stand in front.
#[tactic(auto, using(crate::proofs::Digits::digits_in_front))]
pub fn digits_len(text: &[u8]) -> usize
    ensures value { result ≡ spec.digits_len text.now }
    ensures digits { list_all is_ascii_digit (take result text.now) ≡ true }
    ensures some { is_ascii_digit (slice_index text.now 0) ≡ true → 0 < result }
    ensures within { result ≤ length text.now }
{
    count_digits(text)
}

/// How many bytes an exponent takes that stands in front: an `E`, a sign or none, and digits. It is 0 where none does.
pub fn exponent_len(text: &[u8]) -> usize
    ensures value { result ≡ spec.exponent_len text.now }
    ensures within { result ≤ length text.now }
{
    let e = byte(text, 0);
    if e != b'E' && e != b'e' {
        return 0;
    }
    let sign = sign_len(&text[1..]);
    let digits = digits_len(&text[1 + sign..]);
    if digits > 0 { 1 + sign + digits } else { 0 }
}
