//! The characters that codes stand for.

ghost use Rattle.std.specs.Prelude.{◌≡◌, ◌<◌, ◌≤◌, ◌+◌, ◌*◌, ◌^◌, drop, MatchResult, Ok, Err};
ghost use Rattle.p21_escapes.specs.Decoding as spec;
ghost use Rattle.p21_escapes.specs.Forms.{told_character, told_unit, group};
ghost use Rattle.p21_escapes.specs.LineEnds.{four as first_four};

use crate::digits::value_of_four;
use crate::fault::StringFault;
use crate::kept_bytes::Kept;

pub fn character(code: u64) -> Result<char, StringFault>
    ensures { spec.character code ≡ told_character result }
{
    let Ok(code) = u32::try_from(code) else {
        return Err(StringFault::BadCode);
    };
    char::from_u32(code).ok_or(StringFault::BadCode)
}

/// What a group of four digits spells after a high surrogate or after none, and which high
/// surrogate waits then.
pub fn unit(high: Option<u32>, unit: u32) -> Result<(Option<char>, Option<u32>), StringFault>
    ensures { spec.unit high unit ≡ told_unit result }
{
    let code = match high {
        None => {
            if (0xD800..0xDC00).contains(&unit) {
                return Ok((None, Some(unit)));
            }
            u64::from(unit)
        }
        Some(high) => {
            if !(0xDC00..0xE000).contains(&unit) {
                return Err(StringFault::BadCode);
            }
            let above = u64::from(high.saturating_sub(0xD800)) * 1024;
            above + u64::from(unit - 0xDC00) + 65536
        }
    };
    Ok((Some(character(code)?), None))
}

/// The value of the group of four digits in front.
pub fn group(z: &Kept<'_>) -> u32
    ensures value { result ≡ group z.now }
    ensures small { result < 2 ^ 21 }
{
    let [a, b, c, d] = z.four();
    value_of_four(a, b, c, d)
}

/// The value of the group of eight digits in front.
pub fn long_group(z: &Kept<'_>) -> u64
    ensures { result ≡ group z.now * 65536 + group (drop 4 z.now) }
{
    u64::from(group(z)) * 65536 + u64::from(group(&z.after(4)))
}

/// The text that the first bytes, one to four, are in UTF-8. It stands in `four`, the first four.
pub fn raw<'a>(z: &Kept<'_>, n: usize, four: &'a [u8; 4]) -> Result<&'a str, StringFault>
    requires n { (1 ≤ n) × (n ≤ 4) }
    requires four { four.now ≡ first_four z.now }
    ensures { MatchResult result (λ text. spec.raw n z.now ≡ Ok (n, text.now)) (λ fault. spec.raw n z.now ≡ Err fault) }
{
    if z.after(n - 1).is_empty() {
        return Err(StringFault::NotUtf8);
    }
    match str::from_utf8(&four[..n]) {
        Ok(text) => Ok(text),
        Err(_) => Err(StringFault::NotUtf8),
    }
}
