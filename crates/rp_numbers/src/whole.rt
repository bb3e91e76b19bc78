//! Whole numbers as they are spelled.

ghost use Rattle.std.specs.Prelude.{◌≡◌, ◌≢◌, ◌<◌, ◌≤◌, ◌*◌, ◌%◌, ◌^◌, nat_le, if◌then◌else◌, Some, None, IfSome};
ghost use Rattle.std.specs.List.{list_all};
ghost use Rattle.std.specs.Char.{is_ascii_digit};
ghost use Rattle.rp_numbers.specs.Whole as spec;

const MAX_WHOLE: u128 = 9_223_372_036_854_775_807;

/// The greatest number that 64 bits hold with one digit more, whatever byte stands for it.
const MAX_SHORT: u64 = 1_844_674_407_370_955_140;

/// The number that `digits` write after those that write `start`, or nothing where 64 bits may be too few for it.
#[inline(always)]
fn short_after(start: u64, digits: &[u8]) -> Option<u64>
    ensures { IfSome result (λ n. n ≡ spec.value_after start digits.now) }
{
    let mut value = start;
    'digits: for digit in digits {
        if value > MAX_SHORT {
            return None;
        }
        value = 10 * value + u64::from(*digit).saturating_sub(u64::from(b'0'));
    }
    Some(value)
}

/// The number that `digits` write after those that write `start`, where it is at most `most`, whatever it takes.
#[inline(never)]
fn long_after(start: u128, digits: &[u8], most: u128) -> Option<u128>
    ensures { result ≡ (if nat_le (spec.value_after start digits.now) most then Some (spec.value_after start digits.now) else None) }
{
    let mut value = start;
    'digits: for digit in digits {
        let Some(tens) = value.checked_mul(10) else {
            return None;
        };
        let Some(next) = tens.checked_add(u128::from(digit.saturating_sub(b'0'))) else {
            return None;
        };
        value = next;
    }
    if value <= most { Some(value) } else { None }
}

/// The number that `digits` write after those that write `start`, where it is at most `most`.
#[inline(always)]
pub fn number_after(start: u128, digits: &[u8], most: u128) -> Option<u128>
    ensures { result ≡ (if nat_le (spec.value_after start digits.now) most then Some (spec.value_after start digits.now) else None) }
{
    if start > u128::from(MAX_SHORT) {
        return long_after(start, digits, most);
    }
    match short_after(start as u64, digits) {
        Some(value) if u128::from(value) <= most => Some(u128::from(value)),
        Some(_) => None,
        None => long_after(start, digits, most),
    }
}

/// Whether all bytes are digits.
pub fn are_digits(text: &[u8]) -> bool
    ensures { result ≡ list_all is_ascii_digit text.now }
{
    text.iter().all(|b| b.is_ascii_digit())
}

#[tactic(auto, unfolding(crate::specs::Whole::whole_number))]
/// The value of one or more digits, where it fits 64 bits with a sign.
pub fn whole_number(digits: &[u8]) -> Option<u64>
    ensures { result ≡ spec.whole_number digits.now }
{
    if digits.is_empty() || !are_digits(digits) {
        return None;
    }
    let Some(value) = number_after(0, digits, MAX_WHOLE) else {
        return None;
    };
    Some(value as u64)
}

/// The number without the zeros at its end, and how many these are.
pub(crate) fn without_zeros(number: u64) -> (u64, u8)
    requires { 0 < number }
    ensures value { result.0 * 10 ^ result.1 ≡ number }
    ensures last { result.0 % 10 ≢ 0 }
    ensures few { result.1 < 20 }
{
    let mut rest = number;
    let mut zeros = 0;
    'zeros: while rest % 10 == 0 {
        rest /= 10;
        zeros += 1;
    }
    (rest, zeros)
}
