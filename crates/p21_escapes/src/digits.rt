//! Hexadecimal digits.

ghost use Rattle.std.specs.Prelude.{◌≡◌, ◌<◌, ◌^◌};
ghost use Rattle.p21_escapes.specs.Digits as spec;

fn digit(n: u32) -> u8
    requires { n < 16 }
    ensures { result ≡ spec.digit n }
{
    if n < 10 { b'0' + n as u8 } else { 55 + n as u8 }
}

/// The last four digits of a number.
#[tactic(auto, unfolding(crate::specs::Digits::four))]
pub fn four(n: u32) -> [u8; 4]
    ensures { result ≡ spec.four n }
{
    [
        digit(n / 16 / 16 / 16 % 16),
        digit(n / 16 / 16 % 16),
        digit(n / 16 % 16),
        digit(n % 16),
    ]
}

pub fn is_digit(b: u8) -> bool
    ensures { result ≡ spec.is_digit b }
{
    b.is_ascii_hexdigit()
}

pub fn are_four(a: u8, b: u8, c: u8, d: u8) -> bool
    ensures { result ≡ spec.are_four a b c d }
{
    is_digit(a) && is_digit(b) && is_digit(c) && is_digit(d)
}

/// The value of a hexadecimal digit, in either case.
pub fn digit_value(b: u8) -> u32
    ensures value { result ≡ spec.digit_value b }
    ensures small { result < 256 }
{
    let value = if b <= b'9' {
        b.saturating_sub(b'0')
    } else if b <= b'F' {
        b.saturating_sub(55)
    } else {
        b.saturating_sub(87)
    };
    u32::from(value)
}

pub fn value_of_four(a: u8, b: u8, c: u8, d: u8) -> u32
    ensures value { result ≡ spec.value_of_four a b c d }
    ensures small { result < 2 ^ 21 }
{
    ((digit_value(a) * 16 + digit_value(b)) * 16 + digit_value(c)) * 16 + digit_value(d)
}
