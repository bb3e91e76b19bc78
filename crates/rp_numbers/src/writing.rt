//! Numbers as they are written, into room that is there.

ghost use Rattle.std.specs.Prelude.{◌≡◌, ◌+◌, ◌≤◌, ◌∷◌, ◌++◌, [], length, decimal, vec_len, vec_capacity};
ghost use Rattle.std.specs.Fmt.{signed_decimal};
ghost use Rattle.rp_numbers.specs.Written.{power};

/// The digits of a number, without zeros in front.
fn write_digits(number: u128, out: &mut Vec<u8>)
    requires { vec_len out.old + length (decimal number) ≤ vec_capacity out.old }
    ensures items { out.new.items ≡ out.old.items ++ decimal number }
    ensures len { vec_len out.new ≡ vec_len out.old + length (decimal number) }
    ensures capacity { vec_capacity out.new ≡ vec_capacity out.old }
{
    if number >= 10 {
        write_digits(number / 10, out);
    }
    out.push_reserved(b'0' + (number % 10) as u8);
}

/// A number with its sign, if that is a minus.
#[tactic(auto, using(crate::proofs::Numerals::signs))]
pub(crate) fn write_signed(number: i128, out: &mut Vec<u8>)
    requires { vec_len out.old + length (signed_decimal number) ≤ vec_capacity out.old }
    ensures items { out.new.items ≡ out.old.items ++ signed_decimal number }
    ensures len { vec_len out.new ≡ vec_len out.old + length (signed_decimal number) }
    ensures capacity { vec_capacity out.new ≡ vec_capacity out.old }
{
    if number < 0 {
        out.push_reserved(b'-');
    }
    write_digits(number.unsigned_abs(), out);
}

/// An exponent, unless it is 0.
#[tactic(auto, using(crate::proofs::Numerals::powers))]
pub(crate) fn write_power(exponent: i16, out: &mut Vec<u8>)
    requires { vec_len out.old + length (power exponent) ≤ vec_capacity out.old }
    ensures { out.new.items ≡ out.old.items ++ power exponent }
{
    if exponent != 0 {
        out.push_reserved(b'E');
        write_signed(i128::from(exponent), out);
    }
}
