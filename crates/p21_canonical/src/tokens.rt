//! What tokens are made of.

ghost use Rattle.std.specs.Prelude.{◌≡◌, ◌++◌, ◌∷◌, [], OnOk, decimal};
ghost use Rattle.std.specs.Fmt.{signed_decimal};
ghost use Rattle.p21_spelling.specs.Tokens as spec;
ghost use Rattle.p21_escapes.specs.Encoding.{encoded};
ghost use Rattle.rp_numbers.specs.Written.{written};

use crate::output::Output;
use itoa::Buffer;
use rp_numbers::Decimal;
use std::alloc::AllocError;

/// A whole number.
pub(crate) fn write_integer(out: &mut Output, number: i64) -> Result<(), AllocError>
    ensures { OnOk result (out.new ≡ out.old ++ signed_decimal number) }
{
    out.push_str(Buffer::new().format(number))
}

/// A decimal: its coefficient, a point, and its exponent unless that is 0.
#[tactic(auto, using(crate::proofs::Decimals::powers), unfolding(rp_numbers::specs::Written::written))]
pub(crate) fn write_decimal(out: &mut Output, decimal: Decimal) -> Result<(), AllocError>
    ensures { OnOk result (out.new ≡ out.old ++ written decimal) }
{
    let exponent = decimal.exponent();
    out.push_str(Buffer::new().format(decimal.coefficient()))?;
    out.push(b'.')?;
    if exponent == 0 {
        return Ok(());
    }
    out.push(b'E')?;
    out.push_str(Buffer::new().format(exponent))
}

/// `#` and the name of an instance.
pub(crate) fn write_name(out: &mut Output, name: u64) -> Result<(), AllocError>
    ensures { OnOk result (out.new ≡ out.old ++ 35 ∷ decimal name) }
{
    out.push(b'#')?;
    out.push_str(Buffer::new().format(name))
}

/// Characters between apostrophes.
pub fn write_string(out: &mut Output, text: &str) -> Result<(), AllocError>
    ensures { OnOk result (out.new ≡ out.old ++ spec.quoted (encoded text.now)) }
{
    out.push(b'\'')?;
    out.push_encoded(text)?;
    out.push(b'\'')
}

/// An item between points.
pub(crate) fn write_item(out: &mut Output, name: &str) -> Result<(), AllocError>
    ensures { OnOk result (out.new ≡ out.old ++ 46 ∷ (name.now ++ 46 ∷ [])) }
{
    out.push(b'.')?;
    out.push_str(name)?;
    out.push(b'.')
}
