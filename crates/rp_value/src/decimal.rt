//! Decimals in little room.

use rp_numbers::Decimal;
use shared::Shared;
use std::alloc::{AllocError, Global};
use std::marker::Model;

enum Held {
    /// In place. The exponent stands first, where it takes no room beside the tag.
    Short { exponent: i16, coefficient: i64 },
    Long(Shared<Decimal>),
}

impl Drop for Held {
    fn drop(self) {
        match self {
            Held::Short {
                exponent: _,
                coefficient: _,
            } => {}
            Held::Long(decimal) => drop(decimal),
        }
    }
}

/// A decimal that takes a block only where its coefficient does not fit 64 bits: one of up to 18 digits takes none.
/// Copies share the block.
#[derive(Drop)]
pub struct HeldDecimal {
    held: Held,
}

impl Model for HeldDecimal {
    ghost use Rattle.rp_numbers.specs.Decimals as spec;
    ghost use Rattle.rp_value.specs.Held.{decimal_of};

    ghost Value = { spec.Decimal };

    ghost view = { λ d. decimal_of d.held };

    ghost invariant = { λ d. spec.IsNormal (decimal_of d.held) };
}

impl HeldDecimal {
    ghost use Rattle.std.specs.Prelude.{◌≡◌, IfOk};

    /// The same decimal, in place where its coefficient fits 64 bits.
    pub fn of(alloc: Global, decimal: Decimal) -> Result<HeldDecimal, AllocError>
        ensures { IfOk result (λ d. d ≡ decimal) }
    {
        let held = match i64::try_from(decimal.coefficient()) {
            Ok(coefficient) => Held::Short {
                exponent: decimal.exponent(),
                coefficient,
            },
            Err(_) => Held::Long(Shared::new(alloc, decimal)?),
        };
        Ok(HeldDecimal { held })
    }

    /// The decimal itself, with all that can be asked of one.
    pub fn get(&self) -> Decimal
        ensures { result ≡ self.now }
    {
        match &self.held {
            Held::Short {
                exponent,
                coefficient,
            } => match Decimal::of_parts(i128::from(*coefficient), *exponent) {
                Some(decimal) => decimal,
                None => unreachable!(),
            },
            Held::Long(decimal) => *decimal.get(),
        }
    }

    /// Its coefficient in normal form.
    pub fn coefficient(&self) -> i128
        ensures { result ≡ self.now.coefficient }
    {
        match &self.held {
            Held::Short {
                exponent: _,
                coefficient,
            } => i128::from(*coefficient),
            Held::Long(decimal) => decimal.get().coefficient(),
        }
    }

    /// The exponent of ten that goes with the coefficient.
    pub fn exponent(&self) -> i16
        ensures { result ≡ self.now.exponent }
    {
        match &self.held {
            Held::Short {
                exponent,
                coefficient: _,
            } => *exponent,
            Held::Long(decimal) => decimal.get().exponent(),
        }
    }

    /// The same decimal, which is not copied where it has a block.
    pub fn share(&self) -> Result<HeldDecimal, AllocError>
        ensures { IfOk result (λ d. d ≡ self.now) }
    {
        let held = match &self.held {
            Held::Short {
                exponent,
                coefficient,
            } => Held::Short {
                exponent: *exponent,
                coefficient: *coefficient,
            },
            Held::Long(decimal) => Held::Long(decimal.share()?),
        };
        Ok(HeldDecimal { held })
    }
}
