//! Binaries.

use plain_data::Items;
use shared::Shared;
use std::alloc::{AllocError, Global};
use std::marker::Model;

/// The bits of a binary, from the first on. Copies share them; no bits take no block.
#[derive(Drop)]
pub struct Bits {
    held: Option<Shared<Items<bool>>>,
}

impl Model for Bits {
    ghost use Rattle.std.specs.Prelude.{List, Bool};
    ghost use Rattle.rp_value.specs.Held.{bits_of};

    ghost Value = { List Bool };

    ghost view = { λ b. bits_of b.held };
}

impl Bits {
    ghost use Rattle.std.specs.Prelude.{◌≡◌, IfOk};

    /// The binary of these bits, which it does not copy.
    pub fn of(alloc: Global, bits: Items<bool>) -> Result<Bits, AllocError>
        ensures { IfOk result (λ b. b ≡ bits) }
    {
        if bits.is_empty() {
            return Ok(Bits { held: None });
        }
        let bits = Shared::new(alloc, bits)?;
        Ok(Bits { held: Some(bits) })
    }

    /// From the first bit on.
    pub fn as_slice(&self) -> &[bool]
        ensures { result.now ≡ self.now }
    {
        match &self.held {
            None => &[],
            Some(bits) => bits.get().as_slice(),
        }
    }

    /// The same bits, which are not copied.
    pub fn share(&self) -> Result<Bits, AllocError>
        ensures { IfOk result (λ b. b ≡ self.now) }
    {
        match &self.held {
            None => Ok(Bits { held: None }),
            Some(bits) => Ok(Bits {
                held: Some(bits.share()?),
            }),
        }
    }
}
