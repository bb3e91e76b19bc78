//! The elements of an aggregate.

use plain_data::Items;
use shared::Shared;
use std::alloc::{AllocError, Global};
use std::marker::Model;

/// What stands in the one block of an aggregate.
#[derive(Drop)]
struct Numbered<T> {
    low: i64,
    items: Items<T>,
}

/// Elements, and the index of the first of them. Copies share the elements. No elements from index 1 on, as of an empty
/// list, take no block.
#[derive(Drop)]
pub struct Elements<T> {
    held: Option<Shared<Numbered<T>>>,
}

impl<T> Model for Elements<T> {
    ghost use Rattle.rp_value.specs.Elements as spec;

    ghost Value = { spec.Elements T };

    ghost coded = { spec.elements_code T.code };

    ghost use Rattle.rp_value.specs.Held.{elements_of};

    ghost view = { λ e. elements_of e.held };
}

impl<T> Elements<T> {
    ghost use Rattle.std.specs.Prelude.{◌≡◌};

    /// The index of the first element.
    pub fn low(&self) -> i64
        ensures { result ≡ self.now.low }
    {
        match &self.held {
            None => 1,
            Some(numbered) => numbered.get().low,
        }
    }

    /// From the first element on.
    pub fn as_slice(&self) -> &[T]
        ensures { result.now ≡ self.now.items }
    {
        match &self.held {
            None => &[],
            Some(numbered) => numbered.get().items.as_slice(),
        }
    }
}

impl<T: Drop> Elements<T> {
    ghost use Rattle.std.specs.Prelude.{◌≡◌, IfErr, IfOk};

    /// The elements from the index `low` on.
    pub fn of(alloc: Global, low: i64, items: Items<T>) -> Result<Elements<T>, AllocError>
        ensures { IfOk result (λ e. e ≡ (record { low = low; items = items })) }
    {
        if low == 1 && items.is_empty() {
            return Ok(Elements { held: None });
        }
        let numbered = Shared::new(alloc, Numbered { low, items })?;
        Ok(Elements {
            held: Some(numbered),
        })
    }

    /// The same elements, which are not copied.
    pub fn share(&self) -> Result<Elements<T>, AllocError>
        ensures { IfOk result (λ e. e ≡ self.now) }
    {
        match &self.held {
            None => Ok(Elements { held: None }),
            Some(numbered) => Ok(Elements {
                held: Some(numbered.share()?),
            }),
        }
    }

    /// The index of the first element, and the elements themselves, where nobody else has them.
    pub fn own(self) -> Result<(i64, Items<T>), Elements<T>>
        ensures parts { IfOk result (λ p. record { low = p.0; items = p.1 } ≡ self) }
        ensures shared { IfErr result (λ e. e ≡ self) }
    {
        match self.held {
            None => Err(Elements { held: None }),
            Some(held) => match held.own() {
                Ok(Numbered { low, items }) => Ok((low, items)),
                Err(held) => Err(Elements { held: Some(held) }),
            },
        }
    }
}
