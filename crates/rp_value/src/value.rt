//! Values.

use crate::bits::Bits;
use crate::characters::Characters;
use crate::decimal::HeldDecimal;
use crate::elements::Elements;
use plain_data::{Items, Text};
use rp_numbers::{Decimal, Logical};
use shared::Shared;
use std::alloc::{AllocError, Global};

/// The kind of an aggregate (ISO 10303-11:1994, 8.2).
#[derive(Clone, Copy, PartialEq, Eq)]
pub enum AggregateKind {
    Array,
    List,
    Bag,
    Set,
    /// An aggregate initialiser, which goes with every kind. No content of a model holds one.
    Initializer,
}

/// A value. It takes at most 24 bytes, and what is larger stands in blocks that its copies share.
pub enum Value {
    /// Unset (`$`), or indeterminate (`?`).
    Indet,
    /// A value of INTEGER.
    Int(i64),
    /// A value of REAL or NUMBER.
    Dec(HeldDecimal),
    /// A value of STRING.
    Str(Characters),
    /// A value of BINARY.
    Bin(Bits),
    /// A value of BOOLEAN or LOGICAL.
    Log(Logical),
    /// An item of an enumeration: the number of the type that declares it, and its place there.
    Item {
        enumeration: usize,
        place: usize,
    },
    /// An instance, by its name.
    Inst(u64),
    /// An aggregate.
    Agg {
        kind: AggregateKind,
        elements: Elements<Value>,
    },
    /// A value under the name of a defined type, by the number of that type.
    Named {
        defined_type: usize,
        value: Shared<Value>,
    },
}

const _: () = prove!(size_of::<Value>() <= 24);

impl Drop for Value {
    /// What has no block is told apart where a value is let go, since most values are such.
    #[cycle(value_drop)]
    #[inline(always)]
    fn drop(self) {
        match self {
            Value::Indet | Value::Int(_) | Value::Log(_) | Value::Inst(_) => {}
            Value::Item {
                enumeration: _,
                place: _,
            } => {}
            value => value.drop_block(),
        }
    }
}

impl Value {
    #[cycle(value_drop)]
    #[inline(never)]
    fn drop_block(self) {
        match self {
            Value::Indet | Value::Int(_) | Value::Log(_) | Value::Inst(_) => {}
            Value::Item {
                enumeration: _,
                place: _,
            } => {}
            Value::Dec(decimal) => drop(decimal),
            Value::Str(text) => drop(text),
            Value::Bin(bits) => drop(bits),
            Value::Agg { kind: _, elements } => drop(elements),
            Value::Named {
                defined_type: _,
                value,
            } => drop(value),
        }
    }
}

impl Value {
    ghost use Rattle.std.specs.Prelude.{◌≡◌, IfErr, IfOk};
    ghost use Rattle.std.specs.Option.{option_copied};
    ghost use Rattle.rp_value.specs.declared.value.Value.TheVariants as v;
    ghost use Rattle.rp_value.specs.Values.{elements_of};

    /// A decimal.
    pub fn decimal(alloc: Global, decimal: Decimal) -> Result<Value, AllocError>
        ensures { IfOk result (λ x. x ≡ v.Dec decimal) }
    {
        Ok(Value::Dec(HeldDecimal::of(alloc, decimal)?))
    }

    /// A string.
    pub fn text(alloc: Global, text: Text) -> Result<Value, AllocError>
        ensures { IfOk result (λ x. x ≡ v.Str text) }
    {
        Ok(Value::Str(Characters::of(alloc, text)?))
    }

    /// A binary.
    pub fn binary(alloc: Global, bits: Items<bool>) -> Result<Value, AllocError>
        ensures { IfOk result (λ x. x ≡ v.Bin bits) }
    {
        Ok(Value::Bin(Bits::of(alloc, bits)?))
    }

    /// The aggregate whose first element has the index `low`.
    pub fn aggregate(
        alloc: Global,
        kind: AggregateKind,
        low: i64,
        items: Items<Value>,
    ) -> Result<Value, AllocError>
        ensures { IfOk result (λ x. x ≡ v.Agg kind (record { low = low; items = items })) }
    {
        let elements = Elements::of(alloc, low, items)?;
        Ok(Value::Agg { kind, elements })
    }

    /// What an aggregate is made of, where this is one and nobody else has its elements, and else the value.
    pub fn into_aggregate(self) -> Result<(AggregateKind, i64, Items<Value>), Value>
        ensures parts { IfOk result (λ p. v.Agg p.0 (record { low = p.1; items = p.2 }) ≡ self) }
        ensures whole { IfErr result (λ x. x ≡ self) }
    {
        match self {
            Value::Agg { kind, elements } => match elements.own() {
                Ok((low, items)) => Ok((kind, low, items)),
                Err(elements) => Err(Value::Agg { kind, elements }),
            },
            value => Err(value),
        }
    }

    /// The value under the name of a defined type.
    pub fn named(alloc: Global, defined_type: usize, value: Value) -> Result<Value, AllocError>
        ensures { IfOk result (λ x. x ≡ v.Named defined_type value) }
    {
        let value = Shared::new(alloc, value)?;
        Ok(Value::Named {
            defined_type,
            value,
        })
    }

    /// The elements of an aggregate.
    pub fn elements(&self) -> Option<&[Value]>
        ensures { option_copied result ≡ elements_of self.now }
    {
        match self {
            Value::Agg { kind: _, elements } => Some(elements.as_slice()),
            _ => None,
        }
    }

    /// The same value. It copies no element, text or bit.
    pub fn copy(&self) -> Result<Value, AllocError>
        ensures { IfOk result (λ x. x ≡ self.now) }
    {
        Ok(match self {
            Value::Indet => Value::Indet,
            Value::Int(number) => Value::Int(*number),
            Value::Dec(decimal) => Value::Dec(decimal.share()?),
            Value::Str(text) => Value::Str(text.share()?),
            Value::Bin(bits) => Value::Bin(bits.share()?),
            Value::Log(logical) => Value::Log(*logical),
            Value::Item { enumeration, place } => Value::Item {
                enumeration: *enumeration,
                place: *place,
            },
            Value::Inst(name) => Value::Inst(*name),
            Value::Agg { kind, elements } => Value::Agg {
                kind: *kind,
                elements: elements.share()?,
            },
            Value::Named {
                defined_type,
                value,
            } => Value::Named {
                defined_type: *defined_type,
                value: value.share()?,
            },
        })
    }
}
