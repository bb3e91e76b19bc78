//! Numbers that values share where they are the same.

ghost use Rattle.std.specs.Prelude.{◌≡◌, ◌*◌, ◌^◌, ◌%◌, ◌<◌, ◌≤◌, unsigned_abs};
ghost use Rattle.rp_numbers.specs.Decimals.{places, scaled, scaled_whole};
ghost use Rattle.rp_numbers.specs.Logical.{rank};
ghost use Rattle.rp_faults.specs.Keys as spec;
ghost use Rattle.rp_operations.specs.Seen.{seen};

use rp_value::{HeldDecimal, Logical, Value};

/// The greatest prime number below 2^32.
const PRIME: u64 = 4_294_967_291;

/// Makes the factors of a product differ that are small or near each other.
const MIXED: u64 = 2_654_435_769;

/// How many places a whole number is raised by, as a decimal times 10^1000 is.
const PLACES: u32 = 1000;

/// Most powers of ten that are asked for are found from this one.
const NEAR: u32 = 960;

/// What 10^960 leaves, divided by the prime number.
const NEAR_POWER: u64 = 3_894_194_755;

/// A key, and one more number.
pub fn with_number(key: u32, number: u64) -> u32
    ensures { result ≡ spec.with_number key number }
{
    ((u64::from(key) * 257 + number % PRIME) % PRIME) as u32
}

fn with_bytes(bytes: &[u8]) -> u32
    ensures { result ≡ spec.with_numbers 0 bytes.now }
{
    let mut key = 0;
    for byte in bytes {
        key = with_number(key, u64::from(*byte));
    }
    key
}

fn number_of(bit: bool) -> u64
    ensures { result ≡ spec.bit bit }
{
    if bit { 1 } else { 0 }
}

fn with_bits(bits: &[bool]) -> u32
    ensures { result ≡ spec.with_bits 0 bits.now }
{
    let mut key = 0;
    for bit in bits {
        key = with_number(key, number_of(*bit));
    }
    key
}

/// What a power of ten leaves, from what a smaller one does.
#[tactic(auto, using(crate::proofs::Sharing::powers))]
fn power_from(start: u64, from: u32, exponent: u32) -> u64
    requires smaller { from ≤ exponent }
    requires left { start ≡ 10 ^ from % 4294967291 }
    ensures { result ≡ 10 ^ exponent % 4294967291 }
{
    let mut power = start;
    for _place in from..exponent {
        power = power * 10 % PRIME;
    }
    power
}

/// What a power of ten leaves, divided by the prime number.
#[tactic(auto, using(crate::proofs::Sharing::powers))]
fn power(exponent: u32) -> u64
    ensures { result ≡ 10 ^ exponent % 4294967291 }
{
    if exponent >= NEAR {
        power_from(NEAR_POWER, NEAR, exponent)
    } else {
        power_from(1, 0, exponent)
    }
}

fn magnitude(number: i64) -> u64
    ensures { result ≡ unsigned_abs number }
{
    number.unsigned_abs()
}

/// What a number that is raised by so many places leaves.
#[tactic(auto, using(crate::proofs::Sharing::products))]
fn raised(left: u64, exponent: u32) -> u32
    requires { left < 4294967291 }
    ensures { result ≡ (left * 10 ^ exponent) % 4294967291 }
{
    (left * power(exponent) % PRIME) as u32
}

#[tactic(auto, using(crate::proofs::Sharing::products))]
fn of_integer(number: i64) -> u32
    ensures { result ≡ unsigned_abs (scaled_whole number) % 4294967291 }
{
    raised(magnitude(number) % PRIME, PLACES)
}

/// How many zeros a decimal times 10^1000 has behind its coefficient.
fn places(decimal: &HeldDecimal) -> u32
    ensures { result ≡ places decimal.now }
{
    (i32::from(decimal.exponent()) + 1000).unsigned_abs()
}

#[tactic(auto, using(crate::proofs::Sharing::sizes))]
fn of_decimal(decimal: &HeldDecimal) -> u32
    ensures { result ≡ unsigned_abs (scaled decimal.now) % 4294967291 }
{
    let left = decimal.coefficient().unsigned_abs() % u128::from(PRIME);
    raised(left as u64, places(decimal))
}

fn of_truth(truth: Logical) -> u32
    ensures { result ≡ rank truth }
{
    match truth {
        Logical::False => 0,
        Logical::Unknown => 1,
        Logical::True => 2,
    }
}

/// The key of what is neither `?` nor an aggregate.
#[tactic(auto, using(rp_operators::proofs::Sights::bares))]
fn scalar_key(value: &Value) -> Option<u32>
    ensures { result ≡ spec.scalar_key (seen value.now) }
{
    match value {
        Value::Indet => None,
        Value::Int(number) => Some(of_integer(*number)),
        Value::Dec(decimal) => Some(of_decimal(decimal)),
        Value::Str(text) => Some(with_bytes(text.as_bytes())),
        Value::Bin(bits) => Some(with_bits(bits.as_slice())),
        Value::Log(truth) => Some(of_truth(*truth)),
        Value::Item {
            enumeration: _,
            place,
        } => Some(with_number(0, *place as u64)),
        Value::Inst(place) => Some(with_number(0, *place)),
        Value::Agg {
            kind: _,
            elements: _,
        } => None,
        Value::Named {
            defined_type: _,
            value,
        } => scalar_key(value.get()),
    }
}

// ---- aggregates

/// A product, and one more factor.
fn with_factor(product: u32, key: u32) -> u32
    ensures { result ≡ spec.with_factor product key }
{
    (u64::from(product) * u64::from(with_number(key, MIXED)) % PRIME) as u32
}

/// A product of keys, and one element more, unless it is an aggregate itself.
fn with_element(product: u32, element: &Value) -> u32
    ensures { result ≡ spec.with_element product element.now }
{
    match scalar_key(element) {
        Some(key) => with_factor(product, key),
        None => product,
    }
}

/// The key of elements, in any order.
fn of_elements(elements: &[Value]) -> u32
    ensures { result ≡ spec.elements_key elements.now }
{
    let mut product = 1;
    for element in elements {
        product = with_element(product, element);
    }
    with_number(product, elements.len() as u64)
}

/// The key of an aggregate.
#[tactic(auto, using(crate::proofs::Aggregates::keys))]
fn aggregate_key(value: &Value) -> u32
    ensures { result ≡ spec.aggregate_key (seen value.now) }
{
    match value {
        Value::Agg { kind: _, elements } => of_elements(elements.as_slice()),
        Value::Named {
            defined_type: _,
            value,
        } => aggregate_key(value.get()),
        _ => 0,
    }
}

/// The key of a value: what `:=:` says to be the same has the same. Elements that are aggregates themselves don't tell in it.
pub fn key_of(value: &Value) -> u32
    ensures { result ≡ spec.key_of value.now }
{
    match scalar_key(value) {
        Some(key) => key,
        None => aggregate_key(value),
    }
}
