//! What a declared type takes of a token or a reference.

ghost use Rattle.std.specs.Prelude.{◌≡◌, ◌++◌, ◌∷◌, [], map, Some, None, IfOk, OnOk};
ghost use Rattle.std.specs.List.{filter_map};
ghost use Rattle.std.specs.Option.{option_and_then, option_map};
ghost use Rattle.std.specs.Str.{str_to_ascii_uppercase};
ghost use Rattle.p21_escapes.specs.Decoding.{decoded};
ghost use Rattle.rp_numbers.specs.Spelling.{parse};
ghost use Rattle.rp_value.specs.declared.value.Value.TheVariants as v;
ghost use Rattle.ex_selects.specs.Ends as ends;
ghost use Rattle.ex_selects.specs.Seen.{seen};
ghost use Rattle.p21_values.specs.Tokens.{ok};
ghost use Rattle.p21_values.specs.Deciding as deciding;
ghost use Rattle.ex_selects.specs.Takers as takers;
ghost use Rattle.p21_values.specs.Taking as spec;

use crate::tokens::{bits, boolean, integer, is_upper_case, logical};
use ex_selects::{Base, Class, DefinedTypes, Takers, base_of, taker_at};
use ex_tree::SimpleType;
use name_tables::First;
use p21_strings::decode_string;
use p21_tree::Value as SpelledValue;
use plain_data::{Failure, Text};
use rp_value::{Decimal, Value};
use std::alloc::{AllocError, Global};

/// A value that a type takes; nothing where it takes none.
pub type Taken = Result<Option<Value>, AllocError>;

/// The decimal of a real.
fn decimal(alloc: Global, token: &[u8]) -> Taken
    ensures { IfOk result (λ taken. taken ≡ option_map v.Dec (ok (parse token.now))) }
{
    match Decimal::parse(token) {
        Ok(decimal) => Ok(Some(Value::decimal(alloc, decimal)?)),
        Err(_) => Ok(None),
    }
}

/// The decimal of an integer.
fn decimal_of_integer(alloc: Global, token: &[u8]) -> Taken
    ensures { IfOk result (λ taken. taken ≡ option_map v.Dec (ok (parse (token.now ++ 46 ∷ [])))) }
{
    let mut real = Vec::with_capacity(alloc, token.len() + 1)?;
    real.extend_from_slice(token)?;
    real.push(b'.')?;
    decimal(alloc, &real)
}

#[inline(never)]
fn of_integer(alloc: Global, token: &[u8], base: &Base<'_>) -> Taken
    ensures { IfOk result (λ taken. taken ≡ spec.of_integer token.now (seen base.now)) }
{
    match base {
        Base::Plain(SimpleType::Integer | SimpleType::Number) => Ok(integer(token).map(Value::Int)),
        Base::Plain(SimpleType::Real) => decimal_of_integer(alloc, token),
        _ => Ok(None),
    }
}

#[inline(never)]
fn of_real(alloc: Global, token: &[u8], base: &Base<'_>) -> Taken
    ensures { IfOk result (λ taken. taken ≡ spec.of_real token.now (seen base.now)) }
{
    match base {
        Base::Plain(SimpleType::Real | SimpleType::Number) => decimal(alloc, token),
        _ => Ok(None),
    }
}

/// The string that the bytes between its apostrophes spell. Most are empty, and spell nothing.
#[tactic(auto, unfolding(p21_escapes::specs::Decoding::decoded, p21_escapes::specs::Decoding::spelled))]
fn text(alloc: Global, token: &[u8]) -> Taken
    ensures { IfOk result (λ taken. taken ≡ option_map v.Str (ok (decoded token.now))) }
{
    if token.is_empty() {
        return Ok(Some(Value::text(alloc, Text::new(String::new(alloc)))?));
    }
    match decode_string(alloc, token) {
        Ok(text) => Ok(Some(Value::text(alloc, text)?)),
        Err(Failure::Fault(_)) => Ok(None),
        Err(Failure::NoMemory) => Err(AllocError),
    }
}

#[inline(never)]
fn of_text(alloc: Global, token: &[u8], base: &Base<'_>) -> Taken
    ensures { IfOk result (λ taken. taken ≡ spec.of_text token.now (seen base.now)) }
{
    match base {
        Base::Plain(SimpleType::String(_)) => text(alloc, token),
        _ => Ok(None),
    }
}

#[inline(never)]
fn of_binary(alloc: Global, token: &[u8], base: &Base<'_>) -> Taken
    ensures { IfOk result (λ taken. taken ≡ spec.of_binary token.now (seen base.now)) }
{
    match base {
        Base::Plain(SimpleType::Binary(_)) => {
            let bits = bits(alloc, token)?;
            Ok(Some(Value::binary(alloc, bits)?))
        }
        _ => Ok(None),
    }
}

/// What an item in upper case is.
fn of_item(types: &DefinedTypes<'_>, name: &[u8], base: &Base<'_>) -> Option<Value>
    ensures { result ≡ spec.of_item types.now name.now (seen base.now) }
{
    match base {
        Base::Plain(SimpleType::Boolean) => boolean(name).map(Value::Log),
        Base::Plain(SimpleType::Logical) => logical(name).map(Value::Log),
        Base::Enumeration(number) => match types.item_place(*number, name) {
            Some(place) => Some(Value::Item {
                enumeration: *number,
                place,
            }),
            None => None,
        },
        _ => None,
    }
}

/// What a SELECT takes of a reference.
fn selected_reference(types: &DefinedTypes<'_>, name: u64, number: usize) -> Option<Value>
    ensures { result ≡ spec.reference_at types.now name (ends.Select number) }
{
    if types.chooses_instances(number) {
        Some(Value::Inst(name))
    } else {
        None
    }
}

/// What an item in either case is. Most are in upper case, and then no copy is made.
#[inline(never)]
fn item_in_either_case(
    alloc: Global,
    types: &DefinedTypes<'_>,
    token: &[u8],
    base: &Base<'_>,
) -> Taken
    ensures { IfOk result (λ taken. taken ≡ spec.of_item types.now (str_to_ascii_uppercase token.now) (seen base.now)) }
{
    if is_upper_case(token) {
        return Ok(of_item(types, token, base));
    }
    let name = token.to_ascii_uppercase(alloc)?;
    Ok(of_item(types, &name, base))
}

/// What a type takes of a reference.
#[inline(always)]
pub fn reference(types: &DefinedTypes<'_>, name: u64, base: &Base<'_>) -> Option<Value>
    ensures { result ≡ spec.reference_at types.now name (seen base.now) }
{
    match base {
        Base::Instance => Some(Value::Inst(name)),
        Base::Select(number) => selected_reference(types, name, *number),
        _ => None,
    }
}

/// A value under the name of a defined type.
pub fn under_name(alloc: Global, number: usize, taken: Option<Value>) -> Taken
    ensures { IfOk result (λ under. under ≡ option_map (v.Named number) taken) }
{
    match taken {
        Some(value) => Ok(Some(Value::named(alloc, number, value)?)),
        None => Ok(None),
    }
}

/// What a type that is no SELECT takes of a token. Each kind has a function of its own, that saves what it changes alone.
#[inline(always)]
#[tactic(auto, unfolding(crate::specs::Taking::meaning))]
fn token(
    alloc: Global,
    types: &DefinedTypes<'_>,
    value: &SpelledValue<'_>,
    base: &Base<'_>,
) -> Taken
    ensures { IfOk result (λ taken. taken ≡ deciding.alone types.now value.now (seen base.now)) }
{
    match value {
        SpelledValue::Integer(token) => of_integer(alloc, token.as_slice(), base),
        SpelledValue::Real(token) => of_real(alloc, token.as_slice(), base),
        SpelledValue::Text(token) => of_text(alloc, token.as_slice(), base),
        SpelledValue::Binary(token) => of_binary(alloc, token.as_slice(), base),
        SpelledValue::Item(token) => item_in_either_case(alloc, types, token.as_slice(), base),
        SpelledValue::Unset | SpelledValue::Derived => Ok(None),
        SpelledValue::Reference(_) | SpelledValue::List(_) | SpelledValue::Typed(_, _) => Ok(None),
    }
}

/// What the only one of the defined types takes that takes the token.
fn only_token(
    alloc: Global,
    types: &DefinedTypes<'_>,
    value: &SpelledValue<'_>,
    numbers: &[usize],
) -> Taken
    ensures { IfOk result (λ taken. taken ≡ spec.only (filter_map (spec.by_choice types.now (deciding.alone types.now value.now)) numbers.now)) }
{
    let mut found = None;
    'choices: for number in numbers {
        let base = base_of(types.types(), *number);
        let taken = token(alloc, types, value, &base)?;
        if let Some(value) = under_name(alloc, *number, taken)? {
            if found.is_some() {
                return Ok(None);
            }
            found = Some(value);
        }
    }
    Ok(found)
}

/// The class of the types that may take a token.
fn class_of(value: &SpelledValue<'_>) -> Class
    ensures { result ≡ deciding.class_of value.now }
{
    match value {
        SpelledValue::Item(_) => Class::Items,
        _ => Class::Plain,
    }
}

/// What the first takes of the token, where no other does.
fn first_token(
    alloc: Global,
    types: &DefinedTypes<'_>,
    value: &SpelledValue<'_>,
    first: Option<First<usize>>,
) -> Taken
    ensures { IfOk result (λ taken. taken ≡ option_and_then (spec.by_choice types.now (deciding.alone types.now value.now)) (takers.lone first)) }
{
    match first {
        Some(
            First {
                value: number,
                is_repeated: false,
            },
        ) => {
            let base = base_of(types.types(), number);
            let taken = token(alloc, types, value, &base)?;
            under_name(alloc, number, taken)
        }
        _ => Ok(None),
    }
}

/// What a SELECT takes of an item without a keyword, by who takes it.
fn known_item(
    alloc: Global,
    types: &DefinedTypes<'_>,
    value: &SpelledValue<'_>,
    item: &[u8],
    by_name: &Takers<'_>,
) -> Taken
    ensures { IfOk result (λ taken. taken ≡ option_and_then (spec.by_choice types.now (deciding.alone types.now value.now)) (takers.only_taker (str_to_ascii_uppercase item.now) by_name.now)) }
{
    let name = item.to_ascii_uppercase(alloc)?;
    first_token(alloc, types, value, taker_at(by_name, &name))
}

/// What a SELECT takes of a token without a keyword, asking each type that it chooses from.
#[tactic(auto, using(crate::proofs::Chosen::tokens_kept))]
fn asked_token(
    alloc: Global,
    types: &DefinedTypes<'_>,
    value: &SpelledValue<'_>,
    number: usize,
) -> Taken
    ensures { IfOk result (λ taken. taken ≡ spec.only (filter_map (spec.by_choice types.now (deciding.alone types.now value.now)) (ends.choices types.now number))) }
{
    match types.kept(class_of(value), number) {
        Some(numbers) => only_token(alloc, types, value, numbers),
        None => {
            let numbers = types.choices(alloc, number)?;
            only_token(alloc, types, value, &numbers)
        }
    }
}

/// What a SELECT takes of a token without a keyword.
// Apart, so that the way of all other types is short.
#[inline(never)]
fn select_token(
    alloc: Global,
    types: &DefinedTypes<'_>,
    value: &SpelledValue<'_>,
    number: usize,
) -> Taken
    ensures { IfOk result (λ taken. taken ≡ spec.only (filter_map (spec.by_choice types.now (deciding.alone types.now value.now)) (ends.choices types.now number))) }
{
    match value {
        SpelledValue::Item(item) => match types.takers(number) {
            Some(by_name) => known_item(alloc, types, value, item.as_slice(), by_name),
            None => asked_token(alloc, types, value, number),
        },
        _ => asked_token(alloc, types, value, number),
    }
}

/// What a type takes of a token without a keyword.
#[inline(always)]
pub fn bare_token(
    alloc: Global,
    types: &DefinedTypes<'_>,
    value: &SpelledValue<'_>,
    base: &Base<'_>,
) -> Taken
    ensures { IfOk result (λ taken. taken ≡ spec.bare_at types.now (deciding.alone types.now value.now) (seen base.now)) }
{
    match base {
        Base::Select(number) => select_token(alloc, types, value, *number),
        _ => token(alloc, types, value, base),
    }
}
