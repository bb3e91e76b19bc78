//! What values in a SELECT are written as, and which types' rules declarations bring.

ghost use Rattle.std.specs.Prelude.{◌≡◌, false, [], slice_get};
ghost use Rattle.std.specs.List.{list_any};
ghost use Rattle.std.specs.Option.{option_and_then, option_copied, option_map, option_map_or};
ghost use Rattle.plain_data.specs.Numbers.{is_among};
ghost use Rattle.rp_meaning.specs.Faults as faults;
ghost use Rattle.rp_meaning.specs.TypeRules as spec;
ghost use Rattle.rp_meaning.specs.Types as types;
ghost use Rattle.rp_operators.specs.Ends.{end_behind};

use ex_named::{NamedDataType, TypeName};
use rp_faults::{allows_choice, is_type};
use rp_meaning::{DefinedType, Domain};
use rp_operators::{End, aggregate_type, behind_names, carried, end_of, fits, place_of};
use rp_value::Value;
use std::alloc::{AllocError, Global};

/// The defined type that is named.
pub(crate) fn named(data_type: &NamedDataType) -> Option<usize>
    ensures { result ≡ spec.named data_type.now }
{
    match data_type {
        NamedDataType::Named(TypeName::Defined(number)) => Some(*number),
        _ => None,
    }
}

fn is_one_of(numbers: &[usize], number: usize) -> bool
    ensures { result ≡ is_among numbers.now number }
{
    numbers.iter().any(|other| *other == number)
}

/// Whether the instance at a place is of a choice.
fn is_instance_of<D: Domain>(domain: &D, place: Option<u64>, choice: TypeName) -> bool
    ensures { result ≡ option_map_or (λ i. faults.allows_choice i choice) (option_and_then (λ place. slice_get (D.population domain.now) place) place) false }
{
    let Some(place) = place else {
        return false;
    };
    match domain.instance(place as usize) {
        Some(instance) => allows_choice(&instance, choice),
        None => false,
    }
}

fn is_under(number: Option<usize>, choice: TypeName) -> bool
    ensures { result ≡ option_map_or (λ number. faults.is_type number choice) number false }
{
    match number {
        Some(number) => is_type(number, choice),
        None => false,
    }
}

/// The type of the elements of what is of a type behind all names.
pub(crate) fn element_of(end: End<'_>) -> Option<&NamedDataType>
    ensures { option_copied result ≡ option_map (λ a. a.element) (types.aggregate_type (end_behind end.entry)) }
{
    match aggregate_type(end) {
        Some(aggregate) => Some(aggregate.element),
        None => None,
    }
}

/// Whether a defined type is another, or stands beneath it.
pub(crate) fn is_beneath(types: &[DefinedType], from: usize, number: usize) -> bool
    ensures { result ≡ is_among (spec.with_beneath types.now [] from) number }
{
    from == number
        || match types.get(from) {
            Some(defined_type) => is_one_of(defined_type.beneath.as_slice(), number),
            None => false,
        }
}

/// Whether a SELECT is one of those on the ways from another.
pub(crate) fn is_between(types: &[DefinedType], from: usize, number: usize) -> bool
    ensures { result ≡ is_among (option_map_or (λ y. y.selects) (slice_get types.now from) []) number }
{
    match types.get(from) {
        Some(defined_type) => is_one_of(defined_type.selects.as_slice(), number),
        None => false,
    }
}

/// What finds the types whose rules are tried.
#[derive(Drop)]
pub(crate) struct Choosing<'a, D> {
    pub(crate) types: &'a [DefinedType],
    pub(crate) domain: &'a D,
}

impl<'a, D: Domain> Choosing<'a, D> {
    ghost use Rattle.std.specs.Prelude.{◌≡◌, [], IfOk, slice_get};
    ghost use Rattle.std.specs.List.{filter_map, list_any};
    ghost use Rattle.std.specs.Option.{option_copied, option_map_or};
    ghost use Rattle.rp_faults.specs.Declarations.{all_now};
    ghost use Rattle.plain_data.specs.Numbers.{is_among};
    ghost use Rattle.rp_meaning.specs.TypeRules as spec;

    /// Whether a value is written as a choice.
    fn is_choice_of(&self, value: &Value, choice: TypeName) -> bool
        ensures { result ≡ spec.is_choice_of self.now.types.now (D.population self.now.domain.now) value.now choice }
    {
        is_instance_of(self.domain, place_of(value), choice) || is_under(carried(value), choice)
    }

    fn is_one_of(&self, value: &Value, choices: &[TypeName]) -> bool
        ensures { result ≡ list_any (spec.is_choice_of self.now.types.now (D.population self.now.domain.now) value.now) choices.now }
    {
        choices
            .iter()
            .any(|choice| self.is_choice_of(value, *choice))
    }

    /// Whether a SELECT chooses from what a value is written as.
    fn chooses(&self, value: &Value, number: usize) -> bool
        ensures { result ≡ spec.chooses self.now.types.now (D.population self.now.domain.now) value.now number }
    {
        match self.types.get(number) {
            Some(defined_type) => self.is_one_of(value, defined_type.choices.as_slice()),
            None => false,
        }
    }

    /// Whether a SELECT stands on a way from another to what a value is written as.
    #[tactic(auto, using(crate::proofs::Values::between))]
    fn is_between(&self, value: &Value, from: usize, number: usize) -> bool
        ensures { result ≡ is_among (spec.selects_to self.now.types.now (D.population self.now.domain.now) from value.now) number }
    {
        is_between(self.types, from, number) && self.chooses(value, number)
    }

    /// The type under which a value is written, in a SELECT that chooses from it.
    #[tactic(auto, using(crate::proofs::Values::written))]
    fn written_under(&self, value: &Value, number: usize) -> Option<usize>
        ensures { result ≡ spec.written_under self.now.types.now (D.population self.now.domain.now) number value.now }
    {
        match carried(value) {
            Some(under) if self.chooses(value, number) => Some(under),
            _ => None,
        }
    }

    /// Whether a defined type is the one under which a value in a SELECT is written, or stands beneath it.
    #[tactic(auto, using(crate::proofs::Values::written))]
    fn is_written_under(&self, value: &Value, from: usize, number: usize) -> bool
        ensures { result ≡ is_among (option_map_or (spec.with_beneath self.now.types.now (D.population self.now.domain.now)) (spec.written_under self.now.types.now (D.population self.now.domain.now) from value.now) []) number }
    {
        match carried(value) {
            // Most values carry another type, so that is asked first.
            Some(under) => is_beneath(self.types, under, number) && self.chooses(value, from),
            None => false,
        }
    }

    /// Whether the rules of a type are tried on a value by a declaration with a SELECT.
    fn is_tried_in(&self, value: &Value, from: usize, number: usize) -> bool
        ensures { result ≡ is_among (spec.types_in_select self.now.types.now (D.population self.now.domain.now) from value.now) number }
    {
        from == number
            || self.is_between(value, from, number)
            || self.is_written_under(value, from, number)
    }

    /// Whether they are by a declaration.
    pub(crate) fn is_tried_by(
        &self,
        written: &Value,
        read: &Value,
        data_type: &NamedDataType,
        number: usize,
    ) -> bool
        ensures { result ≡ is_among (spec.types_tried self.now.types.now (D.population self.now.domain.now) data_type.now written.now read.now) number }
    {
        match (behind_names(self.types, data_type), named(data_type)) {
            (End::Select(_), Some(from)) => self.is_tried_in(written, from, number),
            (_, Some(from)) => {
                is_beneath(self.types, from, number) && fits(self.types, data_type, read)
            }
            (_, None) => false,
        }
    }

    /// Whether they are by one of these declarations.
    pub(crate) fn is_tried(
        &self,
        written: &Value,
        read: &Value,
        declared: &[&NamedDataType],
        number: usize,
    ) -> bool
        ensures { result ≡ spec.is_tried self.now.types.now (D.population self.now.domain.now) number (all_now declared.now) written.now read.now }
    {
        for data_type in declared {
            if self.is_tried_by(written, read, *data_type, number) {
                return true;
            }
        }
        false
    }

    /// The type of the elements of a value by a declaration.
    fn element_type<'t>(
        &'t self,
        written: &Value,
        read: &Value,
        data_type: &'t NamedDataType,
    ) -> Option<&'t NamedDataType>
        ensures { option_copied result ≡ spec.element_type self.now.types.now (D.population self.now.domain.now) written.now read.now data_type.now }
    {
        match (behind_names(self.types, data_type), named(data_type)) {
            (End::Select(_), Some(from)) => {
                element_of(end_of(self.types, self.written_under(written, from)?))
            }
            (end, _) => {
                let element = element_of(end)?;
                if fits(self.types, data_type, read) {
                    Some(element)
                } else {
                    None
                }
            }
        }
    }

    /// The types of the elements of a value by these declarations.
    pub(crate) fn element_types<'t>(
        &'t self,
        alloc: Global,
        written: &Value,
        read: &Value,
        declared: &[&'t NamedDataType],
    ) -> Result<Vec<&'t NamedDataType>, AllocError>
        ensures { IfOk result (λ found. all_now found.items ≡ filter_map (spec.element_type self.now.types.now (D.population self.now.domain.now) written.now read.now) (all_now declared.now)) }
    {
        let mut found = Vec::new(alloc);
        for data_type in declared {
            if let Some(element) = self.element_type(written, read, *data_type) {
                found.push(element)?;
            }
        }
        Ok(found)
    }
}
