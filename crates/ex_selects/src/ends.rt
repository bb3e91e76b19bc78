//! What declared types are in the end, behind all names.

ghost use Rattle.std.specs.Prelude.{◌≡◌};
ghost use Rattle.ex_named.specs.declared.expression.NamedDataType.{out-NamedDataType};
ghost use Rattle.ex_selects.specs.Ends as spec;
ghost use Rattle.ex_selects.specs.Seen.{seen, seen_target};

use ex_named::{NamedDataType, NamedUnderlying, TypeName};
use ex_renamings::Renamings;
use ex_tree::SimpleType;
use rp_value::AggregateKind;

/// A type behind all names.
#[derive(Clone, Copy)]
pub enum Base<'s> {
    Plain(SimpleType),
    Instance,
    /// With the index of the first element, and the type of each.
    Aggregate(AggregateKind, i64, &'s NamedDataType),
    /// The enumeration of this number.
    Enumeration(usize),
    /// The SELECT of this number.
    Select(usize),
    /// What files write no value of.
    Nothing,
}

/// A type as a value is read by it.
#[derive(Clone, Copy)]
pub struct Target<'s> {
    /// The defined type whose name may stand before the value.
    pub name: Option<usize>,
    /// What it is in the end.
    pub base: Base<'s>,
}

/// The simple type, or the aggregate, that a type is which isn't a defined one.
fn base_by_form(data_type: &NamedDataType) -> Base<'_>
    ensures { seen result ≡ spec.base_by_form (out-NamedDataType data_type.now) }
{
    match data_type {
        NamedDataType::Simple(simple) => Base::Plain(*simple),
        NamedDataType::Named(TypeName::Entity(_)) => Base::Instance,
        NamedDataType::Array {
            bounds,
            optional: _,
            unique: _,
            element,
        } => array_from(bounds.low, element.get()),
        NamedDataType::List {
            bounds: _,
            unique: _,
            element,
        } => Base::Aggregate(AggregateKind::List, 1, element.get()),
        NamedDataType::Bag { bounds: _, element } => {
            Base::Aggregate(AggregateKind::Bag, 1, element.get())
        }
        NamedDataType::Set { bounds: _, element } => {
            Base::Aggregate(AggregateKind::Set, 1, element.get())
        }
        NamedDataType::Named(TypeName::Defined(_))
        | NamedDataType::Aggregate(_)
        | NamedDataType::Generic => Base::Nothing,
    }
}

fn array_from(low: u64, element: &NamedDataType) -> Base<'_>
    ensures { seen result ≡ spec.array_from low element.now }
{
    match i64::try_from(low) {
        Ok(low) => Base::Aggregate(AggregateKind::Array, low, element),
        Err(_) => Base::Nothing,
    }
}

fn base_by(number: usize, underlying: &NamedUnderlying) -> Base<'_>
    ensures { seen result ≡ spec.base_by number underlying.now }
{
    match underlying {
        NamedUnderlying::Enumeration(_) => Base::Enumeration(number),
        NamedUnderlying::Select(_) => Base::Select(number),
        NamedUnderlying::Data(data_type) => base_by_form(data_type),
    }
}

/// What a defined type is in the end.
pub fn base_of<'s>(types: &Renamings<'s>, number: usize) -> Base<'s>
    ensures { seen result ≡ spec.base_of types.now number }
{
    let end = types.end(number);
    match types.types().get(end) {
        Some(declared) => base_by(end, &declared.underlying),
        None => Base::Nothing,
    }
}

/// A declared type, as a value is read by it.
#[tactic(auto, unfolding(crate::specs::Ends::target))]
pub fn target_of<'s>(types: &Renamings<'s>, data_type: &'s NamedDataType) -> Target<'s>
    ensures { seen_target result ≡ spec.target types.now data_type.now }
{
    match data_type {
        NamedDataType::Named(TypeName::Defined(number)) => Target {
            name: Some(*number),
            base: base_of(types, *number),
        },
        _ => Target {
            name: None,
            base: base_by_form(data_type),
        },
    }
}

/// The type without its name, where it is a SELECT.
fn beneath(target: Target<'_>) -> Target<'_>
    ensures { seen_target result ≡ spec.beneath (seen_target target.entry) }
{
    let Target { name, base } = target;
    match base {
        Base::Select(number) => Target {
            name: None,
            base: Base::Select(number),
        },
        base => Target { name, base },
    }
}

fn inside_by<'s>(
    types: &Renamings<'s>,
    number: usize,
    underlying: &'s NamedUnderlying,
) -> Target<'s>
    ensures { seen_target result ≡ spec.inside_by types.now number underlying.now }
{
    match underlying {
        NamedUnderlying::Data(data_type) => beneath(target_of(types, data_type)),
        _ => Target {
            name: None,
            base: base_by(number, underlying),
        },
    }
}

/// What stands behind the name of a defined type.
#[tactic(auto, unfolding(crate::specs::Ends::inside))]
pub fn inside<'s>(types: &Renamings<'s>, number: usize) -> Target<'s>
    ensures { seen_target result ≡ spec.inside types.now number }
{
    match types.types().get(number) {
        Some(declared) => inside_by(types, number, &declared.underlying),
        None => Target {
            name: None,
            base: Base::Nothing,
        },
    }
}
