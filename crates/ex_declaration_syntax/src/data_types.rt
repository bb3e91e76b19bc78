//! Types (ISO 10303-11:1994, clause 8). The type of an aggregate's elements is a parameter, so that each form is
//! proved by itself.

ghost use Rattle.std.specs.Prelude.{◌<◌};
ghost use Rattle.text_forms.specs.Reads.{Reads, Takes, Keeps};
ghost use Rattle.ex_forms.specs.Nests.{Nests};
ghost use Rattle.ex_declaration_syntax.specs.DataTypes as spec;

use ex_forms::{Cursor, Read, name, whole};
use ex_tree::{ArrayBounds, Bounds, DataType, SimpleType, TokenKind, Width};
use plain_data::{Boxed, Failure};
use std::alloc::Global;

#[tactic(auto, unfolding(crate::specs::DataTypes::width_spec))]
fn width_spec(cursor: &mut Cursor<'_>, levels: u8) -> Read<Width>
    ensures reads { Reads (spec.width_spec levels cursor.old) result cursor.new }
    ensures takes { Takes result cursor.old cursor.new }
{
    cursor.enter(levels, TokenKind::OpenParenthesis)?;
    let length = whole(cursor)?;
    cursor.expect(TokenKind::CloseParenthesis)?;
    let fixed = cursor.eat(TokenKind::Fixed);
    Ok(Width { length, fixed })
}

/// The width of a STRING or BINARY, if one stands next.
#[tactic(auto, unfolding(crate::specs::DataTypes::width))]
fn width(cursor: &mut Cursor<'_>, levels: u8) -> Read<Option<Width>>
    ensures reads { Reads (spec.width levels cursor.old) result cursor.new }
    ensures keeps { Keeps result cursor.old cursor.new }
{
    if !cursor.sees(TokenKind::OpenParenthesis) {
        return Ok(None);
    }
    Ok(Some(width_spec(cursor, levels)?))
}

#[tactic(auto, unfolding(crate::specs::DataTypes::array_bound_spec))]
fn array_bound_spec(cursor: &mut Cursor<'_>, levels: u8) -> Read<ArrayBounds>
    ensures reads { Reads (spec.array_bound_spec levels cursor.old) result cursor.new }
    ensures takes { Takes result cursor.old cursor.new }
{
    cursor.enter(levels, TokenKind::OpenBracket)?;
    let low = whole(cursor)?;
    cursor.expect(TokenKind::Colon)?;
    let high = whole(cursor)?;
    cursor.expect(TokenKind::CloseBracket)?;
    Ok(ArrayBounds { low, high })
}

#[tactic(auto, unfolding(crate::specs::DataTypes::high_bound))]
fn high_bound(cursor: &mut Cursor<'_>) -> Read<Option<u64>>
    ensures reads { Reads (spec.high_bound cursor.old) result cursor.new }
    ensures keeps { Keeps result cursor.old cursor.new }
{
    if cursor.eat(TokenKind::QuestionMark) {
        return Ok(None);
    }
    Ok(Some(whole(cursor)?))
}

#[tactic(auto, unfolding(crate::specs::DataTypes::bound_spec))]
fn bound_spec(cursor: &mut Cursor<'_>, levels: u8) -> Read<Bounds>
    ensures reads { Reads (spec.bound_spec levels cursor.old) result cursor.new }
    ensures takes { Takes result cursor.old cursor.new }
{
    cursor.enter(levels, TokenKind::OpenBracket)?;
    let low = whole(cursor)?;
    cursor.expect(TokenKind::Colon)?;
    let high = high_bound(cursor)?;
    cursor.expect(TokenKind::CloseBracket)?;
    Ok(Bounds { low, high })
}

/// The bounds of a LIST, BAG or SET, where so many levels are left.
#[tactic(auto, unfolding(crate::specs::DataTypes::optional_bounds))]
pub(crate) fn optional_bounds(cursor: &mut Cursor<'_>, levels: u8) -> Read<Bounds>
    ensures reads { Reads (spec.optional_bounds levels cursor.old) result cursor.new }
    ensures keeps { Keeps result cursor.old cursor.new }
{
    if !cursor.sees(TokenKind::OpenBracket) {
        return Ok(Bounds { low: 0, high: None });
    }
    bound_spec(cursor, levels)
}

/// The type whose only token is this word.
fn word(cursor: &mut Cursor<'_>, kind: TokenKind, simple_type: SimpleType) -> Read<SimpleType>
    ensures reads { Reads (spec.word kind simple_type cursor.old) result cursor.new }
    ensures takes { Takes result cursor.old cursor.new }
{
    cursor.expect(kind)?;
    Ok(simple_type)
}

#[tactic(auto, unfolding(crate::specs::DataTypes::simple_types))]
fn simple_types(cursor: &mut Cursor<'_>, levels: u8) -> Read<SimpleType>
    ensures reads { Reads (spec.simple_types levels cursor.old) result cursor.new }
    ensures takes { Takes result cursor.old cursor.new }
{
    match cursor.kind() {
        TokenKind::Binary => {
            cursor.expect(TokenKind::Binary)?;
            Ok(SimpleType::Binary(width(cursor, levels)?))
        }
        TokenKind::Boolean => word(cursor, TokenKind::Boolean, SimpleType::Boolean),
        TokenKind::Integer => word(cursor, TokenKind::Integer, SimpleType::Integer),
        TokenKind::Logical => word(cursor, TokenKind::Logical, SimpleType::Logical),
        TokenKind::Number => word(cursor, TokenKind::Number, SimpleType::Number),
        TokenKind::Real => word(cursor, TokenKind::Real, SimpleType::Real),
        TokenKind::String => {
            cursor.expect(TokenKind::String)?;
            Ok(SimpleType::String(width(cursor, levels)?))
        }
        _ => Err(Failure::Fault(cursor.refusal())),
    }
}

/// `: label`, of which nothing is kept, if one stands next.
#[tactic(auto, unfolding(crate::specs::DataTypes::optional_label))]
fn optional_label(cursor: &mut Cursor<'_>) -> Read<()>
    ensures reads { Reads (spec.optional_label cursor.old) result cursor.new }
    ensures keeps { Keeps result cursor.old cursor.new }
{
    if cursor.eat(TokenKind::Colon) {
        cursor.expect(TokenKind::Identifier)?;
    }
    Ok(())
}

#[tactic(auto, unfolding(crate::specs::DataTypes::generic_type))]
fn generic_type(cursor: &mut Cursor<'_>) -> Read<DataType>
    ensures reads { Reads (spec.generic_type cursor.old) result cursor.new }
    ensures takes { Takes result cursor.old cursor.new }
{
    cursor.expect(TokenKind::Generic)?;
    optional_label(cursor)?;
    Ok(DataType::Generic)
}

/// Reads types where so many levels are left.
#[derive(Clone, Copy)]
pub struct Types<E> {
    alloc: Global,
    /// Whether AGGREGATE and GENERIC may stand.
    general: bool,
    levels: u8,
    /// Reads a type, where so many levels are left.
    element_type: E,
}

impl<E: Fn(Global, &mut Cursor<'_>, u8) -> Read<DataType>> Types<E> {
    /// The type one level down.
    fn element(&self, cursor: &mut Cursor<'_>) -> Read<Boxed<DataType>>
        requires nests { Nests DataType self.now.levels (spec.below self.now.general self.now.levels) (E.pre self.now.element_type) (E.post self.now.element_type) }
        requires deeper { 0 < self.now.levels }
        ensures reads { Reads (spec.below self.now.general self.now.levels cursor.old) result cursor.new }
        ensures takes { Takes result cursor.old cursor.new }
    {
        let element = (self.element_type)(self.alloc, cursor, self.levels - 1)?;
        Ok(Boxed::new(self.alloc, element)?)
    }

    #[tactic(auto, unfolding(crate::specs::DataTypes::array_type))]
    fn array_type(&self, cursor: &mut Cursor<'_>) -> Read<DataType>
        requires { Nests DataType self.now.levels (spec.below self.now.general self.now.levels) (E.pre self.now.element_type) (E.post self.now.element_type) }
        ensures reads { Reads (spec.array_type self.now.levels (spec.below self.now.general self.now.levels) cursor.old) result cursor.new }
        ensures takes { Takes result cursor.old cursor.new }
    {
        cursor.enter(self.levels, TokenKind::Array)?;
        let bounds = array_bound_spec(cursor, self.levels - 1)?;
        cursor.expect(TokenKind::Of)?;
        let optional = cursor.eat(TokenKind::Optional);
        let unique = cursor.eat(TokenKind::Unique);
        let element = self.element(cursor)?;
        Ok(DataType::Array {
            bounds,
            optional,
            unique,
            element,
        })
    }

    #[tactic(auto, unfolding(crate::specs::DataTypes::list_type))]
    fn list_type(&self, cursor: &mut Cursor<'_>) -> Read<DataType>
        requires { Nests DataType self.now.levels (spec.below self.now.general self.now.levels) (E.pre self.now.element_type) (E.post self.now.element_type) }
        ensures reads { Reads (spec.list_type self.now.levels (spec.below self.now.general self.now.levels) cursor.old) result cursor.new }
        ensures takes { Takes result cursor.old cursor.new }
    {
        cursor.enter(self.levels, TokenKind::List)?;
        let bounds = optional_bounds(cursor, self.levels - 1)?;
        cursor.expect(TokenKind::Of)?;
        let unique = cursor.eat(TokenKind::Unique);
        let element = self.element(cursor)?;
        Ok(DataType::List {
            bounds,
            unique,
            element,
        })
    }

    #[tactic(auto, unfolding(crate::specs::DataTypes::bag_type))]
    fn bag_type(&self, cursor: &mut Cursor<'_>) -> Read<DataType>
        requires { Nests DataType self.now.levels (spec.below self.now.general self.now.levels) (E.pre self.now.element_type) (E.post self.now.element_type) }
        ensures reads { Reads (spec.bag_type self.now.levels (spec.below self.now.general self.now.levels) cursor.old) result cursor.new }
        ensures takes { Takes result cursor.old cursor.new }
    {
        cursor.enter(self.levels, TokenKind::Bag)?;
        let bounds = optional_bounds(cursor, self.levels - 1)?;
        cursor.expect(TokenKind::Of)?;
        let element = self.element(cursor)?;
        Ok(DataType::Bag { bounds, element })
    }

    #[tactic(auto, unfolding(crate::specs::DataTypes::set_type))]
    fn set_type(&self, cursor: &mut Cursor<'_>) -> Read<DataType>
        requires { Nests DataType self.now.levels (spec.below self.now.general self.now.levels) (E.pre self.now.element_type) (E.post self.now.element_type) }
        ensures reads { Reads (spec.set_type self.now.levels (spec.below self.now.general self.now.levels) cursor.old) result cursor.new }
        ensures takes { Takes result cursor.old cursor.new }
    {
        cursor.enter(self.levels, TokenKind::Set)?;
        let bounds = optional_bounds(cursor, self.levels - 1)?;
        cursor.expect(TokenKind::Of)?;
        let element = self.element(cursor)?;
        Ok(DataType::Set { bounds, element })
    }

    #[tactic(auto, unfolding(crate::specs::DataTypes::aggregate_type))]
    fn aggregate_type(&self, cursor: &mut Cursor<'_>) -> Read<DataType>
        requires { Nests DataType self.now.levels (spec.below self.now.general self.now.levels) (E.pre self.now.element_type) (E.post self.now.element_type) }
        ensures reads { Reads (spec.aggregate_type self.now.levels (spec.below self.now.general self.now.levels) cursor.old) result cursor.new }
        ensures takes { Takes result cursor.old cursor.new }
    {
        cursor.enter(self.levels, TokenKind::Aggregate)?;
        optional_label(cursor)?;
        cursor.expect(TokenKind::Of)?;
        Ok(DataType::Aggregate(self.element(cursor)?))
    }

    #[tactic(auto, unfolding(crate::specs::DataTypes::data_type_over))]
    pub fn data_type(&self, cursor: &mut Cursor<'_>) -> Read<DataType>
        requires { Nests DataType self.now.levels (spec.below self.now.general self.now.levels) (E.pre self.now.element_type) (E.post self.now.element_type) }
        ensures reads { Reads (spec.data_type_over self.now.levels (spec.below self.now.general self.now.levels) self.now.general cursor.old) result cursor.new }
        ensures takes { Takes result cursor.old cursor.new }
    {
        match cursor.kind() {
            TokenKind::Array => self.array_type(cursor),
            TokenKind::List => self.list_type(cursor),
            TokenKind::Bag => self.bag_type(cursor),
            TokenKind::Set => self.set_type(cursor),
            TokenKind::Aggregate if self.general => self.aggregate_type(cursor),
            TokenKind::Generic if self.general => generic_type(cursor),
            TokenKind::Aggregate | TokenKind::Generic => Err(Failure::Fault(cursor.refusal())),
            TokenKind::Identifier => Ok(DataType::Named(name(self.alloc, cursor)?)),
            _ => Ok(DataType::Simple(simple_types(cursor, self.levels)?)),
        }
    }
}

/// A type of an attribute, a constant, a local variable or a defined type, where so many levels are left.
pub(crate) fn base_type(alloc: Global, cursor: &mut Cursor<'_>, levels: u8) -> Read<DataType>
    ensures reads { Reads (spec.base_type levels cursor.old) result cursor.new }
    ensures takes { Takes result cursor.old cursor.new }
{
    Types {
        alloc,
        general: false,
        levels,
        element_type: base_type,
    }
    .data_type(cursor)
}

/// A type of a parameter or a result, where so many levels are left.
pub(crate) fn parameter_type(alloc: Global, cursor: &mut Cursor<'_>, levels: u8) -> Read<DataType>
    ensures reads { Reads (spec.parameter_type levels cursor.old) result cursor.new }
    ensures takes { Takes result cursor.old cursor.new }
{
    Types {
        alloc,
        general: true,
        levels,
        element_type: parameter_type,
    }
    .data_type(cursor)
}
