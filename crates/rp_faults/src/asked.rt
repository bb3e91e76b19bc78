//! What types ask of the elements of aggregates, and of what is no aggregate.

ghost use Rattle.std.specs.Prelude.{◌≡◌, ◌+◌, ◌==◌, ◌&&◌, not, ◌||◌, true, IfOk, map, length};
ghost use Rattle.std.specs.Fmt.{char_count};
ghost use Rattle.std.specs.List.{list_any};
ghost use Rattle.ex_named.specs.declared.expression.NamedDataType.{out-NamedDataType};
ghost use Rattle.rp_meaning.specs.Bare.{is_indeterminate};
ghost use Rattle.rp_meaning.specs.Faults as spec;
ghost use Rattle.rp_meaning.specs.Reading.{present};
ghost use Rattle.rp_operators.specs.Ends.{end_behind};
ghost use Rattle.rp_faults.specs.Tests.{test_behind};
ghost use Rattle.rp_value.specs.declared.value.Value.{out-Value};

use crate::twice::breaks_unique;
use ex_named::NamedDataType;
use ex_tree::{ArrayBounds, SimpleType, Width};
use rp_operators::{End, holds_count, is_indeterminate};
use rp_value::{Characters, Value};
use std::alloc::{AllocError, Global};

/// What is asked.
#[derive(Clone, Copy)]
pub(crate) enum Asked {
    /// That all elements are set that have to be.
    Set,
    /// Bounds and widths, in a population of so many instances.
    Bounds(usize),
}

// ---- that elements are set

fn has_indeterminate(items: &[Value]) -> bool
    ensures { result ≡ list_any is_indeterminate items.now }
{
    items.iter().any(|item| is_indeterminate(item))
}

/// Whether an element isn't set that has to be.
fn lacks_element(data_type: &NamedDataType, items: &[Value]) -> bool
    ensures { result ≡ spec.lacks_element (out-NamedDataType data_type.now) items.now }
{
    match data_type {
        NamedDataType::Array {
            bounds: _,
            optional,
            unique: _,
            element: _,
        } => !*optional && has_indeterminate(items),
        NamedDataType::List {
            bounds: _,
            unique: _,
            element: _,
        } => has_indeterminate(items),
        NamedDataType::Bag {
            bounds: _,
            element: _,
        } => has_indeterminate(items),
        NamedDataType::Set {
            bounds: _,
            element: _,
        } => has_indeterminate(items),
        _ => false,
    }
}

// ---- bounds and widths

/// Whether there is an element for each index.
fn fills(bounds: ArrayBounds, count: usize) -> bool
    ensures { result ≡ (count + bounds.low == bounds.high + 1) }
{
    count as u128 + bounds.low as u128 == bounds.high as u128 + 1
}

/// Whether there are as many elements as there may be, and none twice where none may.
fn breaks(
    alloc: Global,
    is_count: bool,
    is_unique: bool,
    items: &[Value],
    count: usize,
) -> Result<bool, AllocError>
    ensures { IfOk result (λ b. b ≡ (not is_count || is_unique && spec.has_twice (map (present count) items.now))) }
{
    if is_count {
        breaks_unique(alloc, is_unique, items, count)
    } else {
        Ok(true)
    }
}

/// Whether elements break the bounds of their aggregate.
#[tactic(auto, using(crate::proofs::Repeated::as_many))]
fn breaks_bounds(
    alloc: Global,
    data_type: &NamedDataType,
    items: &[Value],
    count: usize,
) -> Result<bool, AllocError>
    ensures { IfOk result (λ b. b ≡ spec.breaks_bounds (out-NamedDataType data_type.now) (map (present count) items.now)) }
{
    match data_type {
        NamedDataType::Array {
            bounds,
            optional: _,
            unique,
            element: _,
        } => breaks(alloc, fills(*bounds, items.len()), *unique, items, count),
        NamedDataType::List {
            bounds,
            unique,
            element: _,
        } => breaks(
            alloc,
            holds_count(*bounds, items.len()),
            *unique,
            items,
            count,
        ),
        NamedDataType::Bag { bounds, element: _ } => Ok(!holds_count(*bounds, items.len())),
        NamedDataType::Set { bounds, element: _ } => {
            breaks(alloc, holds_count(*bounds, items.len()), true, items, count)
        }
        _ => Ok(false),
    }
}

fn breaks_width(width: Option<Width>, count: usize) -> bool
    ensures { result ≡ spec.breaks_width width count }
{
    match width {
        None => false,
        Some(width) => {
            let count = count as u64;
            width.length < count || (width.fixed && count < width.length)
        }
    }
}

/// Characters are counted only where there is a width.
#[tactic(auto, using(rp_operators::proofs::Characters::counts))]
fn breaks_text(width: Option<Width>, text: &Characters) -> bool
    ensures { result ≡ spec.breaks_width width (char_count text.now) }
{
    match width {
        None => false,
        Some(_) => breaks_width(width, text.count()),
    }
}

fn breaks_simple(simple: SimpleType, value: &Value) -> bool
    ensures { result ≡ spec.breaks_simple simple (out-Value value.now) }
{
    match (simple, value) {
        (SimpleType::String(width), Value::Str(text)) => breaks_text(width, text),
        (SimpleType::Binary(width), Value::Bin(bits)) => breaks_width(width, bits.as_slice().len()),
        _ => false,
    }
}

// ---- both

impl Asked {
    ghost use Rattle.std.specs.Prelude.{◌≡◌, IfOk};
    ghost use Rattle.ex_named.specs.declared.expression.NamedDataType.{out-NamedDataType};
    ghost use Rattle.rp_meaning.specs.Faults as spec;
    ghost use Rattle.rp_operators.specs.Ends.{end_behind};
    ghost use Rattle.rp_faults.specs.Tests.{test_behind};
    ghost use Rattle.rp_value.specs.declared.value.Value.{out-Value};

    fn of_written(
        self,
        alloc: Global,
        data_type: &NamedDataType,
        items: &[Value],
    ) -> Result<bool, AllocError>
        ensures { IfOk result (λ b. b ≡ (test_behind self).of_elements (out-NamedDataType data_type.now) items.now) }
    {
        match self {
            Asked::Set => Ok(lacks_element(data_type, items)),
            Asked::Bounds(count) => breaks_bounds(alloc, data_type, items, count),
        }
    }

    /// Whether the elements of an aggregate are at fault.
    pub(crate) fn of_elements(
        self,
        alloc: Global,
        end: End<'_>,
        items: &[Value],
    ) -> Result<bool, AllocError>
        ensures { IfOk result (λ b. b ≡ spec.elements_by (test_behind self) (end_behind end.entry) items.now) }
    {
        match end {
            End::Written(data_type) => self.of_written(alloc, data_type, items),
            _ => Ok(false),
        }
    }

    fn of_simple(self, simple: SimpleType, value: &Value) -> bool
        ensures { result ≡ (test_behind self).of_simple simple (out-Value value.now) }
    {
        match self {
            Asked::Set => false,
            Asked::Bounds(_) => breaks_simple(simple, value),
        }
    }

    /// Whether what is no aggregate is at fault.
    pub(crate) fn of_scalar(self, end: End<'_>, value: &Value) -> bool
        ensures { result ≡ spec.scalar_by (test_behind self) (end_behind end.entry) (out-Value value.now) }
    {
        match end {
            End::Written(NamedDataType::Simple(simple)) => self.of_simple(*simple, value),
            _ => false,
        }
    }
}
