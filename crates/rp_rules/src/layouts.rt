//! Instances that have the same attributes.

ghost use Rattle.std.specs.Prelude.{◌≡◌, ◌<◌, Some, IsTrue, IfOk, OnOk};
ghost use Rattle.rp_rules.specs.Layouts as spec;

use ex_named::AttributePlace;
use plain_data::Items;
use rp_meaning::Domain;
use std::alloc::{AllocError, Global};

/// As many layouts are told apart, so that what they take doesn't grow with the instances.
const MOST_LAYOUTS: usize = 65_536;

/// Of as many sorts of instances the latest layout is noted.
const SORTS: usize = 1024;

/// The layouts of the first instances of a population, mostly of all: those of one layout have the same attributes in the same order.
#[derive(Drop)]
pub(crate) struct Layouts {
    /// Of each of these instances the number of its layout.
    pub(crate) numbers: Items<usize>,
    /// Of each layout the place of an instance that has it.
    pub(crate) examples: Items<usize>,
}

/// The attributes of which the instance at a place has values.
#[inline(always)]
pub(crate) fn attributes_at<D: Domain>(domain: &D, place: usize) -> &[AttributePlace]
    ensures { result.now ≡ spec.attributes_at (D.population domain.now) place }
{
    let Some(instance) = domain.instance(place) else {
        return &[];
    };
    let attributes = instance.attributes;
    let count = instance.written.len();
    if count < attributes.len() {
        &attributes[..count]
    } else {
        attributes
    }
}

/// Whether a number is that of the layout with these attributes.
fn is_layout<D: Domain>(
    domain: &D,
    examples: &Items<usize>,
    number: usize,
    attributes: &[AttributePlace],
) -> bool
    ensures { IsTrue result → spec.layout_at (D.population domain.now) examples.now number ≡ Some attributes.now }
{
    match examples.get(number) {
        Some(place) => attributes_at(domain, *place) == attributes,
        None => false,
    }
}

/// The number of the layout of the instance at a place, which has these attributes: the latest of its sort, or a new one.
fn number_of<D: Domain>(
    domain: &D,
    at: usize,
    attributes: &[AttributePlace],
    latest: &mut usize,
    examples: &mut Items<usize>,
) -> Result<usize, AllocError>
    requires { spec.attributes_at (D.population domain.now) at ≡ attributes.now }
    ensures number { IfOk result (λ number. spec.layout_at (D.population domain.now) examples.new number ≡ Some attributes.now) }
    ensures kept { OnOk result (spec.Keeps (D.population domain.now) examples.old examples.new) }
{
    if is_layout(domain, examples, *latest, attributes) {
        return Ok(*latest);
    }
    let number = examples.len();
    examples.push(at)?;
    *latest = number;
    Ok(number)
}

/// The sort of instances with these attributes: by the entity of the last.
fn sort_of(attributes: &[AttributePlace]) -> usize
    ensures { result < 1024 }
{
    match attributes.last() {
        Some(attribute) => attribute.entity % SORTS,
        None => 0,
    }
}

/// The layouts of so many instances, if there are not too many of these.
pub(crate) fn layouts_of<D: Domain>(
    alloc: Global,
    domain: &D,
    count: usize,
) -> Result<Layouts, AllocError>
    ensures { IfOk result (λ layouts. spec.Lays (D.population domain.now) layouts) }
{
    let mut latest = [0usize; SORTS];
    let mut found = Layouts {
        numbers: Items::from_vec(Vec::with_capacity(alloc, count)?),
        examples: Items::new(alloc),
    };
    for at in 0..count {
        if found.examples.len() == MOST_LAYOUTS {
            return Ok(found);
        }
        let attributes = attributes_at(domain, at);
        let latest = &mut latest[sort_of(attributes)];
        let number = number_of(domain, at, attributes, latest, &mut found.examples)?;
        found.numbers.push(number)?;
    }
    Ok(found)
}
