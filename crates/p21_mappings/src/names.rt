//! The names of a file's instances, and those that are linked.

ghost use Rattle.std.specs.Prelude.{◌≡◌, ◌++◌, ℕ, Bool, true, IfOk, IsTrue};
ghost use Rattle.std.specs.List.Sorted.{IsPermutation, IsSorted};
ghost use Rattle.std.specs.Ordering.{nat_cmp};
ghost use Rattle.plain_data.specs.Numbers.{is_among};
ghost use Rattle.p21_instances.specs.Instances as spec;

use p21_tree::Instance;
use std::alloc::{AllocError, Global};
use std::marker::Model;

/// What references may name.
pub trait DefinedNames {
    ghost is_defined: { Self → ℕ → Bool };

    /// Whether a reference may name it.
    fn has(&self, name: u64) -> bool
        ensures { result ≡ is_defined self.now name };
}

/// Every name.
pub struct AnyName;

impl DefinedNames for AnyName {
    ghost is_defined = { λ all name. true };

    fn has(&self, _name: u64) -> bool {
        true
    }
}

/// Names in order. One stands as often as instances of the file, or links, have it.
#[derive(Drop)]
pub struct Names {
    numbers: Vec<u64>,
    /// How far apart two of them lie about.
    step: u64,
}

impl Model for Names {
    ghost use Rattle.std.specs.Prelude.{List, ℕ};
    ghost use Rattle.std.specs.List.Sorted.{IsSorted};
    ghost use Rattle.std.specs.Ordering.{nat_cmp};

    ghost Value = { List ℕ };

    ghost view = { λ n. n.numbers.items };

    ghost invariant = { λ n. IsSorted nat_cmp n.numbers.items };
}

/// The names of these instances, in order.
fn sorted(alloc: Global, instances: &[Instance<'_>]) -> Result<Vec<u64>, AllocError>
    ensures same { IfOk result (λ numbers. IsPermutation (spec.names instances.now) numbers.items) }
    ensures sorted { IfOk result (λ numbers. IsSorted nat_cmp numbers.items) }
{
    let mut numbers = Vec::with_capacity(alloc, instances.len())?;
    for instance in instances {
        numbers.push(instance.name)?;
    }
    numbers.sort_unstable();
    Ok(numbers)
}

/// How far apart two of the numbers lie about, of which the first is the least and the last the greatest.
fn step_of(numbers: &[u64]) -> u64 {
    let (Some(first), Some(last)) = (numbers.first(), numbers.last()) else {
        return 1;
    };
    let count = numbers.len() as u64;
    last.wrapping_sub(*first)
        .wrapping_add(1)
        .checked_div(count)
        .unwrap_or(1)
}

/// Where the name stands if the numbers lie as far apart everywhere.
fn place_of(numbers: &[u64], step: u64, name: u64) -> usize {
    match numbers.first() {
        Some(first) => name.wrapping_sub(*first).checked_div(step).unwrap_or(0) as usize,
        None => 0,
    }
}

/// Whether the name stands in this place.
fn stands_at(numbers: &[u64], place: usize, name: u64) -> bool
    ensures { IsTrue result → IsTrue (is_among numbers.now name) }
{
    match numbers.get(place) {
        Some(number) => *number == name,
        None => false,
    }
}

/// Whether the name is one of the numbers, which are in order.
fn stands(numbers: &[u64], name: u64) -> bool
    requires { IsSorted nat_cmp numbers.now }
    ensures { result ≡ is_among numbers.now name }
{
    numbers.binary_search(&name).is_ok()
}

impl Names {
    ghost use Rattle.std.specs.Prelude.{◌≡◌, ◌==◌, not, IfOk};
    ghost use Rattle.std.specs.List.Sorted.{IsPermutation};
    ghost use Rattle.p21_instances.specs.Instances as spec;

    /// The names of the instances.
    pub fn of(alloc: Global, instances: &[Instance<'_>]) -> Result<Names, AllocError>
        ensures { IfOk result (λ names. IsPermutation (spec.names instances.now) names) }
    {
        let numbers = sorted(alloc, instances)?;
        let step = step_of(&numbers);
        Ok(Names { numbers, step })
    }

    /// These numbers.
    pub fn of_numbers(mut numbers: Vec<u64>) -> Names
        ensures { IsPermutation numbers.items result }
    {
        numbers.sort_unstable();
        let step = step_of(&numbers);
        Names { numbers, step }
    }

    /// A copy of these numbers.
    pub fn of_slice(alloc: Global, numbers: &[u64]) -> Result<Names, AllocError>
        ensures { IfOk result (λ names. IsPermutation numbers.now names) }
    {
        Ok(Names::of_numbers(Vec::from_slice(alloc, numbers)?))
    }

    /// Whether none of them stands twice.
    pub fn are_distinct(&self) -> bool
        ensures { result ≡ not (spec.has_twice (λ m n. m == n) self.now) }
    {
        self.numbers.is_sorted_by(|a, b| *a < *b)
    }
}

impl DefinedNames for Names {
    ghost is_defined = { is_among };

    fn has(&self, name: u64) -> bool {
        // Names mostly follow each other at one distance.
        let place = place_of(&self.numbers, self.step, name);
        stands_at(&self.numbers, place, name) || stands(&self.numbers, name)
    }
}

/// What the instances of a file may refer to: the names of the file, and those that are linked.
#[derive(Drop)]
pub struct Defined<'a> {
    file: &'a Names,
    linked: &'a Names,
}

impl<'a> Model for Defined<'a> {
    ghost use Rattle.std.specs.Prelude.{List, ℕ, ◌++◌};

    ghost Value = { List ℕ };

    ghost view = { λ d. d.file.now ++ d.linked.now };
}

impl<'a> Defined<'a> {
    pub fn of(file: &'a Names, linked: &'a Names) -> Defined<'a>
        ensures { result ≡ file.now ++ linked.now }
    {
        Defined { file, linked }
    }
}

impl<'a> DefinedNames for Defined<'a> {
    ghost is_defined = { is_among };

    fn has(&self, name: u64) -> bool {
        self.file.has(name) || self.linked.has(name)
    }
}
