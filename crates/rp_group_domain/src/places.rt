//! Where the instances of a model stand, by their names.

ghost use Rattle.std.specs.Prelude.{◌≡◌, IsTrue};
ghost use Rattle.rp_group_domain.specs.Models as spec;

use rp_content::{Instance, Instances};
use sorted_tables::search;

/// Where the instance of a name stands; behind the last where none has it.
fn place_of(instances: &Instances, name: u64) -> usize
    ensures { result ≡ spec.place_of instances.now name }
{
    match search(instances.ordered(), &name) {
        Ok(place) => place,
        Err(_) => instances.len(),
    }
}

/// Whether the instance of a name stands there.
fn stands_at(instances: &Instances, place: usize, name: u64) -> bool
    ensures { IsTrue result → spec.place_of instances.now name ≡ place }
{
    match instances.ordered().get(place) {
        Some(instance) => instance.name == name,
        None => false,
    }
}

/// Where the instance of a name stands if all names between it and that of a place are taken.
fn expected_place(instances: &[Instance], from: usize, name: u64) -> usize {
    match instances.get(from) {
        Some(instance) if name < instance.name => {
            from.saturating_sub((instance.name - name) as usize)
        }
        Some(instance) => from.saturating_add((name - instance.name) as usize),
        None => from,
    }
}

/// Where the instance of a name stands between two places, if it does.
fn place_between(instances: &[Instance], from: usize, to: usize, name: u64) -> usize {
    let low = from.min(to);
    let high = from.max(to).min(instances.len());
    if low > high {
        return low;
    }
    match instances[low..high].binary_search_by_key(&name, |instance| instance.name) {
        Ok(place) => low.saturating_add(place),
        Err(_) => high,
    }
}

/// Where the instance of a name stands; behind the last where none has it. It is looked for first as far from a place as its name
/// is from the one there, and then between.
pub(crate) fn place_near(instances: &Instances, from: usize, name: u64) -> usize
    ensures { result ≡ spec.place_of instances.now name }
{
    let expected = expected_place(instances.as_slice(), from, name);
    if stands_at(instances, expected, name) {
        return expected;
    }
    let between = place_between(instances.as_slice(), from, expected, name);
    if stands_at(instances, between, name) {
        return between;
    }
    place_of(instances, name)
}
