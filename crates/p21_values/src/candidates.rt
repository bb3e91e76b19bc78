//! Which of the aggregates that a list may be of takes it.

ghost use Rattle.std.specs.Prelude.{◌≡◌};
ghost use Rattle.p21_values.specs.Deciding as spec;

use ex_selects::Candidate;

/// Whether it is true at the place.
pub fn at(taken: &[bool], place: usize) -> bool
    ensures { result ≡ spec.at taken.now place }
{
    match taken.get(place) {
        Some(taken) => *taken,
        None => false,
    }
}

/// The only one of a group whose elements' type is taken.
pub fn only_candidate(group: &[Candidate], taken: &[bool]) -> Option<Candidate>
    ensures { result ≡ spec.only_candidate group.now taken.now }
{
    let mut found = None;
    for candidate in group {
        if at(taken, candidate.place) {
            if found.is_some() {
                return None;
            }
            found = Some(*candidate);
        }
    }
    found
}
