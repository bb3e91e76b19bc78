//! Bounds of aggregates.

ghost use Rattle.std.specs.Prelude.{◌≡◌};
ghost use Rattle.rp_meaning.specs.Outcomes as spec;

use ex_tree::Bounds;

/// Whether there may be so many elements.
pub fn holds_count(bounds: Bounds, count: usize) -> bool
    ensures { result ≡ spec.holds_count bounds count }
{
    let count = count as u64;
    bounds.low <= count
        && match bounds.high {
            Some(high) => count <= high,
            None => true,
        }
}
