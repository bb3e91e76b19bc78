//! The order of numbers with powers of ten.

ghost use Rattle.std.specs.Prelude.{◌≡◌, ◌≤◌, ◌*◌, ◌^◌};
ghost use Rattle.std.specs.Ordering.{nat_cmp};

use std::cmp::Ordering;

/// How `m` stands to `n * 10^places`.
fn compare_raised(m: u128, n: u128, places: u16) -> Ordering
    ensures { result ≡ nat_cmp m (n * 10 ^ places) }
{
    let mut raised = n;
    for _place in 0..places {
        let Some(next) = raised.checked_mul(10) else {
            return Ordering::Less;
        };
        raised = next;
    }
    m.cmp(&raised)
}

/// How `m * 10^m_places` stands to `n * 10^n_places`.
pub(crate) fn compare_magnitudes(m: u128, m_places: u16, n: u128, n_places: u16) -> Ordering
    ensures { result ≡ nat_cmp (m * 10 ^ m_places) (n * 10 ^ n_places) }
{
    if m_places <= n_places {
        compare_raised(m, n, n_places - m_places)
    } else {
        compare_raised(n, m, m_places - n_places).reverse()
    }
}
