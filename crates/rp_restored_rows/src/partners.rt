//! Partners, found by halving.

ghost use Rattle.std.specs.Prelude.{◌≡◌, ◌≤◌, length};
ghost use Rattle.rp_plain.specs.Meaning as meaning;

use plain_data::Text;
use std::alloc::{AllocError, Global};

/// The places of partners in the order of their names. It only says where a search begins: nothing is taken from it.
#[derive(Drop)]
pub struct PartnerOrder {
    places: Vec<usize>,
}

impl PartnerOrder {
    /// The places of these partners, by their names.
    pub fn of(alloc: Global, partners: &[Text]) -> Result<PartnerOrder, AllocError> {
        let mut places: Vec<usize> = (0..partners.len()).collect(alloc)?;
        places.sort_unstable_by_key(|place| name_at(partners, *place));
        Ok(PartnerOrder { places })
    }

    /// Where a partner of this name stands, if there is one, and at most how many there are.
    fn start(&self, partners: &[Text], name: &Text) -> usize
        ensures { result ≤ length partners.now }
    {
        let before = self
            .places
            .partition_point(|place| name_at(partners, *place) < Some(name.as_str()));
        let start = self.places.get(before).copied().unwrap_or(0);
        start.min(partners.len())
    }
}

fn name_at(partners: &[Text], place: usize) -> Option<&str> {
    partners.get(place).map(|partner| partner.as_str())
}

fn any_is(texts: &[Text], text: &Text) -> bool
    ensures { result ≡ meaning.has_text texts.now text.now }
{
    texts.iter().any(|other| text.is(other))
}

/// Whether there is a partner of this name. The search begins where it should stand.
pub(crate) fn has(partners: &[Text], order: &PartnerOrder, name: &Text) -> bool
    ensures { result ≡ meaning.has_text partners.now name.now }
{
    let (others, from) = partners.split_at(order.start(partners, name));
    any_is(from, name) || any_is(others, name)
}
