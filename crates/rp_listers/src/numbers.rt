//! Numbers of keys.
#![tactic(auto, unfolding(crate::specs::Kept::number_of))]

ghost use Rattle.std.specs.Prelude.{◌≡◌, ◌==◌};
ghost use Rattle.std.specs.List.{list_any};
ghost use Rattle.sha2.specs.Sha256.{sha256};
ghost use Rattle.rp_listers.specs.Kept as kept;

use rp_rows::rows::Key;
use sha2::{Digest, Sha256};

/// The digest of owner and name, with a byte between them that no name has.
fn digest_of(key: &Key) -> [u8; 32]
    ensures { result ≡ sha256 (kept.joined_text key.now) }
{
    let mut hasher = Sha256::new();
    hasher.update(key.owner.as_bytes());
    hasher.update(b"/");
    hasher.update(key.name.as_bytes());
    hasher.finalize()
}

/// A number that few keys share, so that the key itself needn't be kept: who asks for a model of one is told of the groups of each.
/// Partners pick the names. Of a digest's first eight bytes they find two alike in 2^32 tries, and many alike in no time there is;
/// a number that is sooner made would let many models stand in one place.
pub fn number_of(key: &Key) -> u64
    ensures { result ≡ kept.number_of key.now }
{
    let digest = digest_of(key);
    u64::from_be_bytes([
        digest[0], digest[1], digest[2], digest[3], digest[4], digest[5], digest[6], digest[7],
    ])
}

/// Whether one of the keys has the number.
pub(crate) fn has_number(number: u64, keys: &[Key]) -> bool
    ensures { result ≡ list_any (λ k. kept.number_of k == number) keys.now }
{
    keys.iter().any(|key| number_of(key) == number)
}
