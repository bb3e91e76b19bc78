//! Hashes of names.

ghost use Rattle.std.specs.Prelude.{◌≡◌};
ghost use Rattle.name_tables.specs.Hashes as spec;

/// The hash with one byte more.
#[tactic(auto, unfolding(crate::specs::Hashes::mixed))]
fn mixed(hash: u64, byte: u8) -> u64
    ensures { result ≡ spec.mixed hash byte }
{
    hash.wrapping_mul(0x100_0000_01B3).wrapping_add(byte as u64)
}

/// A number that few names share.
pub(crate) fn hash_of(name: &[u8]) -> u64
    ensures { result ≡ spec.hash_of name.now }
{
    let mut hash = 0;
    for byte in name {
        hash = mixed(hash, *byte);
    }
    hash
}
