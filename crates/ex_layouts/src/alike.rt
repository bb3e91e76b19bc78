//! Lists that are compared one by one.

ghost use Rattle.std.specs.Prelude.{◌≡◌, IsTrue};

/// Whether the eight bytes are the same, which is told of both as numbers.
fn are_same_eight(bytes: &[u8; 8], others: &[u8; 8]) -> bool
    ensures { IsTrue result → bytes.now ≡ others.now }
{
    u64::from_le_bytes(*bytes) == u64::from_le_bytes(*others)
}

/// Whether the four bytes are the same.
fn are_same_four(bytes: &[u8; 4], others: &[u8; 4]) -> bool
    ensures { IsTrue result → bytes.now ≡ others.now }
{
    u32::from_le_bytes(*bytes) == u32::from_le_bytes(*others)
}

/// Whether the few bytes are the same.
fn are_alike_bytes(mut bytes: &[u8], mut others: &[u8]) -> bool
    ensures { IsTrue result → bytes.entry.now ≡ others.entry.now }
{
    'bytes: while let [byte, more @ ..] = bytes {
        let [other, more_others @ ..] = others else {
            return false;
        };
        if *byte != *other {
            return false;
        }
        bytes = more;
        others = more_others;
    }
    others.is_empty()
}

/// Whether fewer than eight bytes are the same.
fn are_alike_below_eight(bytes: &[u8], others: &[u8]) -> bool
    ensures { IsTrue result → bytes.now ≡ others.now }
{
    let Some((four, more)) = bytes.split_first_chunk::<4>() else {
        return are_alike_bytes(bytes, others);
    };
    match others.split_first_chunk::<4>() {
        Some((other, more_others)) => {
            are_same_four(four, other) && are_alike_bytes(more, more_others)
        },
        None => false,
    }
}

/// Whether the bytes are the same. Keywords are short: eight bytes at once, then four.
pub fn are_alike(mut bytes: &[u8], mut others: &[u8]) -> bool
    ensures { IsTrue result → bytes.entry.now ≡ others.entry.now }
{
    'eights: while let Some((eight, more)) = bytes.split_first_chunk::<8>() {
        let Some((other, more_others)) = others.split_first_chunk::<8>() else {
            return false;
        };
        if !are_same_eight(eight, other) {
            return false;
        }
        bytes = more;
        others = more_others;
    }
    are_alike_below_eight(bytes, others)
}

/// Whether the numbers are the same.
pub fn are_same(numbers: &[usize], others: &[usize]) -> bool
    ensures { IsTrue result → numbers.now ≡ others.now }
{
    numbers == others
}
