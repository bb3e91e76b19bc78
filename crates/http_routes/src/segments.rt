//! The segments of a path.
ghost use Rattle.std.specs.Prelude.{◌≡◌, ◌+◌, ◌<◌, [], ◌∷◌, length, take, drop, MatchOption};
ghost use Rattle.http_routes.specs.Paths.{segments, AreSegments};

use memchr::memchr;

/// The segments of a path, as many as a path that is known may have.
#[derive(Clone, Copy)]
pub(crate) enum Segments<'p> {
    One(&'p [u8]),
    Three(&'p [u8], &'p [u8], &'p [u8]),
    Four(&'p [u8], &'p [u8], &'p [u8], &'p [u8]),
    Other,
}

/// Where the first slash stands.
fn slash_at(path: &[u8]) -> Option<usize>
    ensures { MatchOption result (segments path.now ≡ path.now ∷ [])
        (λ at. (segments path.now ≡ take at path.now ∷ segments (drop (at + 1) path.now)) × (at < length path.now)) }
{
    memchr(b'/', path)
}

/// What stands before the first slash, and behind it.
fn cut(path: &[u8]) -> Option<(&[u8], &[u8])>
    ensures { MatchOption result (segments path.now ≡ path.now ∷ []) (λ parts. segments path.now ≡ parts.0.now ∷ segments parts.1.now) }
{
    match slash_at(path) {
        Some(at) => Some((&path[..at], &path[at + 1..])),
        None => None,
    }
}

/// All segments of a path.
#[tactic(auto, using(crate::proofs::Cutting::none_of_two, crate::proofs::Cutting::none_of_five))]
pub(crate) fn segments_of(path: &[u8]) -> Segments<'_>
    ensures { AreSegments (segments path.now) result }
{
    let Some((word, rest)) = cut(path) else {
        return Segments::One(path);
    };
    let Some((owner, rest)) = cut(rest) else {
        return Segments::Other;
    };
    let Some((name, rest)) = cut(rest) else {
        return Segments::Three(word, owner, rest);
    };
    match cut(rest) {
        Some(_) => Segments::Other,
        None => Segments::Four(word, owner, name, rest),
    }
}
