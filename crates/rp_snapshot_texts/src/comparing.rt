//! The text of rows, compared with bytes. One row's text is held at a time.

ghost use Rattle.std.specs.Prelude.{◌≡◌, ◌≢◌, ◌++◌, ℕ, List, IfOk, MatchOption};
ghost use Rattle.std.specs.Bool.{MatchBool};
ghost use Rattle.rp_snapshot_texts.specs.Texts.{rows_text};
ghost use Rattle.rp_snapshot_texts.specs.Pieces.{group_pieces, model_pieces};

use crate::pieces::{group_piece, model_piece};
use crate::version::Version;
use rp_index::Indexed;
use rp_rows::rows::Listing;
use rp_sight::Table;
use std::alloc::{AllocError, Global};

/// What follows the piece, if the bytes begin with it.
pub fn behind<'a>(bytes: &'a [u8], piece: &[u8]) -> Option<&'a [u8]>
    ensures { MatchOption result ((rest : List ℕ) → bytes.now ≡ piece.now ++ rest → ⊥) (λ rest. bytes.now ≡ piece.now ++ rest.now) }
{
    bytes.strip_prefix(piece)
}

/// What follows the groups, if the bytes begin with them.
fn behind_groups<'a>(
    alloc: Global,
    groups: &Table<'_, Listing>,
    bytes: &'a [u8],
) -> Result<Option<&'a [u8]>, AllocError>
    ensures { IfOk result (λ found. MatchOption found ((rest : List ℕ) → bytes.now ≡ group_pieces groups.now.rows ++ rest → ⊥) (λ rest. bytes.now ≡ group_pieces groups.now.rows ++ rest.now)) }
{
    let mut left = bytes;
    let mut later = false;
    for place in 0..groups.len() {
        let piece = group_piece(alloc, later, &groups.row(place))?;
        match behind(left, &piece) {
            Some(rest) => left = rest,
            None => return Ok(None),
        }
        later = true;
    }
    Ok(Some(left))
}

/// What follows the models, if the bytes begin with them.
fn behind_models<'a, V: Version>(
    alloc: Global,
    version: &V,
    models: &Table<'_, Indexed>,
    bytes: &'a [u8],
) -> Result<Option<&'a [u8]>, AllocError>
    ensures { IfOk result (λ found. MatchOption found ((rest : List ℕ) → bytes.now ≡ model_pieces (V.writes version.now) models.now.rows ++ rest → ⊥) (λ rest. bytes.now ≡ model_pieces (V.writes version.now) models.now.rows ++ rest.now)) }
{
    let mut left = bytes;
    let mut later = false;
    for place in 0..models.len() {
        let piece = model_piece(alloc, version, later, &models.row(place))?;
        match behind(left, &piece) {
            Some(rest) => left = rest,
            None => return Ok(None),
        }
        later = true;
    }
    Ok(Some(left))
}

/// Whether the bytes are the text of the rows.
///
/// # Errors
///
/// There is no memory for the text of a row.
pub fn is_text_of<V: Version>(
    alloc: Global,
    version: &V,
    groups: &Table<'_, Listing>,
    models: &Table<'_, Indexed>,
    bytes: &[u8],
) -> Result<bool, AllocError>
    ensures { IfOk result (λ same. let text = rows_text (V.number version.now) (V.writes version.now) groups.now.rows models.now.rows in MatchBool same (bytes.now ≡ text) (bytes.now ≢ text)) }
{
    let Some(left) = behind(bytes, version.first_line()) else {
        return Ok(false);
    };
    let Some(left) = behind(left, b"{\"groups\":[") else {
        return Ok(false);
    };
    let Some(left) = behind_groups(alloc, groups, left)? else {
        return Ok(false);
    };
    let Some(left) = behind(left, b"],\"models\":[") else {
        return Ok(false);
    };
    let Some(left) = behind_models(alloc, version, models, left)? else {
        return Ok(false);
    };
    Ok(left == b"]}".as_slice())
}
