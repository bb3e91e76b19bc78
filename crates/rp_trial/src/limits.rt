//! Limits of steps, as words of a command line name them.

ghost use Rattle.std.specs.Prelude.{◌≡◌, map, option_map, IfOk};
ghost use Rattle.std.specs.String.{string_bytes};
ghost use Rattle.rp_trial.specs.Limits as spec;

use rp_numbers::{are_digits, number_after};
use std::alloc::{AllocError, Global};

const MOST: u128 = 18_446_744_073_709_551_615;

/// The limit that digits write, where 64 bits hold it.
#[tactic(auto, unfolding(crate::specs::Limits::limit_of))]
fn limit_of(word: &[u8]) -> Option<usize>
    ensures { result ≡ spec.limit_of word.now }
{
    if word.is_empty() || !are_digits(word) {
        return None;
    }
    let Some(limit) = number_after(0, word, MOST) else {
        return None;
    };
    Some(limit as usize)
}

/// The limits that words name; none where one of them names no limit.
pub fn limits_of(alloc: Global, words: &[String]) -> Result<Option<Vec<usize>>, AllocError>
    ensures { IfOk result (λ limits. option_map (λ l. l.items) limits ≡ spec.limits_of (map string_bytes words.now)) }
{
    let mut limits = Vec::new(alloc);
    for word in words {
        match limit_of(word.as_bytes()) {
            Some(limit) => limits.push(limit)?,
            None => return Ok(None),
        }
    }
    Ok(Some(limits))
}
