//! Texts.

ghost use Rattle.std.specs.Prelude.{◌≡◌, ◌≤◌, ◌<◌, length, take, slice_get, slice_index, Some, IfOk};
ghost use Rattle.std.specs.List.{count_by};
ghost use Rattle.std.specs.List.Sorted.{IsNonDecreasing};
ghost use Rattle.std.specs.Fmt.{is_char_start, take_chars};
ghost use Rattle.rp_value.specs.Blocks.{block_starts};

use plain_data::{Items, Text};
use shared::Shared;
use std::alloc::{AllocError, Global};
use std::marker::Model;

/// Over how many bytes of a text the search for a character walks at most.
const BLOCK: usize = 256;

/// A text with the number of its characters.
#[derive(Drop)]
struct Counted {
    count: usize,
    text: Text,
}

/// A text with the number of characters before each of its blocks.
#[derive(Drop)]
struct Marked {
    counted: Counted,
    starts: Items<usize>,
}

/// What a text is held in: nothing if it is empty, and else one block of memory, with marks where the text is longer than a
/// walk and some character takes more than one byte.
enum Storage {
    Empty,
    Unmarked(Shared<Counted>),
    Marked(Shared<Marked>),
}

impl Drop for Storage {
    fn drop(self) {
        match self {
            Storage::Empty => {}
            Storage::Unmarked(counted) => drop(counted),
            Storage::Marked(marked) => drop(marked),
        }
    }
}

/// A text with the number of its characters, each of which is found by a walk over at most 256 bytes. Copies share the text;
/// an empty one takes no block.
#[derive(Drop)]
pub struct Characters {
    held: Storage,
}

impl Model for Characters {
    ghost use Rattle.std.specs.Prelude.{List, ℕ, ◌≡◌};
    ghost use Rattle.std.specs.List.{count_by};
    ghost use Rattle.std.specs.Fmt.{is_char_start};
    ghost use Rattle.rp_value.specs.Blocks.{HasMarks};
    ghost use Rattle.rp_value.specs.Held.{text_of, count_of};

    ghost Value = { List ℕ };

    ghost view = { λ c. text_of c.held };

    ghost invariant = { λ c. (count_of c.held ≡ count_by is_char_start (text_of c.held)) × HasMarks c.held };
}

/// Whether a character begins with this byte of a text.
fn begins_character(byte: u8) -> bool
    ensures { result ≡ is_char_start byte }
{
    byte < 0x80 || 0xC0 <= byte
}

/// How many characters begin in a text.
fn character_count(text: &[u8]) -> usize
    ensures { result ≡ count_by is_char_start text.now }
{
    text.iter().filter(|byte| begins_character(**byte)).count()
}

/// How many bytes the blocks in front have whose characters take one byte each.
fn plain_front(text: &[u8]) -> usize
    ensures within { result ≤ length text.now }
    ensures plain { count_by is_char_start (take result text.now) ≡ result }
{
    let mut plain = 0;
    while plain < text.len() {
        let size = BLOCK.min(text.len() - plain);
        if character_count(&text[plain..plain + size]) != size {
            break;
        }
        plain += size;
    }
    plain
}

/// How many characters begin before each block, and how many in all. Those of the first `plain` bytes take one byte each.
fn counted_blocks(
    alloc: Global,
    text: &[u8],
    plain: usize,
) -> Result<(Items<usize>, usize), AllocError>
    requires within { plain ≤ length text.now }
    requires plain { count_by is_char_start (take plain text.now) ≡ plain }
    ensures starts { IfOk result (λ r. r.0 ≡ block_starts text.now) }
    ensures count { IfOk result (λ r. r.1 ≡ count_by is_char_start text.now) }
{
    let blocks = text.len() / BLOCK;
    let mut starts = Vec::with_capacity(alloc, blocks + 1)?;
    let mut count = 0;
    starts.push(count)?;
    for block in 0..blocks {
        let end = (block + 1) * BLOCK;
        if end <= plain {
            count = end;
        } else {
            count += character_count(&text[end - BLOCK..end]);
        }
        starts.push(count)?;
    }
    count += character_count(&text[blocks * BLOCK..]);
    Ok((Items::from_vec(starts), count))
}

/// Where so many characters of a text end, or the text does.
fn end_of_characters(text: &[u8], count: usize) -> usize
    ensures { result ≡ length (take_chars count text.now) }
{
    let mut left = count;
    for place in 0..text.len() {
        if begins_character(text[place]) {
            if left == 0 {
                return place;
            }
            left -= 1;
        }
    }
    text.len()
}

/// The place of the last of some rising numbers that is at most this one.
fn last_within(numbers: &[usize], most: usize) -> usize
    requires first { slice_get numbers.now 0 ≡ Some 0 }
    requires rising { IsNonDecreasing numbers.now }
    ensures within { result < length numbers.now }
    ensures most { slice_index numbers.now result ≤ most }
{
    numbers.partition_point(|number| *number <= most) - 1
}

/// The same, where so many characters begin before each block: it walks over one block.
fn end_by_blocks(text: &[u8], starts: &[usize], count: usize) -> usize
    requires { starts.now ≡ block_starts text.now }
    ensures { result ≡ length (take_chars count text.now) }
{
    let block = last_within(starts, count);
    let start = block * BLOCK;
    start + end_of_characters(&text[start..], count - starts[block])
}

/// The same, of a text that is not longer than a walk or whose characters take one byte each.
fn end_by_count(counted: &Counted, count: usize) -> usize
    requires { counted.now.count ≡ count_by is_char_start counted.now.text }
    ensures { result ≡ length (take_chars count counted.now.text) }
{
    let text = counted.text.as_bytes();
    if counted.count == text.len() {
        count.min(text.len())
    } else {
        end_of_characters(text, count)
    }
}

impl Characters {
    ghost use Rattle.std.specs.Prelude.{◌≡◌, ◌==◌, ◌≤◌, ◌-◌, length, drop, IfOk};
    ghost use Rattle.std.specs.List.{count_by};
    ghost use Rattle.std.specs.Fmt.{is_char_start, take_chars};

    /// The characters of a text, which it does not copy.
    pub fn of(alloc: Global, text: Text) -> Result<Characters, AllocError>
        ensures { IfOk result (λ c. c ≡ text) }
    {
        let bytes = text.as_bytes();
        if bytes.is_empty() {
            return Ok(Characters {
                held: Storage::Empty,
            });
        }
        if bytes.len() <= BLOCK {
            let count = character_count(bytes);
            return Characters::unmarked(alloc, count, text);
        }
        let plain = plain_front(bytes);
        if plain == bytes.len() {
            return Characters::unmarked(alloc, plain, text);
        }
        let (starts, count) = counted_blocks(alloc, bytes, plain)?;
        let counted = Counted { count, text };
        let marked = Shared::new(alloc, Marked { counted, starts })?;
        Ok(Characters {
            held: Storage::Marked(marked),
        })
    }

    /// A text that needs no marks.
    fn unmarked(alloc: Global, count: usize, text: Text) -> Result<Characters, AllocError>
        requires { count ≡ count_by is_char_start text }
        ensures { IfOk result (λ c. c ≡ text) }
    {
        let counted = Shared::new(alloc, Counted { count, text })?;
        Ok(Characters {
            held: Storage::Unmarked(counted),
        })
    }

    /// The text.
    pub fn as_str(&self) -> &str
        ensures { result.now ≡ self.now }
    {
        match &self.held {
            Storage::Empty => "",
            Storage::Unmarked(counted) => counted.get().text.as_str(),
            Storage::Marked(marked) => marked.get().counted.text.as_str(),
        }
    }

    /// The text as UTF-8.
    pub fn as_bytes(&self) -> &[u8]
        ensures { result.now ≡ self.now }
    {
        self.as_str().as_bytes()
    }

    /// How many characters the text has.
    pub fn count(&self) -> usize
        ensures { result ≡ count_by is_char_start self.now }
    {
        match &self.held {
            Storage::Empty => 0,
            Storage::Unmarked(counted) => counted.get().count,
            Storage::Marked(marked) => marked.get().counted.count,
        }
    }

    /// The byte where so many characters end, or the text does.
    pub fn byte_of(&self, character: usize) -> usize
        ensures { result ≡ length (take_chars character self.now) }
    {
        match &self.held {
            Storage::Empty => 0,
            Storage::Unmarked(counted) => end_by_count(counted.get(), character),
            Storage::Marked(marked) => {
                let marked = marked.get();
                end_by_blocks(
                    marked.counted.text.as_bytes(),
                    marked.starts.as_slice(),
                    character,
                )
            }
        }
    }

    /// The characters from one to another, counted from 0; the last is left out.
    pub fn slice(&self, from: usize, to: usize) -> &str
        requires { from ≤ to }
        ensures { result.now ≡ take_chars (to - from) (drop (length (take_chars from self.now)) self.now) }
    {
        let start = self.byte_of(from);
        let end = self.byte_of(to);
        &self.as_str()[start..end]
    }

    /// The same text, which is not copied.
    pub fn share(&self) -> Result<Characters, AllocError>
        ensures { IfOk result (λ c. c ≡ self.now) }
    {
        let held = match &self.held {
            Storage::Empty => Storage::Empty,
            Storage::Unmarked(counted) => Storage::Unmarked(counted.share()?),
            Storage::Marked(marked) => Storage::Marked(marked.share()?),
        };
        Ok(Characters { held })
    }
}
