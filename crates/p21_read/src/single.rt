//! One instance by itself, as a request brings it: its keyword and values, without its name.

ghost use Rattle.std.specs.Prelude.{◌≡◌};
ghost use Rattle.plain_data.specs.Gives.{Gives};
ghost use Rattle.text_forms.specs.Reads.{Reads};
ghost use Rattle.p21_read.specs.Single as spec;

use p21_grammar::{Read, Source, mapping};
use p21_lexemes::Tokens;
use p21_tree::{FileFault, Mapping};
use plain_data::Failure;
use std::alloc::Global;

/// A mapping, and nothing behind it.
#[tactic(auto, unfolding(crate::specs::Single::single))]
fn single<'t>(alloc: Global, source: &mut Source<'t>) -> Read<Mapping<'t>>
    ensures { Reads (spec.single source.old) result source.new }
{
    let found = mapping(alloc, source)?;
    source.tokens.finish()?;
    Ok(found)
}

/// The mapping that a text spells: `KEYWORD(values)` or `(KEYWORD(values)KEYWORD(values))`, with neither a name in
/// front nor a semicolon behind; or its first fault. Blanks and comments may stand around it, a byte order mark may not.
/// The texts of the mapping are borrowed, so what it holds in memory is a block for each list that isn't empty and each
/// value under a keyword.
///
/// # Errors
///
/// The fault of least place, which counts bytes from 0; or want of memory.
pub fn read_instance(alloc: Global, text: &[u8]) -> Result<Mapping<'_>, Failure<FileFault>>
    ensures { Gives (λ mapping. mapping) result (spec.mapping_of text.now) }
{
    let mut source = Source::new(alloc, Tokens::new(text));
    single(alloc, &mut source)
}
