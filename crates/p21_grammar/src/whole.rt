//! A whole exchange file.

ghost use Rattle.std.specs.Prelude.{◌≡◌};
ghost use Rattle.plain_data.specs.Gives.{Gives};
ghost use Rattle.text_forms.specs.Reads.{Reads};
ghost use Rattle.p21_grammar.specs.File as spec;

use crate::grammar::{Read, instances, quoted};
use crate::header::{Head, header_section, line, one_schema};
use p21_lexemes::{TokenKind, Tokens};
use p21_tree::{FileFault, Instance, Raw, Section};
use plain_data::{Failure, Rows};
use std::alloc::Global;

/// A data section.
#[derive(Drop)]
struct Body<'t> {
    section: Option<Section<'t>>,
    instances: Rows<Instance<'t>>,
}

/// `('name',('SCHEMA'))`
#[tactic(auto, unfolding(crate::specs::File::section_names))]
fn section_names<'t>(tokens: &mut Tokens<'t>) -> Read<Section<'t>>
    ensures { Reads (spec.section_names tokens.old) result tokens.new }
{
    tokens.expect(TokenKind::Open)?;
    let name = quoted(tokens, TokenKind::Text)?;
    tokens.expect(TokenKind::Comma)?;
    let schema = one_schema(tokens)?;
    tokens.expect(TokenKind::Close)?;
    Ok(Section { name, schema })
}

/// Nothing where no `(` comes.
#[tactic(auto, unfolding(crate::specs::File::section))]
pub fn section<'t>(tokens: &mut Tokens<'t>) -> Read<Option<Section<'t>>>
    ensures { Reads (spec.section tokens.old) result tokens.new }
{
    if !tokens.sees(TokenKind::Open) {
        return Ok(None);
    }
    Ok(Some(section_names(tokens)?))
}

#[tactic(auto, unfolding(crate::specs::File::data_section))]
fn data_section<'t>(alloc: Global, tokens: &mut Tokens<'t>) -> Read<Body<'t>>
    ensures { Reads (spec.data_section tokens.old) result tokens.new }
{
    tokens.expect_word(b"DATA")?;
    let section = section(tokens)?;
    tokens.expect(TokenKind::Semicolon)?;
    let instances = instances(alloc, tokens)?;
    line(tokens, b"ENDSEC")?;
    Ok(Body { section, instances })
}

/// A mark of the file, and `;`.
#[tactic(auto, unfolding(crate::specs::File::mark))]
pub fn mark(tokens: &mut Tokens<'_>, kind: TokenKind) -> Read<()>
    ensures { Reads (spec.mark kind tokens.old) result tokens.new }
{
    tokens.expect(kind)?;
    tokens.expect(TokenKind::Semicolon)?;
    Ok(())
}

/// What follows the data section, which is the only one.
#[tactic(auto, unfolding(crate::specs::File::file_end))]
pub fn file_end(tokens: &mut Tokens<'_>) -> Read<()>
    ensures { Reads (spec.file_end tokens.old) result tokens.new }
{
    if tokens.sees_word(b"DATA") {
        return Err(Failure::Fault(tokens.too_many_sections()));
    }
    mark(tokens, TokenKind::FileEnd)?;
    tokens.finish()
}

/// What the tokens of a whole file spell.
///
/// # Errors
///
/// The first fault, or want of memory.
#[tactic(auto, unfolding(crate::specs::File::file))]
pub fn file<'t>(alloc: Global, tokens: &mut Tokens<'t>) -> Read<Raw<'t>>
    ensures { Reads (spec.file tokens.old) result tokens.new }
{
    mark(tokens, TokenKind::FileStart)?;
    let Head { header, schema } = header_section(alloc, tokens)?;
    let Body { section, instances } = data_section(alloc, tokens)?;
    file_end(tokens)?;
    Ok(Raw {
        header,
        schema,
        section,
        instances,
    })
}
