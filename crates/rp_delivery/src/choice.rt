//! The schema of a delivery.
ghost use Rattle.std.specs.Prelude.{◌≡◌, false, IfOk, MatchOption};
ghost use Rattle.plain_data.specs.Gives.{Gives};
ghost use Rattle.p21_grammar.specs.File.{tree_of};
ghost use Rattle.p21_lexemes.specs.Tokens.{file_lexemes};
ghost use Rattle.p21_grammar.specs.Schemas.{is_of_schema};
ghost use Rattle.rp_delivery.specs.Choice as spec;

use ex_compiled::Compiled;
use p21_grammar::{Head, header_section, is_of_schema};
use p21_lexemes::{TokenKind, Tokens};
use p21_tree::{FileFault, Raw};
use plain_data::{Failure, Rows};
use std::alloc::{AllocError, Global};

/// The header that a file begins with.
#[tactic(auto, unfolding(crate::specs::Choice::head))]
fn head(alloc: Global, file: &[u8]) -> Result<Head<'_>, Failure<FileFault>>
    ensures { Gives (λ found. found) result (tree_of (spec.head (file_lexemes file.now))) }
{
    let mut tokens = Tokens::of_file(file);
    tokens.expect(TokenKind::FileStart)?;
    tokens.expect(TokenKind::Semicolon)?;
    header_section(alloc, &mut tokens)
}

/// A file without instances that has the header of this one, if that has any.
fn front_of(alloc: Global, file: &[u8]) -> Result<Option<Raw<'_>>, AllocError>
    ensures { IfOk result (λ found. MatchOption found
        (spec.names (tree_of (spec.head (file_lexemes file.now))) ≡ (λ _. false))
        (λ raw. spec.names (tree_of (spec.head (file_lexemes file.now))) ≡ (λ schema. is_of_schema schema raw))) }
{
    match head(alloc, file) {
        Ok(Head { header, schema }) => Ok(Some(Raw {
            header,
            schema,
            section: None,
            instances: Rows::new(alloc),
        })),
        Err(Failure::Fault(_)) => Ok(None),
        Err(Failure::NoMemory) => Err(AllocError),
    }
}

/// The place of the schema that a file's header names, and 0 where it names none of these.
pub(crate) fn place_named(
    alloc: Global,
    schemas: &[Compiled],
    file: &[u8],
) -> Result<usize, AllocError>
    ensures { IfOk result (λ place. place ≡ spec.place_named schemas.now file.now) }
{
    let Some(front) = front_of(alloc, file)? else {
        return Ok(0);
    };
    for (place, schema) in schemas.iter().enumerate() {
        if is_of_schema(alloc, &front, schema.checked().name().as_bytes())? {
            return Ok(place);
        }
    }
    Ok(0)
}
