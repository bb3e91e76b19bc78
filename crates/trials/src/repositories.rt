//! A repository of two partners, ann and bob, and the schemas of some files.
ghost use Rattle.std.specs.Prelude.{◌≡◌, ◌≤◌, length, IfOk};

use crate::{bytes_of, fault};
use ex_check::{compile_schema, words_of_fault};
use http_routes::Tokens;
use plain_data::Failure;
use rp_repo::{Compiled, LoadedSchema, NewFault, Repository, Text};
use std::alloc::{AllocError, Global};
use std::rt::Files;

/// The schema of a text.
fn schema_of(alloc: Global, text: &[u8]) -> Result<Compiled, Failure<String>> {
    match compile_schema(alloc, text) {
        Ok(schema) => Ok(schema),
        Err(Failure::Fault(why)) => Err(Failure::Fault(words_of_fault(alloc, text, why)?)),
        Err(Failure::NoMemory) => Err(Failure::NoMemory),
    }
}

fn texts(alloc: Global, first: &str, second: &str) -> Result<Vec<Text>, AllocError>
    ensures { IfOk result (λ texts. length texts.items ≡ 2) }
{
    let mut texts = Vec::new(alloc);
    texts.push(Text::from_str(alloc, first)?)?;
    texts.push(Text::from_str(alloc, second)?)?;
    Ok(texts)
}

/// The schemas of the files at these paths. They are never dropped, so that any repository can borrow them.
fn loaded<R: AllocGlobal + Files>(
    rt: &R,
    paths: &[String],
) -> Result<&'static [LoadedSchema<'static>], Failure<String>> {
    let alloc = rt.alloc();
    let mut schemas = Vec::new(alloc);
    for path in paths {
        let text = bytes_of(rt, path.as_str())?;
        schemas.push(schema_of(alloc, &text)?)?;
    }
    Ok(LoadedSchema::all(alloc, schemas.leak())?.leak())
}

/// The empty repository of the schemas of the files at these paths, and the tokens of its partners.
pub(crate) fn opened<R: AllocGlobal + Files>(
    rt: &R,
    paths: &[String],
) -> Result<(Repository<'static>, Tokens), Failure<String>>
    ensures { IfOk result (λ opened. length opened.1 ≤ length opened.0.content.partners) }
{
    let alloc = rt.alloc();
    let schemas = loaded(rt, paths)?;
    let Ok(tokens) = Tokens::new(texts(alloc, "ta", "tb")?) else {
        return Err(fault(alloc, "the tokens are wrong"));
    };
    match Repository::new(alloc, schemas, texts(alloc, "ann", "bob")?) {
        Ok(repository) => Ok((repository, tokens)),
        Err(NewFault::NoMemory) => Err(Failure::NoMemory),
        Err(_) => Err(fault(alloc, "there is no repository of these schemas")),
    }
}
