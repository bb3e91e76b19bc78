//! A schema, and what a file holds by it; else what is wrong, in words.

ghost use Rattle.std.specs.Prelude.{IfOk};
ghost use Rattle.rp_positions.specs.Positions.{IsSearchable};

use ex_check::{compile_schema, words_of_fault};
use ex_compiled::Compiled;
use ex_layouts::Dictionary;
use p21_bind::bind;
use p21_grammar::is_of_schema;
use p21_read::read_raw;
use p21_tree::Raw;
use plain_data::Failure;
use rp_content::Content;
use std::alloc::{AllocError, Global};

/// What is wrong, in these words, where there was memory for them.
fn wrong(words: Result<String, AllocError>) -> Failure<String> {
    match words {
        Ok(words) => Failure::Fault(words),
        Err(AllocError) => Failure::NoMemory,
    }
}

/// The schema of a text.
pub(crate) fn schema_of(alloc: Global, text: &[u8]) -> Result<Compiled, Failure<String>> {
    match compile_schema(alloc, text) {
        Ok(compiled) => Ok(compiled),
        Err(Failure::Fault(fault)) => Err(wrong(words_of_fault(alloc, text, fault))),
        Err(Failure::NoMemory) => Err(Failure::NoMemory),
    }
}

/// The tree of an exchange file.
fn raw_of(alloc: Global, text: &[u8]) -> Result<Raw<'_>, Failure<String>> {
    match read_raw(alloc, text) {
        Ok(raw) => Ok(raw),
        Err(Failure::Fault(fault)) => {
            let words = format!(in alloc; "no exchange file: byte {}", fault.at);
            Err(wrong(words))
        }
        Err(Failure::NoMemory) => Err(Failure::NoMemory),
    }
}

/// Refuses a file of another schema than that of this name.
fn refuse_others(alloc: Global, raw: &Raw<'_>, schema: &str) -> Result<(), Failure<String>> {
    if is_of_schema(alloc, raw, schema.as_bytes())? {
        return Ok(());
    }
    Err(wrong(String::from_str(alloc, "a file of another schema")))
}

/// What an exchange file of a schema holds.
pub(crate) fn content_of<'s>(
    alloc: Global,
    schema: &'s Dictionary<'s>,
    text: &[u8],
) -> Result<Content, Failure<String>>
    ensures { IfOk result (λ content. IsSearchable content) }
{
    let raw = raw_of(alloc, text)?;
    refuse_others(alloc, &raw, schema.name())?;
    match bind(alloc, schema, &[], raw) {
        Ok(content) => Ok(content),
        Err(Failure::Fault(fault)) => {
            let words = format!(in alloc; "a faulty instance: #{}", fault.instance);
            Err(wrong(words))
        }
        Err(Failure::NoMemory) => Err(Failure::NoMemory),
    }
}
