//! What is told of a file that is refused.
use crate::put::{PutFile, push_files};
use ex_compiled::Compiled;
use fault_places::{FaultPlace, place_of_file_fault, place_of_instance_fault};
use rp_plain::messages::Refusal;
use source_texts::push_path;
use std::alloc::{AllocError, Global};

/// What stands behind this key in the line of a refusal, without quotes: no member of one has a quote, a comma or a brace in it.
fn member<'l>(reply: &'l str, key: &str) -> Option<&'l str> {
    let (_, behind) = reply.split_once(key)?;
    let value = match behind.split_once(',') {
        Some((value, _)) => value,
        None => behind,
    };
    Some(value.trim_end().trim_end_matches('}').trim_matches('"'))
}

/// Puts a member of a refusal behind a text, if it has one at this key.
fn push_member(out: &mut String, before: &str, reply: &str, key: &str) -> Result<(), AllocError> {
    if let Some(value) = member(reply, key) {
        out.push_str(before)?;
        out.push_str(value)?;
    }
    Ok(())
}

/// Where the fault of a refused file lies, which is bound by this schema; nothing where a refusal has no place in the file.
pub fn place_of_refusal(
    alloc: Global,
    schema: Option<&Compiled>,
    text: &str,
    refusal: Refusal,
) -> Result<Option<FaultPlace>, AllocError> {
    match (refusal, schema) {
        (Refusal::FileFault(fault), _) => place_of_file_fault(alloc, text, fault),
        (Refusal::InstanceFault(fault), Some(schema)) => {
            place_of_instance_fault(alloc, schema, text, fault)
        }
        _ => Ok(None),
    }
}

/// Puts a place behind words.
fn push_place(alloc: Global, out: &mut String, place: &FaultPlace) -> Result<(), AllocError> {
    let place = format!(in alloc; ", line {} column {}", place.line, place.column)?;
    out.push_str(place.as_str())
}

/// What a refusal says of the bytes of a file, of which no place is told.
fn of_bytes(refusal: Refusal) -> &'static str {
    match refusal {
        Refusal::BadRequest => ", it isn't UTF-8",
        Refusal::TooLarge => ", it is over 8 MiB",
        _ => "",
    }
}

/// A refusal as its reply has it, in words, with its place. A file that isn't UTF-8 is in no request, so that one of its bytes is a
/// bad one.
pub fn words_of_refusal(
    alloc: Global,
    place: Option<&FaultPlace>,
    refusal: Refusal,
    reply: &[u8],
) -> Result<String, AllocError> {
    let reply = std::str::from_utf8(reply).unwrap_or("");
    let mut words = String::new(alloc);
    push_member(&mut words, "code ", reply, "\"code\":")?;
    push_member(&mut words, " ", reply, "\"name\":")?;
    push_member(&mut words, ", kind ", reply, "\"kind\":")?;
    push_member(&mut words, ", instance #", reply, "\"instance\":")?;
    if let Some(place) = place {
        push_place(alloc, &mut words, place)?;
    }
    words.push_str(of_bytes(refusal))?;
    Ok(words)
}

/// The line that says that a file is refused.
pub fn refused_line(alloc: Global, path: &str) -> Result<String, AllocError> {
    let mut line = String::from_str(alloc, "Not taken: ")?;
    push_path(alloc, &mut line, path)?;
    line.push_str(" is refused, so nothing is validated.\n")?;
    Ok(line)
}

/// What is told of files that were put and of the one behind them, which is refused so, with the lines of its fault.
pub fn refused_text(
    alloc: Global,
    schema: &str,
    files: &[PutFile<'_>],
    path: &str,
    words: &str,
    lines: &str,
) -> Result<String, AllocError> {
    let mut out = String::new(alloc);
    push_files(alloc, &mut out, files, schema)?;
    push_path(alloc, &mut out, path)?;
    let rest = format!(in alloc; ": {words}\n{lines}\n")?;
    out.push_str(rest.as_str())?;
    out.push_str(refused_line(alloc, path)?.as_str())?;
    Ok(out)
}
