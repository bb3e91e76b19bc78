//! What `check --explain` writes: below each line that has a place the line of the text, with a caret.

ghost use Rattle.std.specs.Prelude.{◌≡◌, ◌≢◌, ◌++◌, IfOk, IsErrOf, OnOk};
ghost use Rattle.std.specs.List.{flat_map};
ghost use Rattle.std.specs.Io.KnownBytes.{Appends};
ghost use Rattle.rp_io.specs.Front.{AppendsFront};
ghost use Rattle.ex_check.specs.Check as check;
ghost use Rattle.ex_check.specs.Explained as spec;

use crate::fault::SchemaFault;
use crate::place::Position;
use crate::report::{CheckFault, Verdict, refused, warned};
use crate::schema::compile_schema;
use crate::shown::push_shown;
use ex_types::CheckedSchema;
use plain_data::Failure;
use rp_io::{Sink, write_all};
use std::alloc::{AllocError, Global};

/// Puts each warning behind the others, with its line of the text.
fn push_explained(
    alloc: Global,
    told: &mut Vec<u8>,
    text: &[u8],
    warnings: &[usize],
) -> Result<(), AllocError>
    ensures { OnOk result (told.new.items ≡ told.old.items ++ flat_map (spec.explained_warning text.now) warnings.now) }
{
    let mut position = Position::first();
    for at in warnings {
        position = position.move_to(text, *at);
        let line = warned(alloc, position.line, position.column)?;
        told.extend_from_slice(line.as_bytes())?;
        push_shown(told, text, *at)?;
    }
    Ok(())
}

fn explained_schema(
    alloc: Global,
    text: &[u8],
    schema: &CheckedSchema,
) -> Result<Vec<u8>, AllocError>
    ensures { IfOk result (λ told. told.items ≡ spec.explained_schema text.now schema.now) }
{
    let mut told = Vec::new(alloc);
    told.extend_from_slice(schema.name().as_bytes())?;
    told.extend_from_slice(b": ok\n")?;
    push_explained(alloc, &mut told, text, schema.warnings())?;
    Ok(told)
}

fn explained_fault(alloc: Global, text: &[u8], fault: SchemaFault) -> Result<Vec<u8>, AllocError>
    ensures { IfOk result (λ told. told.items ≡ spec.explained_fault text.now fault) }
{
    let mut told = refused(alloc, text, fault)?.into_bytes();
    push_shown(&mut told, text, fault.at())?;
    Ok(told)
}

/// The lines that are told of a text, and whether it is a schema.
fn explanation(alloc: Global, text: &[u8]) -> Result<(Vec<u8>, Verdict), AllocError>
    ensures { IfOk result (λ r. (r.0.items ≡ spec.explanation text.now) × (r.1 ≡ check.verdict text.now)) }
{
    match compile_schema(alloc, text) {
        Ok(compiled) => Ok((
            explained_schema(alloc, text, compiled.checked())?,
            Verdict::Accepted,
        )),
        Err(Failure::Fault(fault)) => Ok((explained_fault(alloc, text, fault)?, Verdict::Refused)),
        Err(Failure::NoMemory) => Err(AllocError),
    }
}

/// Writes what [`check_text`](crate::check_text) does, and below each line that has a place the line of the text in which
/// it lies, and a caret: behind as many characters as stand before the byte, tabs kept.
pub fn explain_text<W: Sink>(
    alloc: Global,
    text: &[u8],
    writer: &mut W,
) -> Result<Verdict, CheckFault>
    ensures verdict { IfOk result (λ verdict. verdict ≡ check.verdict text.now) }
    ensures written { OnOk result (Appends (W.contents writer.old) (W.contents writer.new) (spec.explanation text.now)) }
    ensures memory { IsErrOf result CheckFault.NoMemory → writer.new ≡ writer.old }
    ensures failed { IsErrOf result CheckFault.WriteFault → AppendsFront (W.contents writer.old) (W.contents writer.new) (spec.explanation text.now) }
    ensures device { IsErrOf result CheckFault.WriteFault → W.write_failures writer.new ≢ W.write_failures writer.old }
{
    let (lines, verdict) = explanation(alloc, text)?;
    if write_all(writer, &lines).is_err() {
        return Err(CheckFault::WriteFault);
    }
    Ok(verdict)
}
