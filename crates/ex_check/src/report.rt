//! What `check` writes.

ghost use Rattle.std.specs.Prelude.{◌≡◌, ◌≢◌, ◌++◌, IfOk, IsErrOf, OnOk};
ghost use Rattle.std.specs.List.{flat_map};
ghost use Rattle.std.specs.String.{string_bytes};
ghost use Rattle.std.specs.Io.KnownBytes.{Appends};
ghost use Rattle.rp_io.specs.Front.{AppendsFront};
ghost use Rattle.plain_data.specs.Gives.{Gives};
ghost use Rattle.ex_check.specs.Check as spec;

use crate::fault::SchemaFault;
use crate::place::Position;
use crate::schema::compile_schema;
use ex_compiled::Compiled;
use ex_types::CheckedSchema;
use plain_data::Failure;
use rp_io::{Sink, write_all};
use std::alloc::{AllocError, Global};

/// Whether a text is a schema.
#[derive(Clone, Copy, PartialEq, Eq)]
pub enum Verdict {
    Accepted,
    Refused,
}

/// Why a report isn't written whole.
#[derive(Clone, Copy, PartialEq, Eq)]
pub enum CheckFault {
    /// A growth was refused; nothing was written.
    NoMemory,
    WriteFault,
}

impl From<AllocError> for CheckFault {
    ghost use Rattle.std.specs.Prelude.{◌≡◌};
    ghost use Rattle.ex_check.specs.declared.report.CheckFault.TheVariants.{NoMemory};

    ghost from_gives = { λ _ e. e ≡ NoMemory };

    fn from(_error: AllocError) -> CheckFault {
        CheckFault::NoMemory
    }
}

fn words_at(alloc: Global, kind: &str, line: u64, column: u64) -> Result<String, AllocError>
    ensures { IfOk result (λ words. string_bytes words ≡ spec.words_at kind.now line column) }
{
    let line = line.to_string(alloc)?;
    let column = column.to_string(alloc)?;
    [kind, " line ", line.as_str(), " column ", column.as_str()].concat(alloc)
}

/// `KIND line L column C`: the kind of a text's fault, with its line and byte column, counted from 1.
pub fn words_of_fault(alloc: Global, text: &[u8], fault: SchemaFault) -> Result<String, AllocError>
    ensures { IfOk result (λ words. string_bytes words ≡ spec.words_of_fault text.now fault) }
{
    let position = Position::first().move_to(text, fault.at());
    words_at(alloc, fault.name(), position.line, position.column)
}

pub(crate) fn refused(alloc: Global, text: &[u8], fault: SchemaFault) -> Result<String, AllocError>
    ensures { IfOk result (λ told. string_bytes told ≡ spec.told_of_fault text.now fault) }
{
    let mut told = words_of_fault(alloc, text, fault)?;
    told.push_str("\n")?;
    Ok(told)
}

pub(crate) fn warned(alloc: Global, line: u64, column: u64) -> Result<String, AllocError>
    ensures { IfOk result (λ told. string_bytes told ≡ spec.told_of_warning line column) }
{
    let mut told = words_at(alloc, "warning SelectInTypeof", line, column)?;
    told.push_str("\n")?;
    Ok(told)
}

/// Puts a line for each warning behind the others.
fn push_warnings(
    alloc: Global,
    told: &mut String,
    text: &[u8],
    warnings: &[usize],
) -> Result<(), AllocError>
    ensures { OnOk result (string_bytes told.new ≡ string_bytes told.old ++ flat_map (spec.warning_at text.now) warnings.now) }
{
    let mut position = Position::first();
    for at in warnings {
        position = position.move_to(text, *at);
        let line = warned(alloc, position.line, position.column)?;
        told.push_str(line.as_str())?;
    }
    Ok(())
}

fn accepted(alloc: Global, text: &[u8], schema: &CheckedSchema) -> Result<String, AllocError>
    ensures { IfOk result (λ told. string_bytes told ≡ spec.told_of_schema text.now schema.now) }
{
    let mut told = format!(in alloc; "{}: ok\n", schema.name())?;
    push_warnings(alloc, &mut told, text, schema.warnings())?;
    Ok(told)
}

/// The lines that are told of a text, and whether it is a schema, by what [`compile_schema`] gave of it.
fn report(
    alloc: Global,
    text: &[u8],
    compiled: &Result<Compiled, Failure<SchemaFault>>,
) -> Result<(String, Verdict), AllocError>
    requires { Gives (λ schema. schema) compiled.now (spec.schema text.now) }
    ensures { IfOk result (λ r. (string_bytes r.0 ≡ spec.report text.now) × (r.1 ≡ spec.verdict text.now)) }
{
    match compiled {
        Ok(compiled) => Ok((
            accepted(alloc, text, compiled.checked())?,
            Verdict::Accepted,
        )),
        Err(Failure::Fault(fault)) => Ok((refused(alloc, text, *fault)?, Verdict::Refused)),
        Err(Failure::NoMemory) => Err(AllocError),
    }
}

/// Writes what [`check_text`] does, by what [`compile_schema`] gave of the text. To let go of a schema takes a tenth of the
/// time of a check, so a process that ends keeps it.
pub fn check_compiled<W: Sink>(
    alloc: Global,
    text: &[u8],
    compiled: &Result<Compiled, Failure<SchemaFault>>,
    writer: &mut W,
) -> Result<Verdict, CheckFault>
    requires { Gives (λ schema. schema) compiled.now (spec.schema text.now) }
    ensures verdict { IfOk result (λ verdict. verdict ≡ spec.verdict text.now) }
    ensures written { OnOk result (Appends (W.contents writer.old) (W.contents writer.new) (spec.report text.now)) }
    ensures memory { IsErrOf result CheckFault.NoMemory → writer.new ≡ writer.old }
    ensures failed { IsErrOf result CheckFault.WriteFault → AppendsFront (W.contents writer.old) (W.contents writer.new) (spec.report text.now) }
    ensures device { IsErrOf result CheckFault.WriteFault → W.write_failures writer.new ≢ W.write_failures writer.old }
{
    let (line, verdict) = report(alloc, text, compiled)?;
    if write_all(writer, line.as_bytes()).is_err() {
        return Err(CheckFault::WriteFault);
    }
    Ok(verdict)
}

/// Writes what there is to say of an EXPRESS text: `NAME: ok` with the name of its schema, and for each warning
/// `warning KIND line L column C`; or `KIND line L column C` with the first fault. Lines and byte columns count from 1.
pub fn check_text<W: Sink>(
    alloc: Global,
    text: &[u8],
    writer: &mut W,
) -> Result<Verdict, CheckFault>
    ensures verdict { IfOk result (λ verdict. verdict ≡ spec.verdict text.now) }
    ensures written { OnOk result (Appends (W.contents writer.old) (W.contents writer.new) (spec.report text.now)) }
    ensures memory { IsErrOf result CheckFault.NoMemory → writer.new ≡ writer.old }
    ensures failed { IsErrOf result CheckFault.WriteFault → AppendsFront (W.contents writer.old) (W.contents writer.new) (spec.report text.now) }
    ensures device { IsErrOf result CheckFault.WriteFault → W.write_failures writer.new ≢ W.write_failures writer.old }
{
    let compiled = compile_schema(alloc, text);
    check_compiled(alloc, text, &compiled, writer)
}
