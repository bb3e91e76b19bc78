//! Files that are validated as one delivers them.
ghost use Rattle.std.specs.Prelude.{◌≡◌, ◌≢◌, ℕ, List, true, map, Some, IfOk, IfErr, OnOk, IsErrOf, option_copied, ⊤};
ghost use Rattle.std.specs.Io.KnownBytes.{Appends};
ghost use Rattle.rp_replies.specs.Replies.{line_of_reply};
ghost use Rattle.rp_delivery.specs.Judged.{judgement_of as spec_judgement_of};
ghost use Rattle.rp_delivery.specs.Requests.{is_refused};
ghost use Rattle.rp_program.specs.Faults.{EndsBy};
ghost use Rattle.rp_program.specs.Validations.{IsValidated};

use crate::ending::Done;
use crate::fault::Fault;
use crate::opening::lent;
use crate::pages::Pages;
use ex_compiled::Compiled;
use plain_data::{Failure, Text};
use rp_delivery::{
    Asked, Delivered, Form, Notes, SchemaSources, deliver, judgement_of, partners, sources_at,
};
use rp_delivery_words::{
    FaultPlace, SchemaText, place_of_refusal, refused_line, refused_page, refused_text,
    report_page, report_text, verdict_line, words_of_refusal,
};
use rp_files::Folder;
use rp_io::{Sink, write_all};
use rp_plain::messages::{Refusal, Reply};
use rp_replies::{no_memory_line, reply_line};
use rp_repo::Repository;
use std::alloc::{AllocError, Global};
use std::mem;

/// Validates the files of these paths by the schemas of these paths, as the one partner of a repository would, and tells what came
/// of it. The process is to end then: what the repository holds isn't let go of.
pub fn validate<D: Folder, W: Sink, N: Notes, P: Pages>(
    alloc: Global,
    folder: &D,
    asked: &Asked<'_>,
    writer: &mut W,
    notes: &mut N,
    pages: &mut P,
) -> Result<Done, Fault>
    // The verdict is that of the reply, whatever is told of it.
    ensures verdict { IfOk result (λ done.
        IsValidated (D.files folder.now) (map (λ path. path.now) asked.now.schemas.now) (map (λ path. path.now) asked.now.files.now)
        (λ reply. done ≡ Done.Validated (spec_judgement_of reply))) }

    // As JSON the line of the reply is written, and nothing else.
    ensures json { asked.now.form ≡ Form.Json → IfOk result (λ done.
        IsValidated (D.files folder.now) (map (λ path. path.now) asked.now.schemas.now) (map (λ path. path.now) asked.now.files.now)
        (λ reply. (done ≡ Done.Validated (spec_judgement_of reply)) × Appends (W.contents writer.old) (W.contents writer.new) (line_of_reply reply))) }

    // So it is where a file is refused.
    ensures refused { asked.now.form ≡ Form.Json → (path words : List ℕ) → IsErrOf result (Fault.Refused path words) →
        IsValidated (D.files folder.now) (map (λ path. path.now) asked.now.schemas.now) (map (λ path. path.now) asked.now.files.now)
        (λ reply. (is_refused reply ≡ true) × Appends (W.contents writer.old) (W.contents writer.new) (line_of_reply reply)) }

    // It fails only where there is nothing to work on, a write failed, the reply is a refusal, or the page that is asked for couldn't be
    // written.
    ensures faults { IfErr result (λ fault. EndsBy (W.write_failures writer.new ≢ W.write_failures writer.old)
        (IsValidated (D.files folder.now) (map (λ path. path.now) asked.now.schemas.now) (map (λ path. path.now) asked.now.files.now) (λ reply. is_refused reply ≡ true))
        (λ path error. (option_copied asked.now.page ≡ Some path) × P.may_fail pages.old path error pages.new) fault) }
{
    let SchemaSources { texts, schemas } = sources_at(alloc, folder, asked.schemas)?;
    let schemas_lent = lent(alloc, schemas.as_slice())?;
    let mut repository = Repository::new(alloc, schemas_lent, partners(alloc)?)?;
    let delivered = deliver(
        alloc,
        folder,
        &mut repository,
        schemas.as_slice(),
        asked,
        notes,
    );
    // The process ends, and all of its memory goes with it. To give that back value by value would take long.
    mem::forget(repository);
    let ended = tell(
        alloc,
        schemas.as_slice(),
        &texts,
        asked,
        &delivered?,
        writer,
        pages,
    );
    mem::forget(schemas);
    ended
}

/// Writes what is told of a delivery, and answers what its reply says.
fn tell<W: Sink, P: Pages>(
    alloc: Global,
    schemas: &[Compiled],
    texts: &[Vec<u8>],
    asked: &Asked<'_>,
    delivered: &Delivered<'_>,
    writer: &mut W,
    pages: &mut P,
) -> Result<Done, Fault>
    ensures verdict { IfOk result (λ done. done ≡ Done.Validated (spec_judgement_of delivered.now.reply)) }
    ensures json { asked.now.form ≡ Form.Json → OnOk result (Appends (W.contents writer.old) (W.contents writer.new) (line_of_reply delivered.now.reply)) }
    ensures refused { asked.now.form ≡ Form.Json → (path words : List ℕ) → IsErrOf result (Fault.Refused path words) →
        (is_refused delivered.now.reply ≡ true) × Appends (W.contents writer.old) (W.contents writer.new) (line_of_reply delivered.now.reply) }
    ensures faults { IfErr result (λ fault. EndsBy (W.write_failures writer.new ≢ W.write_failures writer.old) (is_refused delivered.now.reply ≡ true)
        (λ path error. (option_copied asked.now.page ≡ Some path) × P.may_fail pages.old path error pages.new) fault) }
{
    let schema = source_of(schemas, texts, delivered.schema);
    match &delivered.reply {
        Reply::Refused(Refusal::NoMemory) => {
            if asked.form == Form::Json {
                write(writer, no_memory_line())?;
            }
            Err(Fault::Start(Failure::NoMemory))
        }
        Reply::Refused(refusal) => {
            let place = place_of_refusal(
                alloc,
                schemas.get(delivered.schema),
                delivered.refused.as_str(),
                *refusal,
            )?;
            let file = refused_file(alloc, asked, delivered, *refusal, place.as_ref())?;
            write_refused(alloc, schema, asked, delivered, &file, pages);
            tell_refused(alloc, schema, asked, delivered, file, writer)
        }
        reply => {
            let told = told_of(alloc, schema, asked, delivered)?;
            write(writer, &told)?;
            write_report(alloc, schema, asked, delivered, pages)?;
            Ok(Done::Validated(judgement_of(reply)))
        }
    }
}

/// The schema at a place, with its text.
fn source_of<'t>(schemas: &'t [Compiled], texts: &'t [Vec<u8>], place: usize) -> SchemaText<'t> {
    let name = match schemas.get(place) {
        Some(schema) => schema.checked().name(),
        None => "",
    };
    let text = match texts.get(place) {
        Some(text) => text.as_slice(),
        None => &[],
    };
    SchemaText { name, text }
}

fn write<W: Sink>(writer: &mut W, bytes: &[u8]) -> Result<(), Fault>
    ensures ok { OnOk result (Appends (W.contents writer.old) (W.contents writer.new) bytes.now) }
    ensures err { IfErr result (λ fault. (fault ≡ Fault.Write) × (W.write_failures writer.new ≢ W.write_failures writer.old)) }
{
    match write_all(writer, bytes) {
        Ok(()) => Ok(()),
        Err(_) => Err(Fault::Write),
    }
}

/// What is told of files that were validated.
fn told_of(
    alloc: Global,
    schema: SchemaText<'_>,
    asked: &Asked<'_>,
    delivered: &Delivered<'_>,
) -> Result<Vec<u8>, AllocError>
    ensures { asked.now.form ≡ Form.Json → IfOk result (λ told. told.items ≡ line_of_reply delivered.now.reply) }
{
    let Reply::Validated(report) = &delivered.reply else {
        return reply_line(alloc, &delivered.reply);
    };
    match asked.form {
        Form::Json => reply_line(alloc, &delivered.reply),
        Form::Quiet => Ok(verdict_line(alloc, report)?.into_bytes()),
        Form::Text(most) => {
            Ok(report_text(alloc, schema, &delivered.files, report, most)?.into_bytes())
        }
    }
}

/// Writes the page of files that were validated, if one is wanted.
fn write_report<P: Pages>(
    alloc: Global,
    schema: SchemaText<'_>,
    asked: &Asked<'_>,
    delivered: &Delivered<'_>,
    pages: &mut P,
) -> Result<(), Fault>
    ensures refused { (path words : List ℕ) → IsErrOf result (Fault.Refused path words) → ⊥ }
    ensures faults { IfErr result (λ fault. EndsBy ⊥ ⊥ (λ path error. (option_copied asked.now.page ≡ Some path) × P.may_fail pages.old path error pages.new) fault) }
{
    let (Some(path), Reply::Validated(report)) = (asked.page, &delivered.reply) else {
        return Ok(());
    };
    let page = report_page(alloc, schema, &delivered.files, report)?;
    match pages.write(path, page) {
        Ok(()) => Ok(()),
        Err(error) => Err(Fault::Page(Text::from_str(alloc, path)?, error)),
    }
}

/// A file that is refused: its path, what is said of it, and the lines that show where its fault lies.
#[derive(Drop)]
struct RefusedFile<'p, 'l> {
    path: &'p str,
    words: String,
    lines: &'l str,
}

fn refused_file<'p, 'l>(
    alloc: Global,
    asked: &Asked<'p>,
    delivered: &Delivered<'_>,
    refusal: Refusal,
    place: Option<&'l FaultPlace>,
) -> Result<RefusedFile<'p, 'l>, AllocError> {
    let reply = reply_line(alloc, &delivered.reply)?;
    let words = words_of_refusal(alloc, place, refusal, &reply)?;
    Ok(RefusedFile {
        path: match asked.files.get(delivered.files.len()) {
            Some(path) => path,
            None => "",
        },
        words,
        lines: match place {
            Some(place) => place.lines.as_str(),
            None => "",
        },
    })
}

/// Writes the page of files of which the last one is refused, if a page is wanted. What is wrong with the file comes before what
/// is wrong with the page, so nothing is said of that.
fn write_refused<P: Pages>(
    alloc: Global,
    schema: SchemaText<'_>,
    asked: &Asked<'_>,
    delivered: &Delivered<'_>,
    file: &RefusedFile<'_, '_>,
    pages: &mut P,
) {
    let Some(path) = asked.page else {
        return;
    };
    if let Ok(page) = refused_page(
        alloc,
        schema.name,
        &delivered.files,
        file.path,
        file.words.as_str(),
        file.lines,
    ) {
        let _ = pages.write(path, page);
    }
}

/// What is told of a file that is refused.
fn told_of_refusal(
    alloc: Global,
    schema: SchemaText<'_>,
    asked: &Asked<'_>,
    delivered: &Delivered<'_>,
    file: &RefusedFile<'_, '_>,
) -> Result<Vec<u8>, AllocError>
    ensures { asked.now.form ≡ Form.Json → IfOk result (λ told. told.items ≡ line_of_reply delivered.now.reply) }
{
    match asked.form {
        Form::Json => reply_line(alloc, &delivered.reply),
        Form::Quiet => Ok(refused_line(alloc, file.path)?.into_bytes()),
        Form::Text(_) => Ok(refused_text(
            alloc,
            schema.name,
            &delivered.files,
            file.path,
            file.words.as_str(),
            file.lines,
        )?
        .into_bytes()),
    }
}

/// Writes what is told where a file is refused, and answers why.
fn tell_refused<W: Sink>(
    alloc: Global,
    schema: SchemaText<'_>,
    asked: &Asked<'_>,
    delivered: &Delivered<'_>,
    file: RefusedFile<'_, '_>,
    writer: &mut W,
) -> Result<Done, Fault>
    ensures refused { OnOk result ⊥ }
    ensures json { asked.now.form ≡ Form.Json → (path words : List ℕ) → IsErrOf result (Fault.Refused path words) →
        Appends (W.contents writer.old) (W.contents writer.new) (line_of_reply delivered.now.reply) }
    ensures faults { IfErr result (λ fault. EndsBy (W.write_failures writer.new ≢ W.write_failures writer.old) ⊤ (λ _ _. ⊥) fault) }
{
    let told = told_of_refusal(alloc, schema, asked, delivered, &file)?;
    let RefusedFile {
        path,
        words,
        lines: _,
    } = file;
    let path = Text::from_str(alloc, path)?;
    write(writer, &told)?;
    Err(Fault::Refused(path, Text::new(words)))
}
