//! The files of a delivery, one after another.
ghost use Rattle.std.specs.Prelude.{◌≡◌, true, false, [], ◌∷◌, map, Option, IfOk, OnOk};
ghost use Rattle.rp_files.specs.Files.{Held};
ghost use Rattle.rp_plain.specs.Opening.{opened};
ghost use Rattle.rp_delivery.specs.Names.{me as deliverer};
ghost use Rattle.rp_delivery.specs.Requests.{IsMe};
ghost use Rattle.rp_delivery.specs.Deliveries as spec;
ghost use Rattle.rp_delivery.specs.Deliveries.{IsDelivered, IsText, PutsOneMore, EndsWith, name_of};

use crate::asked::Asked;
use crate::choice::place_named;
use crate::named::partner;
use crate::notes::Notes;
use crate::requests::{is_refused, put, validate};
use crate::texts::{FileText, text_at};
use ex_compiled::Compiled;
use plain_data::{Failure, Text};
use rp_delivery_words::PutFile;
use rp_files::{Folder, LoadFault};
use rp_repo::{Caller, Refusal, Reply, Repository};
use std::alloc::{AllocError, Global};

/// What came of a delivery.
pub struct Delivered<'a> {
    /// The place of the schema that was taken.
    pub schema: usize,
    /// The files that were put.
    pub files: Vec<PutFile<'a>>,
    /// The bytes of the file behind these, where it was refused.
    pub refused: Text,
    /// The reply to the validation, or to the put that was refused.
    pub reply: Reply,
}

impl Drop for Delivered<'_> {
    fn drop(self) {
        let Delivered {
            schema: _,
            files,
            refused,
            reply,
        } = self;
        drop(files);
        drop(refused);
        drop(reply);
    }
}

/// The bytes of a file that are kept once it is put: none where no lines are told.
fn kept(alloc: Global, tells_lines: bool, text: Text) -> Text {
    if tells_lines {
        text
    } else {
        Text::new(String::new(alloc))
    }
}

/// The name of the schema at a place.
fn name_at(schemas: &[Compiled], place: usize) -> &str
    ensures { result.now ≡ name_of schemas.now place }
{
    match schemas.get(place) {
        Some(schema) => schema.checked().name(),
        None => "",
    }
}

/// Who puts the files of a delivery, by which schemas, and whether people are told lines of them.
#[derive(Drop)]
struct Ground<'g> {
    schemas: &'g [Compiled],
    me: Caller,
    tells_lines: bool,
}

/// The place of the schema that the file of this number is put by, where that of the file before it is known.
fn place_for(
    alloc: Global,
    schemas: &[Compiled],
    number: usize,
    before: usize,
    file: &[u8],
) -> Result<usize, AllocError>
    ensures { IfOk result (λ place. place ≡ spec.place_for schemas.now number before file.now) }
{
    if number > 1 {
        return Ok(before);
    }
    place_named(alloc, schemas, file)
}

/// How many instances a put tells.
fn instances_of(reply: &Reply) -> usize {
    match reply {
        Reply::Stored(instances) => *instances,
        _ => 0,
    }
}

/// Puts the text of the file of a path, which has this number. Answers whether it was put; else the reply says why not.
fn put_text<'a>(
    alloc: Global,
    ground: &Ground<'_>,
    repository: &mut Repository<'_>,
    delivered: &mut Delivered<'a>,
    number: usize,
    path: &'a str,
    text: Text,
) -> Result<bool, AllocError>
    requires { IsMe repository.old.content ground.now.me }
    ensures same { IsMe repository.new.content ground.now.me }
    ensures put { (files : Option Held) → IsText files path.now text → IfOk result (λ put. put ≡ true →
        PutsOneMore files ground.now.schemas.now repository.old.content repository.new.content delivered.old.schema delivered.new.schema number path.now) }
    ensures refused { (files : Option Held) → IsText files path.now text → IfOk result (λ put. put ≡ false →
        EndsWith files ground.now.schemas.now repository.old.content delivered.old.schema number path.now delivered.new.reply) }
{
    delivered.schema = place_for(
        alloc,
        ground.schemas,
        number,
        delivered.schema,
        text.as_bytes(),
    )?;
    let copy = text.copy(alloc)?;
    let schema = name_at(ground.schemas, delivered.schema);
    let reply = put(alloc, repository, ground.me, schema, number, text)?;
    if is_refused(&reply) {
        delivered.refused = copy;
        delivered.reply = reply;
        return Ok(false);
    }
    let instances = instances_of(&reply);
    drop(reply);
    let text = kept(alloc, ground.tells_lines, copy);
    delivered.files.push(PutFile {
        path,
        text,
        instances,
    })?;
    Ok(true)
}

/// Puts the file of a path, which has this number. Answers whether it was put; else the reply says why not.
fn deliver_file<'a, D: Folder>(
    alloc: Global,
    folder: &D,
    ground: &Ground<'_>,
    repository: &mut Repository<'_>,
    delivered: &mut Delivered<'a>,
    number: usize,
    path: &'a str,
) -> Result<bool, Failure<LoadFault>>
    requires { IsMe repository.old.content ground.now.me }
    ensures same { IsMe repository.new.content ground.now.me }
    ensures put { IfOk result (λ put. put ≡ true →
        PutsOneMore (D.files folder.now) ground.now.schemas.now repository.old.content repository.new.content delivered.old.schema delivered.new.schema number path.now) }
    ensures refused { IfOk result (λ put. put ≡ false →
        EndsWith (D.files folder.now) ground.now.schemas.now repository.old.content delivered.old.schema number path.now delivered.new.reply) }
{
    match text_at(alloc, folder, path)? {
        FileText::Text(text) => {
            Ok(put_text(alloc, ground, repository, delivered, number, path, text)?)
        }
        FileText::Refused(refusal) => {
            delivered.reply = Reply::Refused(refusal);
            Ok(false)
        }
    }
}

/// Puts the files of these paths, one after another, and validates them; a put that is refused ends it.
fn put_and_validate<'a, D: Folder, N: Notes>(
    alloc: Global,
    folder: &D,
    ground: &Ground<'_>,
    repository: &mut Repository<'_>,
    paths: &[&'a str],
    delivered: &mut Delivered<'a>,
    notes: &mut N,
) -> Result<(), Failure<LoadFault>>
    requires me { IsMe repository.old.content ground.now.me }
    requires first { delivered.old.schema ≡ 0 }
    ensures { OnOk result (IsDelivered (D.files folder.now) repository.old.content ground.now.schemas.now (map (λ path. path.now) paths.now) delivered.new.reply) }
{
    for (place, path) in paths.iter().enumerate() {
        notes.file(place + 1, paths.len());
        if !deliver_file(
            alloc,
            folder,
            ground,
            repository,
            delivered,
            place + 1,
            path,
        )? {
            return Ok(());
        }
    }
    notes.rules();
    let schema = name_at(ground.schemas, delivered.schema);
    delivered.reply = validate(alloc, repository, ground.me, schema, paths.len())?;
    Ok(())
}

/// Puts the files of a delivery, one after another, and validates them; a put that is refused ends it.
///
/// # Errors
///
/// The first file that can't be read, or want of memory.
pub fn deliver<'a, D: Folder, N: Notes>(
    alloc: Global,
    folder: &D,
    repository: &mut Repository<'_>,
    schemas: &[Compiled],
    asked: &Asked<'a>,
    notes: &mut N,
) -> Result<Delivered<'a>, Failure<LoadFault>>
    requires { repository.old.content ≡ opened schemas.now (deliverer ∷ []) }
    ensures { IfOk result (λ delivered.
        IsDelivered (D.files folder.now) repository.old.content schemas.now (map (λ path. path.now) asked.now.files.now) delivered.reply) }
{
    let mut delivered = Delivered {
        schema: 0,
        files: Vec::new(alloc),
        refused: Text::new(String::new(alloc)),
        reply: Reply::Refused(Refusal::BadRequest),
    };
    let Some(me) = repository.caller(&partner(alloc)?) else {
        return Ok(delivered);
    };
    put_and_validate(
        alloc,
        folder,
        &Ground {
            schemas,
            me,
            tells_lines: asked.tells_lines(),
        },
        repository,
        asked.files,
        &mut delivered,
        notes,
    )?;
    Ok(delivered)
}
