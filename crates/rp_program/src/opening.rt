//! The repository that a command begins with, and the tokens of its partners.
ghost use Rattle.std.specs.Prelude.{◌≡◌, ◌≤◌, ℕ, List, length, Ok, IfOk, None, Some, option_copied};
ghost use Rattle.rp_plain.specs.Opening.{new_fault};
ghost use Rattle.rp_program.specs.Starts.{IsGiven, IsBegun, BeginsAs, IsRestored, Lacks, Starts, FailsAt, FailsBy, OpensOr};

use crate::fault::{Fault, StartFault};
use http_routes::{Tokens, is_token};
use plain_data::{Failure, Rows, Text};
use rp_config::{Loaded, Shown, config_at, load_all};
use rp_files::{Folder, LoadFault, whole_file};
use rp_repo::{Compiled, LoadedSchema, Repository, RestoreFault};
use std::alloc::{AllocError, Global};
use std::marker::Model;

/// The schemas, with what is found in them once. This isn't let go of, since the process is to end with what it is lent to.
pub(crate) fn lent<'s>(
    alloc: Global,
    schemas: &'s [Compiled],
) -> Result<&'s [LoadedSchema<'s>], AllocError>
    ensures { IfOk result (λ lent. lent.now ≡ schemas.now) }
{
    let loaded = LoadedSchema::all(alloc, schemas)?;
    Ok(loaded.leak())
}

/// The snapshot that a command is to begin with.
#[derive(Drop)]
pub(crate) struct Given<'a> {
    path: &'a str,
    /// Nothing where its file can't be read.
    bytes: Option<Vec<u8>>,
}

impl<'a> Model for Given<'a> {
    ghost use Rattle.std.specs.Prelude.{option_map};
    ghost use Rattle.rp_program.specs.Starts as spec;

    ghost Value = { spec.SnapshotFile };

    ghost view = { λ g. record { path = g.path.now; bytes = option_map (λ bytes. bytes.items) g.bytes } };
}

/// What a command begins with: what the configuration at the first path names, and the snapshot at the other, if one is asked for.
pub(crate) fn begin_with<'a, D: Folder>(
    alloc: Global,
    folder: &D,
    path: &str,
    snapshot: Option<&'a str>,
) -> Result<(Loaded, Option<Given<'a>>), Fault>
    ensures begun { OpensOr (λ begun. IsBegun (D.files folder.now) path.now (option_copied snapshot.entry) begun.0 begun.1)
        (FailsAt (D.files folder.now) path.now (option_copied snapshot.entry)) result }
    ensures tokens { IfOk result (λ begun. length begun.0.tokens ≤ length begun.0.partners) }
{
    let loaded = load_all(alloc, folder, path)?;
    let given = given_at(alloc, folder, snapshot)?;
    Ok((loaded, given))
}

/// The snapshot at this path, if one is asked for.
fn given_at<'a, D: Folder>(
    alloc: Global,
    folder: &D,
    path: Option<&'a str>,
) -> Result<Option<Given<'a>>, AllocError>
    ensures { IfOk result (λ given. IsGiven (D.files folder.now) (option_copied path.entry) given) }
{
    let Some(path) = path else {
        return Ok(None);
    };
    match whole_file(alloc, folder, path) {
        Ok(bytes) => Ok(Some(Given {
            path,
            bytes: Some(bytes),
        })),
        Err(Failure::Fault(_)) => Ok(Some(Given { path, bytes: None })),
        Err(Failure::NoMemory) => Err(AllocError),
    }
}

/// The repository of these schemas and partners, whose tokens these are, as the snapshot says, or else empty.
pub(crate) fn open<'s>(
    alloc: Global,
    schemas: &'s [Compiled],
    partners: Rows<Text>,
    tokens: Rows<Text>,
    given: Option<Given<'_>>,
) -> Result<(Repository<'s>, Tokens), Fault>
    ensures { OpensOr
        (λ opened. Starts (record { partners = partners; tokens = tokens; schemas = schemas.now }) given.entry (Ok opened.0.content)
        × (opened.0.content.partners ≡ partners) × (opened.1 ≡ tokens))
        (λ why. FailsBy why (Lacks (record { partners = partners; tokens = tokens; schemas = schemas.now }) given.entry)) result }
{
    let lent = lent(alloc, schemas)?;
    let repository = begun(alloc, lent, partners.into_vec(), given)?;
    let tokens = Tokens::new(tokens.into_vec())?;
    Ok((repository, tokens))
}

/// The repository of these schemas and partners, as the snapshot says, or else empty.
fn begun<'s>(
    alloc: Global,
    schemas: &'s [LoadedSchema<'s>],
    partners: Vec<Text>,
    given: Option<Given<'_>>,
) -> Result<Repository<'s>, Fault>
    ensures { OpensOr
        (λ repository. (new_fault schemas.now partners.items ≡ None) × BeginsAs schemas.now partners.items given.entry repository.content
        × (repository.content.partners ≡ partners.items))
        (λ why. (tokens : List (List ℕ)) → FailsBy why (Lacks (record { partners = partners.items; tokens = tokens; schemas = schemas.now }) given.entry)) result }
{
    match given {
        None => Ok(Repository::new(alloc, schemas, partners)?),
        Some(
            Given {
                path,
                bytes: Some(bytes),
            },
        ) => restored(alloc, schemas, partners, path, &bytes),
        Some(Given { path, bytes: None }) => {
            // What speaks against the schemas and the partners is told first.
            Repository::new(alloc, schemas, partners)?;
            let path = Text::from_str(alloc, path)?;
            Err(Fault::from(Failure::Fault(LoadFault::Unreadable(path))))
        }
    }
}

/// The repository of these schemas and partners of which the bytes are the snapshot. They are of the file of this path.
fn restored<'s>(
    alloc: Global,
    schemas: &'s [LoadedSchema<'s>],
    partners: Vec<Text>,
    path: &str,
    bytes: &[u8],
) -> Result<Repository<'s>, Fault>
    ensures { OpensOr
        (λ repository. (new_fault schemas.now partners.items ≡ None) × IsRestored schemas.now partners.items bytes.now repository.content)
        (λ why. (tokens : List (List ℕ)) → FailsBy why (Lacks (record { partners = partners.items; tokens = tokens; schemas = schemas.now }) (Some (record { path = path.now; bytes = Some bytes.now })))) result }
{
    match Repository::restore(alloc, schemas, partners, bytes) {
        Ok(repository) => Ok(repository),
        Err(RestoreFault::New(fault)) => Err(Fault::from(fault)),
        Err(RestoreFault::NoMemory) => Err(Fault::Start(Failure::NoMemory)),
        Err(RestoreFault::BadSnapshot(lack)) => {
            let path = Text::from_str(alloc, path)?;
            Err(Fault::Start(Failure::Fault(StartFault::Snapshot(path, lack))))
        }
    }
}

/// The first partner in the configuration at this path whose token is none. It is read once more, and nothing rests on it.
pub fn bad_token_in<D: Folder>(
    alloc: Global,
    folder: &D,
    path: &str,
) -> Result<Option<String>, Failure<LoadFault>> {
    let config = config_at(alloc, folder, path)?;
    let (tokens, partners) = (config.tokens.as_slice(), config.partners.as_slice());
    match partner_of_bad(tokens, partners) {
        Some(name) => Ok(Some(format!(in alloc; "that of {}", Shown(name.as_str()))?)),
        None => Ok(None),
    }
}

/// The first of the partners whose token is none.
fn partner_of_bad<'p>(tokens: &[Text], partners: &'p [Text]) -> Option<&'p Text> {
    for (token, partner) in tokens.iter().zip(partners) {
        if !is_token(token.as_bytes()) {
            return Some(partner);
        }
    }
    None
}
