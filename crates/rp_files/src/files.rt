//! Files that are read whole: up to a size, or however large they are.
ghost use Rattle.std.specs.Prelude.{◌≡◌, ◌≢◌, ◌≤◌, List, ℕ, length, take, Option, None, IfErr, IfOk, IfSome, OnOk};
ghost use Rattle.plain_data.specs.Gives.{Gives};
ghost use Rattle.rp_files.specs.Files.{NeverFails};
ghost use Rattle.rp_files.specs.Files as spec;

use crate::fault::LoadFault;
use plain_data::{Failure, Text};
use rp_io::{DeviceFault, FILE_LIMIT, FromReader, Source};
use std::alloc::Global;
use std::fs::{File, Files};
use std::io::ErrorKind;

/// Files that are opened by their paths.
///
/// What this crate promises of files it promises of any folder whose paths hold what is known. Of
/// [`FromFiles`] this isn't known, but no code here can tell one folder from another.
pub trait Folder {
    /// An opened file, of which nothing is read yet.
    type Opened: Source + Drop;

    /// What each path holds, where this is known: the bytes of a file, or nothing where none can be
    /// opened.
    ghost files: { Self → Option (List ℕ → Option (List ℕ)) };

    /// Opens the file of this path.
    fn open(&self, path: &str) -> Result<Self::Opened, Failure<DeviceFault>>
        ensures bytes { IfSome (files self.now) (λ held. Gives (λ opened. Self.Opened.remaining opened) result (spec.opened_of (held path.now))) }
        // Its reads don't fail, where it is known what the paths hold.
        ensures sound { IfSome (files self.now) (λ _. NeverFails Self.Opened.read_failures) };
}

/// The files of `std`, by paths that start at the working directory.
///
/// No contract of `std` says what a path holds, so this isn't known here, and nothing is said of what
/// is opened.
#[derive(Drop)]
pub struct FromFiles<R> {
    files: R,
}

impl<R: Files> FromFiles<R> {
    /// The files as they stand. None is opened yet.
    pub fn new(files: R) -> Self
        ensures { result.files ≡ files }
    {
        FromFiles { files }
    }
}

impl<R: Files> Folder for FromFiles<R> {
    type Opened = FromReader<R::File>;

    ghost files = { λ _. None };

    fn open(&self, path: &str) -> Result<Self::Opened, Failure<DeviceFault>> {
        match File::open(&self.files, path) {
            Ok(file) => Ok(FromReader::new(file)),
            Err(error) if error.kind() == ErrorKind::OutOfMemory => Err(Failure::NoMemory),
            Err(_) => Err(Failure::Fault(DeviceFault)),
        }
    }
}

/// The first bytes of a reader: as many as are asked for, or all where it has fewer.
fn first_bytes<R: Source>(
    alloc: Global,
    reader: &mut R,
    most: usize,
) -> Result<Vec<u8>, Failure<DeviceFault>>
    ensures bound { IfOk result (λ front. length front.items ≤ most) }
    ensures bytes { IfOk result (λ front. IfSome (R.remaining reader.old) (λ bytes. front.items ≡ take most bytes)) }
    ensures same { OnOk result (R.read_failures reader.new ≡ R.read_failures reader.old) }
    ensures err { IfErr result (λ e. e ≢ Failure.NoMemory → R.read_failures reader.new ≢ R.read_failures reader.old) }
{
    let mut bytes = Vec::new(alloc);
    let mut piece = [0; 65_536];
    while bytes.len() < most {
        let room = piece.len().min(most - bytes.len());
        let Ok(count) = reader.read(&mut piece[..room]) else {
            return Err(Failure::Fault(DeviceFault));
        };
        if count == 0 {
            return Ok(bytes);
        }
        bytes.extend_from_slice(&piece[..count])?;
    }
    Ok(bytes)
}

/// The first bytes of the file of this path: as many as are asked for, or all where it has fewer.
fn front<D: Folder>(
    alloc: Global,
    folder: &D,
    path: &str,
    most: usize,
) -> Result<Vec<u8>, Failure<DeviceFault>>
    ensures bound { IfOk result (λ front. length front.items ≤ most) }
    ensures bytes { IfSome (D.files folder.now) (λ held. Gives (λ front. front.items) result (spec.front_of most (held path.now))) }
{
    let mut opened = folder.open(path)?;
    first_bytes(alloc, &mut opened, most)
}

/// All bytes of the file of this path. One that has more than [`FILE_LIMIT`] isn't read to its end.
pub fn file_bytes<D: Folder>(
    alloc: Global,
    folder: &D,
    path: &str,
) -> Result<Vec<u8>, Failure<LoadFault>>
    ensures limit { IfOk result (λ bytes. length bytes.items ≤ FILE_LIMIT) }
    ensures bytes { IfSome (D.files folder.now) (λ held. Gives (λ bytes. bytes.items) result (spec.file_at held path.now)) }
{
    let bytes = match front(alloc, folder, path, FILE_LIMIT + 1) {
        Ok(bytes) => bytes,
        Err(Failure::Fault(_)) => {
            let path = Text::from_str(alloc, path)?;
            return Err(Failure::Fault(LoadFault::Unreadable(path)));
        }
        Err(Failure::NoMemory) => return Err(Failure::NoMemory),
    };
    if bytes.len() > FILE_LIMIT {
        let path = Text::from_str(alloc, path)?;
        return Err(Failure::Fault(LoadFault::TooLarge(path)));
    }
    Ok(bytes)
}

/// All bytes of the file of this path, however many they are.
///
/// # Errors
///
/// It can't be opened or read; or `NoMemory`.
pub fn whole_file<D: Folder>(
    alloc: Global,
    folder: &D,
    path: &str,
) -> Result<Vec<u8>, Failure<LoadFault>>
    ensures { IfSome (D.files folder.now) (λ held. Gives (λ bytes. bytes.items) result (spec.all_at held path.now)) }
{
    match front(alloc, folder, path, usize::MAX) {
        Ok(bytes) => Ok(bytes),
        Err(Failure::Fault(_)) => {
            let path = Text::from_str(alloc, path)?;
            Err(Failure::Fault(LoadFault::Unreadable(path)))
        }
        Err(Failure::NoMemory) => Err(Failure::NoMemory),
    }
}
