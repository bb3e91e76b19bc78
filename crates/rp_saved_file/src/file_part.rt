//! The file of `std` beside that of a path.
ghost use Rattle.std.specs.Prelude.{◌≡◌, None, ⊤, IfOk};
ghost use Rattle.std.specs.String.{string_bytes};
ghost use Rattle.rp_saved_file.specs.Counts.{Fails};
ghost use Rattle.rp_saved_file.specs.Names.{IsBeside};

use crate::fault::ReplaceFault;
use crate::part::Part;
use plain_data::Failure;
use std::alloc::Global;
use std::fs::{self, File, Files, OpenFile, OpenOptions};
use std::io::{self, ErrorKind, Write};
use std::os::unix::fs::{MetadataExt, OpenOptionsExt};

/// A file of `std` beside that of a path. Only its owner may read and write it.
///
/// No contract of `std` says what a file holds, so nothing is said of its bytes.
#[derive(Drop)]
pub struct FilePart<R: Files> {
    files: R,
    file: R::File,
    folder: R::File,
    path: String,
    /// The path with `.part` behind it.
    beside: String,
    /// It is 0 only where no call failed.
    failures: u64,
}

impl<R: Files + Drop> FilePart<R> {
    /// Makes it anew, in place of what an earlier run may have left there.
    pub(crate) fn make(
        alloc: Global,
        files: R,
        path: &str,
    ) -> Result<FilePart<R>, Failure<ReplaceFault>>
        ensures names { IfOk result (λ part. IsBeside path.now (string_bytes part.path) (string_bytes part.beside)) }
        ensures none { IfOk result (λ part. part.failures ≡ 0) }
    {
        let beside = format!(in alloc; "{path}.part")?;
        let place = String::from_str(alloc, path)?;
        match opened(&files, path, beside.as_str()) {
            Ok((folder, file)) => Ok(FilePart {
                files,
                file,
                folder,
                path: place,
                beside,
                failures: 0,
            }),
            Err(fault) => Err(Failure::Fault(fault)),
        }
    }
}

/// The folder of a path, and a new file beside that of the path.
fn opened<R: Files>(
    files: &R,
    path: &str,
    beside: &str,
) -> Result<(R::File, R::File), ReplaceFault> {
    check_place(files, path)?;
    let folder = open_folder(files, path)?;
    let file = made_anew(files, beside)?;
    Ok((folder, file))
}

/// Refuses a path where something else than a regular file stands. A link is refused too: a rename would take its place, and leave
/// the file that it leads to as it was.
fn check_place<R: Files>(files: &R, path: &str) -> Result<(), ReplaceFault> {
    if path.is_empty() {
        return Err(ReplaceFault::NoFile);
    }
    match fs::symlink_metadata(files, path) {
        Ok(found) if found.is_file() => Ok(()),
        Ok(_) => Err(ReplaceFault::NoFile),
        Err(error) if error.kind() == ErrorKind::NotFound => Ok(()),
        Err(error) => Err(ReplaceFault::Look(error)),
    }
}

/// The folder of a path.
fn folder_of(path: &str) -> &str {
    match path.rfind('/') {
        Some(0) => "/",
        Some(at) => &path[..at],
        None => ".",
    }
}

/// Opens the folder of a path, and syncs it: where that can't be done, it is told before any work is.
fn open_folder<R: Files>(files: &R, path: &str) -> Result<R::File, ReplaceFault> {
    let folder = match File::open(files, folder_of(path)) {
        Ok(folder) => folder,
        Err(error) => return Err(ReplaceFault::Folder(error)),
    };
    match folder.sync_all() {
        Ok(()) => Ok(folder),
        Err(error) => Err(ReplaceFault::Folder(error)),
    }
}

/// A new file of this path, which its owner alone may read. It fails where anything stands there.
fn new_file<R: Files>(files: &R, path: &str) -> io::Result<R::File> {
    OpenOptions::new()
        .write(true)
        .create_new(true)
        .mode(0o600)
        .open(files, path)
}

/// A new file of this path. What stands there is removed and not written over: it could be a link, or others could read it.
fn made_anew<R: Files>(files: &R, path: &str) -> Result<R::File, ReplaceFault> {
    match new_file(files, path) {
        Ok(file) => return Ok(file),
        Err(error) if error.kind() == ErrorKind::AlreadyExists => {}
        Err(error) => return Err(ReplaceFault::Make(error)),
    }
    if let Err(error) = fs::remove_file(files, path) {
        return Err(ReplaceFault::Remove(error));
    }
    match new_file(files, path) {
        Ok(file) => Ok(file),
        Err(error) => Err(ReplaceFault::Make(error)),
    }
}

impl<R: Files> FilePart<R> {
    /// Whether the file that was made still stands beside the other. Another program that replaces the same file takes it away.
    fn stands(&self) -> io::Result<bool> {
        let made = self.file.metadata()?;
        let found = fs::symlink_metadata(&self.files, self.beside.as_str())?;
        Ok(made.dev() == found.dev() && made.ino() == found.ino())
    }

    /// Renames the file, unless another one stands beside the place.
    fn put_in_place(&self) -> Result<(), ReplaceFault> {
        match self.stands() {
            Ok(true) => {}
            Ok(false) => return Err(ReplaceFault::Taken),
            Err(error) if error.kind() == ErrorKind::NotFound => return Err(ReplaceFault::Taken),
            Err(error) => return Err(ReplaceFault::Rename(error)),
        }
        match fs::rename(&self.files, self.beside.as_str(), self.path.as_str()) {
            Ok(()) => Ok(()),
            Err(error) => Err(ReplaceFault::Rename(error)),
        }
    }

    /// Counts a failure.
    fn count<E>(&mut self, error: E) -> E
        ensures same { result ≡ error }
        ensures path { self.new.path ≡ self.old.path }
        ensures counted { Fails self.old.failures self.new.failures }
    {
        self.failures = match self.failures {
            u64::MAX => 1,
            failures => failures + 1,
        };
        error
    }
}

impl<R: Files> Part for FilePart<R> {
    ghost could_leave = { λ _ _. ⊤ };

    ghost path = { λ part. string_bytes part.path };

    ghost contents = { λ _. None };

    ghost synced = { λ _. None };

    ghost seen = { λ _. None };

    ghost may_leave = { λ _ _. ⊤ };

    ghost moment = { λ _. 0 };

    ghost left_since = { λ _ _ _. ⊤ };

    ghost failures = { λ part. part.failures };

    ghost counts_now = { λ _ _ _ _ _. tt };

    ghost only_now = { λ _ _ _. tt };

    fn write(&mut self, bytes: &[u8]) -> io::Result<usize> {
        match self.file.write(bytes) {
            Ok(count) if count > 0 || bytes.is_empty() => Ok(count),
            Ok(_) => Err(self.count(io::Error::from(ErrorKind::WriteZero))),
            Err(error) => Err(self.count(error)),
        }
    }

    fn sync(&mut self) -> Result<(), ReplaceFault> {
        match self.file.sync_all() {
            Ok(()) => Ok(()),
            Err(error) => Err(self.count(ReplaceFault::Sync(error))),
        }
    }

    fn rename(&mut self) -> Result<(), ReplaceFault> {
        match self.put_in_place() {
            Ok(()) => Ok(()),
            Err(fault) => Err(self.count(fault)),
        }
    }

    fn settle(&mut self) -> Result<(), ReplaceFault> {
        match self.folder.sync_all() {
            Ok(()) => Ok(()),
            Err(error) => Err(self.count(ReplaceFault::Settle(error))),
        }
    }

    fn remove(&mut self) {
        if let Ok(true) = self.stands() {
            let _ = fs::remove_file(&self.files, self.beside.as_str());
        }
    }
}
