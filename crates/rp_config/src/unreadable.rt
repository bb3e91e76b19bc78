//! Why a file can't be read, for the line that the program ends with. Nothing rests on it: whether bytes are had is what
//! [`file_bytes`](rp_files::file_bytes) says.
use std::fs::{File, Files};
use std::io::{ErrorKind, Read};
use std::{fmt, io};

/// Why a file can't be read.
#[derive(Clone, Copy, Drop)]
pub struct Unreadable(pub io::Error);

impl fmt::Display for Unreadable {
    fn fmt<W: fmt::Write>(&self, f: &mut fmt::Formatter<W>) -> fmt::Result {
        match self.0.kind() {
            ErrorKind::NotFound => f.write_str("there is no such file"),
            ErrorKind::NotADirectory => f.write_str("a part of its path is no folder"),
            ErrorKind::IsADirectory => f.write_str("it is a folder"),
            ErrorKind::PermissionDenied => f.write_str("permission is denied"),
            ErrorKind::InvalidFilename => f.write_str("its path is too long"),
            ErrorKind::FilesystemLoop => f.write_str("its links lead in a circle"),
            _ => write!(f, "{}", self.0),
        }
    }
}

/// Why the file of this path can't be read, as the system tells it: it is opened and read once more. Nothing where it can be
/// read now.
pub fn why_unreadable<R: Files>(files: &R, path: &str) -> Option<Unreadable> {
    let mut file = match File::open(files, path) {
        Ok(file) => file,
        Err(error) => return Some(Unreadable(error)),
    };
    file.read(&mut [0]).err().map(Unreadable)
}
