//! Files of pages.
use rp_config::{Unreadable, is_read_again};
use rp_program::Pages;
use std::fs::{File, Files};
use std::io::{BufWriter, ErrorKind, Read, Write};
use std::{fmt, io};

/// How each page begins.
const FRONT: &[u8] = b"<!DOCTYPE html>";

/// Whether the file of this path has something else than a page: whoever leaves out the path of a page behind `--html` names a file
/// that is to be read, and would lose it.
fn has_something_else<R: Files>(files: &R, path: &str) -> bool {
    if !is_read_again(files, path) {
        return false;
    }
    let Ok(mut file) = File::open(files, path) else {
        return false;
    };
    let mut bytes = [0; FRONT.len()];
    match file.read(&mut bytes) {
        Ok(count) => !bytes
            .get(..count)
            .is_some_and(|front| FRONT.starts_with(front)),
        Err(_) => false,
    }
}

/// The files of the system, each of which is made anew for a page.
#[derive(Drop)]
pub struct PageFiles<'r, R> {
    rt: &'r R,
}

impl<'r, R: AllocGlobal + Files> PageFiles<'r, R> {
    pub fn new(rt: &'r R) -> PageFiles<'r, R> {
        PageFiles { rt }
    }
}

impl<R: AllocGlobal + Files> Pages for PageFiles<'_, R> {
    fn write<T: fmt::Display + Drop>(&mut self, path: &str, page: T) -> io::Result<()> {
        if has_something_else(self.rt, path) {
            return Err(io::Error::other("it has something else than a page"));
        }
        let file = File::create(self.rt, path)?;
        let mut writer = BufWriter::new(self.rt.alloc(), file)?;
        writer.write_fmt(page)?;
        writer.flush()
    }
}

/// Why a file can't be written.
#[derive(Clone, Copy, Drop)]
pub struct Unwritten(pub io::Error);

impl fmt::Display for Unwritten {
    fn fmt<W: fmt::Write>(&self, f: &mut fmt::Formatter<W>) -> fmt::Result {
        match self.0.kind() {
            ErrorKind::NotFound => f.write_str("there is no such folder"),
            ErrorKind::StorageFull => f.write_str("there is no room"),
            _ => Unreadable(self.0).fmt(f),
        }
    }
}
