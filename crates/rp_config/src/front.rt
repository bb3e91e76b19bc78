//! What a text that is no schema may be instead, by its first bytes, for words beside its first fault. Nothing rests on it.
use std::fs;
use std::fs::{File, Files};
use std::io::Read;

/// How an exchange file begins, in either case.
const EXCHANGE_FILE: &[u8] = b"ISO-10303-21";

/// The byte order mark in UTF-8.
const MARK: &[u8] = b"\xef\xbb\xbf";

/// Whether bytes begin with a byte order mark, in UTF-8 or in UTF-16.
pub(crate) fn has_mark(bytes: &[u8]) -> bool {
    bytes.starts_with(MARK) || bytes.starts_with(b"\xff\xfe") || bytes.starts_with(b"\xfe\xff")
}

/// Whether bytes begin an exchange file, perhaps behind a byte order mark and blanks.
fn is_exchange_file(bytes: &[u8]) -> bool {
    let begin = bytes
        .iter()
        .position(|byte| *byte > b' ' && !MARK.contains(byte));
    let word = begin.and_then(|at| bytes.get(at..at.saturating_add(EXCHANGE_FILE.len())));
    word.is_some_and(|word| word.eq_ignore_ascii_case(EXCHANGE_FILE))
}

/// Whether the file of this path gives its bytes as often as it is read. A pipe doesn't, and may wait for ever for others.
pub fn is_read_again<R: Files>(files: &R, path: &str) -> bool {
    fs::metadata(files, path).is_ok_and(|found| found.is_file())
}

/// What the text in the file of this path is, where its first bytes tell why it is no schema. The file is opened once more.
pub fn what_begins<R: Files>(files: &R, path: &str) -> Option<&'static str> {
    if !is_read_again(files, path) {
        return None;
    }
    let mut file = File::open(files, path).ok()?;
    let mut bytes = [0; 1_024];
    let count = file.read(&mut bytes).ok()?;
    let front = bytes.get(..count)?;
    if is_exchange_file(front) {
        Some("it is an exchange file (ISO 10303-21)")
    } else if has_mark(front) {
        Some("it begins with a byte order mark")
    } else {
        None
    }
}
