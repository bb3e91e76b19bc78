//! Files that were put.
use plain_data::Text;
use source_texts::push_path;
use std::alloc::{AllocError, Global};

/// A file that was put.
pub struct PutFile<'a> {
    pub path: &'a str,
    /// Its bytes; none where no lines are told.
    pub text: Text,
    /// How many instances it has.
    pub instances: usize,
}

impl PutFile<'_> {
    /// What its instances are called, as many as there are.
    pub(crate) fn noun(&self) -> &'static str {
        if self.instances == 1 {
            "instance"
        } else {
            "instances"
        }
    }
}

impl Drop for PutFile<'_> {
    fn drop(self) {
        let PutFile {
            path: _,
            text,
            instances: _,
        } = self;
        drop(text);
    }
}

/// Puts a line for each file behind a text.
pub(crate) fn push_files(
    alloc: Global,
    out: &mut String,
    files: &[PutFile<'_>],
    schema: &str,
) -> Result<(), AllocError> {
    for file in files {
        push_path(alloc, out, file.path)?;
        let (count, noun) = (file.instances, file.noun());
        let line = format!(in alloc; ": {count} {noun} of {schema}\n")?;
        out.push_str(line.as_str())?;
    }
    Ok(())
}
