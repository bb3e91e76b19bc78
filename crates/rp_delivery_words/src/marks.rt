//! The culprits that are told of each file, and where they are defined.
use crate::put::PutFile;
use rp_plain::reports::{ToldCheck, ToldCulprit, ToldReport};
use rp_rows::rows::Key;
use source_texts::{Definition, definitions};
use std::alloc::{AllocError, Global};

/// The names of instances of a file that are told, in order and each once, and where they are defined.
#[derive(Drop)]
pub(crate) struct Marks {
    names: Vec<u64>,
    definitions: Vec<Definition>,
}

impl Marks {
    /// Where the instance of this name is defined.
    pub(crate) fn definition(&self, name: u64) -> Option<Definition> {
        match self.names.binary_search(&name) {
            Ok(place) => self.definitions.get(place).copied(),
            Err(_) => None,
        }
    }

    /// Looks for the names in the bytes of their file.
    fn find(&mut self, alloc: Global, text: &[u8]) -> Result<(), AllocError> {
        if self.names.is_empty() {
            return Ok(());
        }
        self.names.sort_unstable();
        self.names.dedup();
        self.definitions = definitions(alloc, text, &self.names)?;
        Ok(())
    }
}

/// The place of the file that is in the model of this key, whose name is a number from 1.
pub(crate) fn place_of(model: &Key) -> usize {
    match model.name.as_str().parse::<usize>() {
        Ok(number) => number.saturating_sub(1),
        Err(_) => 0,
    }
}

/// The first of these, and no more than so many.
pub(crate) fn front(culprits: &[ToldCulprit], most: usize) -> &[ToldCulprit] {
    culprits.get(..most).unwrap_or(culprits)
}

/// Where the culprits of a report are defined, for each file in turn: of each check, so many.
pub(crate) fn marks_of(
    alloc: Global,
    files: &[PutFile<'_>],
    report: &ToldReport,
    most: usize,
) -> Result<Vec<Marks>, AllocError> {
    let mut marks = Vec::with_capacity(alloc, files.len())?;
    for _ in files {
        marks.push(Marks {
            names: Vec::new(alloc),
            definitions: Vec::new(alloc),
        })?;
    }
    for check in report.checks.as_slice() {
        mark_check(&mut marks, check, most)?;
    }
    for (place, file) in files.iter().enumerate() {
        if let Some(marks) = marks.get_mut(place) {
            marks.find(alloc, file.text.as_bytes())?;
        }
    }
    Ok(marks)
}

/// Marks the culprits of a check that are told.
fn mark_check(marks: &mut Vec<Marks>, check: &ToldCheck, most: usize) -> Result<(), AllocError> {
    let left = mark_list(marks, check.violating.as_slice(), most)?;
    let left = mark_list(marks, check.limited.as_slice(), left)?;
    let left = mark_list(marks, check.not_run.as_slice(), left)?;
    mark_list(marks, check.unknown.as_slice(), left)?;
    Ok(())
}

/// Marks culprits of one verdict, and answers how many more may be told of the check.
fn mark_list(
    marks: &mut Vec<Marks>,
    culprits: &[ToldCulprit],
    left: usize,
) -> Result<usize, AllocError> {
    let told = front(culprits, left);
    for culprit in told {
        if let Some(marks) = marks.get_mut(place_of(culprit.model.get())) {
            marks.names.push(culprit.instance)?;
        }
    }
    Ok(left.saturating_sub(told.len()))
}
