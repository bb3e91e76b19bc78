//! Which name stands twice in a configuration, for the line that the program ends with. Nothing rests on it.
use crate::loading::{config_at, schema_at};
use crate::shown::Shown;
use plain_data::{Failure, Rows, Text};
use rp_files::{Folder, LoadFault};
use std::alloc::{AllocError, Global};

/// The place of the first name that another one has before it, behind the place of that.
fn first_again(names: &[Text]) -> Option<(usize, usize)> {
    for (place, name) in names.iter().enumerate() {
        match names.iter().position(|other| other.is(name)) {
            Some(first) if first < place => return Some((first, place)),
            _ => {}
        }
    }
    None
}

/// The first partner in the configuration at this path whose name another one has before him. It is read once more.
pub fn partner_twice_in<D: Folder>(
    alloc: Global,
    folder: &D,
    path: &str,
) -> Result<Option<String>, Failure<LoadFault>> {
    let config = config_at(alloc, folder, path)?;
    let names = config.partners.as_slice();
    match first_again(names).and_then(|(_, again)| names.get(again)) {
        Some(name) => Ok(Some(format!(in alloc; "{}", Shown(name.as_str()))?)),
        None => Ok(None),
    }
}

/// The first two partners in the configuration at this path who have one token. It is read once more.
pub fn token_twice_in<D: Folder>(
    alloc: Global,
    folder: &D,
    path: &str,
) -> Result<Option<String>, Failure<LoadFault>> {
    let config = config_at(alloc, folder, path)?;
    let names = config.partners.as_slice();
    let Some((first, again)) = first_again(config.tokens.as_slice()) else {
        return Ok(None);
    };
    match (names.get(first), names.get(again)) {
        (Some(first), Some(again)) => {
            let (first, again) = (Shown(first.as_str()), Shown(again.as_str()));
            Ok(Some(format!(in alloc; "{first} and {again}")?))
        }
        _ => Ok(None),
    }
}

/// The name of the schema in the file of this path.
fn name_at<D: Folder>(alloc: Global, folder: &D, path: &str) -> Result<Text, Failure<LoadFault>> {
    let schema = schema_at(alloc, folder, path)?;
    Ok(Text::from_str(alloc, schema.checked().name())?)
}

/// The names of the schemas in the files of these paths.
fn names_at<D: Folder>(
    alloc: Global,
    folder: &D,
    paths: &[&str],
) -> Result<Rows<Text>, Failure<LoadFault>> {
    let mut names = Rows::new(alloc);
    for path in paths {
        names.push(name_at(alloc, folder, path)?)?;
    }
    Ok(names)
}

/// The first name that another one has before it, and the files of both.
fn files_of_one(
    alloc: Global,
    names: &[Text],
    paths: &[&str],
) -> Result<Option<String>, AllocError> {
    let Some((first, again)) = first_again(names) else {
        return Ok(None);
    };
    match (names.get(again), paths.get(first), paths.get(again)) {
        (Some(name), Some(first), Some(again)) => {
            let (name, first, again) = (Shown(name.as_str()), Shown(first), Shown(again));
            Ok(Some(format!(in alloc; "{name}, of {first} and {again}")?))
        }
        _ => Ok(None),
    }
}

/// The first schema in the files of these paths whose name another one has before it, and the files of both. They are read once
/// more.
pub fn schema_twice<D: Folder>(
    alloc: Global,
    folder: &D,
    paths: &[&str],
) -> Result<Option<String>, Failure<LoadFault>> {
    let names = names_at(alloc, folder, paths)?;
    Ok(files_of_one(alloc, names.as_slice(), paths)?)
}

/// The same of the schemas of the configuration at this path, which is read once more too.
pub fn schema_twice_in<D: Folder>(
    alloc: Global,
    folder: &D,
    path: &str,
) -> Result<Option<String>, Failure<LoadFault>> {
    let config = config_at(alloc, folder, path)?;
    let mut paths = Vec::new(alloc);
    for path in config.schemas.as_slice() {
        paths.push(path.as_str())?;
    }
    schema_twice(alloc, folder, &paths)
}
