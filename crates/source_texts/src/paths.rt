//! Paths as people are shown them.
use std::alloc::{AllocError, Global};

/// Puts a path behind a text, in quotes where it has signs that no line has.
pub fn push_path(alloc: Global, out: &mut String, path: &str) -> Result<(), AllocError> {
    if path.chars().any(|sign| sign.is_control()) {
        let quoted = format!(in alloc; "{path:?}")?;
        return out.push_str(quoted.as_str());
    }
    out.push_str(path)
}
