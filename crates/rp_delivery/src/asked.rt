//! What is asked of a delivery.

/// What is told of a delivery.
#[derive(Clone, Copy, PartialEq, Eq)]
pub enum Form {
    /// A text for people, with so many culprits of a check.
    Text(usize),
    /// The last line of that text alone.
    Quiet,
    /// The reply line to the validation, or to the put that was refused.
    Json,
}

/// The schemas and the files of a delivery, by their paths, and what is told of it.
#[derive(Clone, Copy)]
pub struct Asked<'a> {
    pub schemas: &'a [&'a str],
    pub files: &'a [&'a str],
    pub form: Form,
    /// The file into which a page of it is written, if one is wanted.
    pub page: Option<&'a str>,
}

impl Asked<'_> {
    /// Whether people are told lines of the files.
    pub(crate) fn tells_lines(&self) -> bool {
        self.page.is_some() || matches!(self.form, Form::Text(_))
    }
}
