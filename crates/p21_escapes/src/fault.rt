/// Why bytes spell no string.
#[derive(Clone, Copy, PartialEq, Eq)]
pub enum StringFault {
    /// No escape has this form, or an apostrophe isn't doubled.
    BadEscape,
    /// An escape selects another part of ISO 8859 than the first.
    PageUnsupported,
    /// A code is no character: a surrogate by itself, or past 10FFFF.
    BadCode,
    NotUtf8,
}
