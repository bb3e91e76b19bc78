//! Who is told how far a delivery is.

/// Who is told how far a delivery is. Nothing of what is answered rests on it.
pub trait Notes {
    /// The file of this number among so many is read next.
    fn file(&mut self, number: usize, all: usize);

    /// All files are put, and the rules are tried next.
    fn rules(&mut self);
}
