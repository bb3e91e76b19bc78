//! How much is read at most.

/// The most bytes that a line may have, its line feed not counted: 16 MiB.
pub const LINE_LIMIT: usize = 16_777_216;

/// The most bytes of a file, and of a text that stands for one: 8 MiB.
pub const FILE_LIMIT: usize = 8_388_608;
