//! Why nothing is loaded.
use plain_data::Text;

/// Why a file gives nothing.
pub enum LoadFault {
    /// The file of this path can't be opened, or a read of it failed.
    Unreadable(Text),
    /// The file of this path has more than [`FILE_LIMIT`](rp_io::FILE_LIMIT) bytes.
    TooLarge(Text),
    /// The file of this path is no configuration.
    Config(Text),
    /// The file of this path is no schema: the kind of its first fault, its line and its column.
    Schema(Text, Text),
}

// (written out, so that it is one call wherever a fault may be dropped)
impl Drop for LoadFault {
    fn drop(self) {
        match self {
            LoadFault::Unreadable(path) => drop(path),
            LoadFault::TooLarge(path) => drop(path),
            LoadFault::Config(path) => drop(path),
            LoadFault::Schema(path, words) => {
                drop(path);
                drop(words);
            }
        }
    }
}
