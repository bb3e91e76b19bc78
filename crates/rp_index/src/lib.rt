//! What a model holds, with an index beside it: which instances may refer to a name, which may be of an entity, and which links may
//! lead to an instance of some name.
//!
//! What is kept may name too many, never too few. Whoever asks tests each that he is given, and needn't look at the others: so no
//! answer tells what is kept.
#![tactic(auto)]

mod edits;
mod index;
mod indexed;
mod kinds;
mod pairs;
mod uses;

pub use index::Index;
pub use indexed::{Indexed, few_among, index_of};
pub use kinds::Kind;
pub use pairs::ascending;
