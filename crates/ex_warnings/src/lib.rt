//! What is warned of in an EXPRESS schema: string literals that are `SCHEMA.NAME` for a SELECT of it. TYPEOF names no
//! SELECT, so a test against such a literal never holds.
#![tactic(auto)]

mod selects;
mod warned;

pub use warned::warnings;
