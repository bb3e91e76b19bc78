//! What contracts see of a schema whose names are bound, and of one whose types are checked.
#![tactic(auto)]
