//! The instances of a file, as definitions and lemmas: elements in order, names that stand twice, and what a value refers to.
#![tactic(auto)]
