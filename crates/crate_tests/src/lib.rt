//! Tests of what no input of the program shows: how decimals compare, how values and instances are copied, and what is said of
//! values that no expression has. Here they are proved once, and no crate below is proved again for them.
#![tactic(auto)]

#[cfg(test)]
mod tests;
