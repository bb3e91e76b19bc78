//! The characters of a string in an exchange file, and how they are spelled. ISO 10303-21, 6.4.3.
#![tactic(auto)]

mod decode;
mod encode;

pub use decode::decode_string;
pub use encode::encode_string;
pub use p21_escapes::{StringFault, read_string_again, string_fault};
