//! What the bytes of a string spell, escape by escape, and how its characters are written. ISO 10303-21, 6.4.3.
#![tactic(auto)]

mod check;
mod code;
mod decode;
mod digits;
mod encode;
mod escape;
mod fault;
mod kept_bytes;
mod law;

pub use check::string_fault;
pub use decode::push_spelled;
pub use digits::digit_value;
pub use encode::push_all;
pub use fault::StringFault;
pub use kept_bytes::Kept;
pub use law::read_string_again;
