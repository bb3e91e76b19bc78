//! How an exchange file's tree is spelled, and that it is read again from its spelling.
#![tactic(auto)]

mod law;

pub use law::{
    only_these_are_read, read_file_again, read_instance_again, read_lines_again, read_value_again,
    tokens_are_spelled,
};
