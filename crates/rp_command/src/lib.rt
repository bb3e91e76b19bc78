//! The command line of the program: what it asks for, and the texts of help.
#![tactic(auto)]

mod command;
mod fault;
mod texts;

pub use command::{Command, Delivery, Run, Service, Telling, command_of};
pub use fault::CommandLineFault;
