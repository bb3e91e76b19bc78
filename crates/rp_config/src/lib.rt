//! The files that the program is started with: its configuration, and the schemas that this names.
#![tactic(auto)]

mod config;
mod front;
mod loading;
mod shown;
mod twice;
mod unreadable;
mod wrong;

pub use config::Config;
pub use front::{is_read_again, what_begins};
pub use loading::{Loaded, config_at, load_all, schema_of};
pub use shown::Shown;
pub use twice::{partner_twice_in, schema_twice, schema_twice_in, token_twice_in};
pub use unreadable::{Unreadable, why_unreadable};
pub use wrong::wrong_place;
