//! What people are told of files that were put and validated: a text of what was read, of each check with its culprits, and the
//! verdict in words; and the same as a page of HTML. Both are made of the reply and of the texts of the files and of their schema,
//! and change nothing of them.
#![tactic(auto)]

mod checks;
mod culprits;
mod escaped;
mod marks;
mod page;
mod put;
mod refused;
mod rule_texts;
mod sections;
mod told;
mod verdict;
mod words;

pub use fault_places::FaultPlace;
pub use page::{RefusedPage, ReportPage, refused_page, report_page};
pub use put::PutFile;
pub use refused::{place_of_refusal, refused_line, refused_text, words_of_refusal};
pub use told::{SchemaText, report_text};
pub use verdict::verdict_line;
