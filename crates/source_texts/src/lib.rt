//! What people are shown of the texts that a program works on: the lines and keywords of instances in an exchange file, the texts of
//! rules in a schema, and paths. Both texts were read before; nothing rests on what is found here but what people are shown.
#![tactic(auto)]

mod defined;
mod inside;
mod instances;
mod keywords;
mod paths;
mod rules;
mod wrapped;

pub use defined::{Definition, definitions};
pub use instances::instance_text;
pub use keywords::push_keywords;
pub use paths::push_path;
pub use rules::{Clause, rule_of};
pub use wrapped::push_rule;
