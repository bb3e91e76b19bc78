//! What people are shown of a fault of an exchange file: where it lies, the line of the text with a caret below, and what stands
//! there in place of what. The file was refused before; nothing rests on what is found here but what people are shown, and where
//! nothing is found that agrees with the refusal, nothing is told.
#![tactic(auto)]

mod attributes;
mod combinations;
mod definitions;
mod expressions;
mod faulty;
mod files;
mod instances;
mod lines;
mod place;
mod refused;
mod spelled;
mod types;

pub use files::place_of_file_fault;
pub use instances::place_of_instance_fault;
pub use place::FaultPlace;
