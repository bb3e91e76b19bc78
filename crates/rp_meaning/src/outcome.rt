//! What comes of an evaluation.

use rp_value::Value;

pub enum Outcome {
    /// The value, and the steps that it took.
    Value(Value, usize),
    Limit,
}

impl Drop for Outcome {
    fn drop(self) {
        match self {
            Outcome::Value(value, _) => drop(value),
            Outcome::Limit => {}
        }
    }
}
