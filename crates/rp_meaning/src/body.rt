//! What nests.

use plain_data::Items;
use rp_value::Value;

/// A body, and what it is run on.
pub enum Body {
    /// The value of an attribute that a DERIVE clause gives: the entity, the place in its clause, and the instance.
    Derived(usize, usize, u64),
    /// A constant.
    Constant(usize),
    /// A function with the values of its arguments.
    Function(usize, Items<Value>),
}

impl Drop for Body {
    fn drop(self) {
        match self {
            Body::Derived(_, _, _) | Body::Constant(_) => {}
            Body::Function(_, arguments) => drop(arguments),
        }
    }
}
