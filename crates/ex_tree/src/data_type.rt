//! Types (clause 8).

use crate::expression::Name;
use plain_data::Boxed;

/// `(length)` or `(length) FIXED`
#[derive(Clone, Copy, PartialEq, Eq)]
pub struct Width {
    pub length: u64,
    pub fixed: bool,
}

/// `[low:high]`; without a high bound where it is `?`.
#[derive(Clone, Copy, PartialEq, Eq)]
pub struct Bounds {
    pub low: u64,
    pub high: Option<u64>,
}

#[derive(Clone, Copy, PartialEq, Eq)]
pub struct ArrayBounds {
    pub low: u64,
    pub high: u64,
}

#[derive(Clone, Copy, PartialEq, Eq)]
pub enum SimpleType {
    Binary(Option<Width>),
    Boolean,
    Integer,
    Logical,
    Number,
    Real,
    String(Option<Width>),
}

/// A type of an attribute, a constant, a variable, a parameter or a result. Bounds that are not there are `[0:?]`;
/// the labels of AGGREGATE and GENERIC are dropped.
pub enum DataType {
    Simple(SimpleType),
    /// An entity or a defined type.
    Named(Name),
    Array {
        bounds: ArrayBounds,
        optional: bool,
        unique: bool,
        element: Boxed<DataType>,
    },
    List {
        bounds: Bounds,
        unique: bool,
        element: Boxed<DataType>,
    },
    Bag {
        bounds: Bounds,
        element: Boxed<DataType>,
    },
    Set {
        bounds: Bounds,
        element: Boxed<DataType>,
    },
    /// Of parameters and results alone.
    Aggregate(Boxed<DataType>),
    /// Of parameters and results alone.
    Generic,
}

impl Drop for DataType {
    #[cycle(data_type_drop)]
    fn drop(self) {
        match self {
            DataType::Simple(_) | DataType::Generic => {}
            DataType::Named(name) => drop(name),
            DataType::Array {
                bounds: _,
                optional: _,
                unique: _,
                element,
            } => drop(element),
            DataType::List {
                bounds: _,
                unique: _,
                element,
            } => drop(element),
            DataType::Bag { bounds: _, element } => drop(element),
            DataType::Set { bounds: _, element } => drop(element),
            DataType::Aggregate(element) => drop(element),
        }
    }
}
