//! How attributes that are named may be declared.

ghost use Rattle.std.specs.Prelude.{◌≡◌};
ghost use Rattle.ex_scopes.specs.Sorts.{admitted};

use ex_named::AttributeSort;

/// Of which sorts an attribute that is named can be.
#[derive(Clone, Copy)]
pub enum Sorts {
    Any,
    Explicit,
    ExplicitOrDerived,
}

impl Sorts {
    pub(crate) fn admit(self, sort: AttributeSort) -> bool
        ensures { result ≡ admitted self sort }
    {
        match (self, sort) {
            (Sorts::Any, _) => true,
            (Sorts::Explicit, sort) => sort == AttributeSort::Explicit,
            (Sorts::ExplicitOrDerived, sort) => sort != AttributeSort::Inverse,
        }
    }
}
