//! An explicit attribute in an instance.

ghost use Rattle.std.specs.Prelude.{◌≡◌};

use ex_named::{AttributePlace, NamedDataType};
use ex_tree::Name;
use std::marker::Model;

/// An explicit attribute in an instance: what a file writes one value for.
#[derive(Drop)]
pub struct Slot<'s> {
    place: AttributePlace,
    name: &'s Name,
    data_type: &'s NamedDataType,
    is_optional: bool,
    is_derived: bool,
}

impl<'s> Model for Slot<'s> {
    ghost use Rattle.ex_slots.specs.Slots as spec;

    ghost Value = { spec.Slot };

    ghost view = { λ s. record { place = s.place; name = s.name.now; data_type = s.data_type.now; is_optional = s.is_optional; is_derived = s.is_derived } };

    ghost use Rattle.std.specs.Coded.{codes};
    ghost use Rattle.ex_named.specs.contracts.expression.NamedDataType as named_type;

    ghost coded = { Prim.hlevel (codes, named_type.the_row.coded) };
}

impl<'s> Slot<'s> {
    pub(crate) fn new(
        place: AttributePlace,
        name: &'s Name,
        data_type: &'s NamedDataType,
        is_optional: bool,
        is_derived: bool,
    ) -> Slot<'s>
        ensures { result ≡ record { place = place; name = name.now; data_type = data_type.now; is_optional = is_optional; is_derived = is_derived } }
    {
        Slot {
            place,
            name,
            data_type,
            is_optional,
            is_derived,
        }
    }

    /// Its declaration, which is the first one where others redeclare it.
    pub fn place(&self) -> AttributePlace
        ensures { result ≡ self.now.place }
    {
        self.place
    }

    pub fn name(&self) -> &'s Name
        ensures { result.now ≡ self.now.name }
    {
        self.name
    }

    /// The type with which it is declared first.
    pub fn data_type(&self) -> &'s NamedDataType
        ensures { result.now ≡ self.now.data_type }
    {
        self.data_type
    }

    /// Whether its first declaration is OPTIONAL.
    pub fn is_optional(&self) -> bool
        ensures { result ≡ self.now.is_optional }
    {
        self.is_optional
    }

    /// Whether an entity of the instance redeclares it in DERIVE: a file writes `*` for it.
    pub fn is_derived(&self) -> bool
        ensures { result ≡ self.now.is_derived }
    {
        self.is_derived
    }
}
