//! What the type of an attribute comes to, found once for all of its values.

use crate::ends::{Target, target_of};
use crate::types::DefinedTypes;
use ex_named::NamedDataType;
use std::marker::Model;

/// A declared type, as values are read by it: what it is behind all names.
#[derive(Drop)]
pub struct Expected<'s> {
    target: Target<'s>,
}

impl<'s> Model for Expected<'s> {
    ghost use Rattle.ex_selects.specs.Ends.{Target};
    ghost use Rattle.ex_selects.specs.Seen.{seen_target};

    ghost Value = { Target };

    ghost view = { λ e. seen_target e.target };

    ghost use Rattle.std.specs.Coded.{codes};
    ghost use Rattle.ex_named.specs.contracts.expression.NamedDataType as data_type;

    ghost coded = { Prim.hlevel (codes, data_type.the_row.coded) };
}

impl<'s> Expected<'s> {
    ghost use Rattle.std.specs.Prelude.{◌≡◌};
    ghost use Rattle.ex_selects.specs.Ends as ends;
    ghost use Rattle.ex_selects.specs.Seen.{seen_target};

    /// What values of this type are read by.
    pub fn of(types: &DefinedTypes<'s>, data_type: &'s NamedDataType) -> Expected<'s>
        ensures { result ≡ ends.target types.now data_type.now }
    {
        Expected {
            target: target_of(types.types(), data_type),
        }
    }

    /// The type as a value is read by it.
    pub fn target(&self) -> &Target<'s>
        ensures { seen_target result.now ≡ self.now }
    {
        &self.target
    }
}
