//! What a schema declares, as expressions are compiled by it.

ghost use Rattle.std.specs.Prelude.{◌≡◌, [], ◌∷◌, IfOk, OnOk, map};
ghost use Rattle.std.specs.List.{flat_map};
ghost use Rattle.graphs.specs.Graphs.{family as family_of};
ghost use Rattle.name_tables.specs.Names.{named as named_in};
ghost use Rattle.rp_meaning.specs.CompiledExpressions as spec;

use ancestors::{Descent, Family};
use ex_named::AttributePlace;
use ex_typing::Known;
use name_tables::NameRows;
use rp_code::NamedRole;
use std::marker::Model;

/// What a schema declares, as expressions are compiled by it.
pub struct Declared<'s> {
    known: &'s Known,
    /// Of each entity its direct supertypes.
    supertypes: Descent,
    /// The attributes of entities, in the order of the names of these.
    attributes: NameRows<'s, AttributePlace>,
    roles: &'s [NamedRole],
}

impl<'s> Drop for Declared<'s> {
    fn drop(self) {
        let Declared {
            known: _,
            supertypes,
            attributes,
            roles: _,
        } = self;
        drop(supertypes);
        drop(attributes);
    }
}

impl<'s> Model for Declared<'s> {
    ghost use Rattle.std.specs.Prelude.{◌≡◌};
    ghost use Rattle.rp_meaning.specs.CompiledExpressions as spec;

    ghost Value = { spec.Declared };

    ghost view = { λ d. record { known = d.known.now; attributes = d.attributes; roles = d.roles.now } };

    ghost invariant = { λ d. d.supertypes ≡ d.known.now.attributes.supertypes };
}

impl<'s> Declared<'s> {
    pub fn new(
        known: &'s Known,
        supertypes: Descent,
        attributes: NameRows<'s, AttributePlace>,
        roles: &'s [NamedRole],
    ) -> Declared<'s>
        requires { supertypes ≡ known.now.attributes.supertypes }
        ensures { result ≡ record { known = known.now; attributes = attributes.entry; roles = roles.now } }
    {
        Declared {
            known,
            supertypes,
            attributes,
            roles,
        }
    }

    pub(crate) fn known(&self) -> &Known
        ensures { result.now ≡ self.now.known }
    {
        self.known
    }

    /// An entity and those above it.
    pub(crate) fn family(&self, entity: usize) -> Family<'_>
        ensures { result ≡ family_of self.now.known.attributes.supertypes entity }
    {
        Family::of(&self.supertypes, entity)
    }

    /// The attributes of this name, in the order of the names of their entities.
    pub(crate) fn attributes_named(&self, name: &str) -> &[AttributePlace]
        ensures { result.now ≡ named_in name.now self.now.attributes }
    {
        self.attributes.get(name.as_bytes())
    }

    /// The roles of the schema.
    pub(crate) fn roles(&self) -> &[NamedRole]
        ensures { result.now ≡ self.now.roles }
    {
        self.roles
    }
}
