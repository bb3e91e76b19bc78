//! The instances that an evaluation sees.

use ex_named::AttributePlace;
use plain_data::Items;
use rp_code::Role;
use rp_value::Value;
use std::alloc::{AllocError, Global};
use std::marker::Model;

/// What is read at a place in place of the value that is written there.
#[derive(Drop)]
pub struct ReadValue {
    pub place: usize,
    pub value: Value,
}

/// An instance of a population.
#[derive(Drop)]
pub struct Seen<'d> {
    /// Its entities, in the order in which its values stand.
    pub entities: &'d [usize],
    /// The attributes that have values.
    pub attributes: &'d [AttributePlace],
    /// Their values as they are written.
    pub written: &'d [Value],
    /// What is read in place of some of them; the others are read as they are written.
    pub differing: &'d [ReadValue],
}

impl<'d> Model for Seen<'d> {
    ghost use Rattle.rp_meaning.specs.Populations.{Instance, as_read, stored};
    ghost use Rattle.std.specs.Coded.{codes};
    ghost use Rattle.rp_value.specs.contracts.value.Value as value;

    ghost Value = { Instance };

    ghost coded = { Prim.hlevel (codes, value.the_row.coded) };

    ghost view = { λ s. record { entities = s.entities.now; values = stored s.attributes.now s.written.now (as_read s.differing.now s.written.now) } };
}

/// The instances of one population, however they are kept.
pub trait Domain {
    ghost use Rattle.std.specs.Prelude.{◌≡◌, List, length, IfOk, slice_get};
    ghost use Rattle.std.specs.Option.{option_copied};
    ghost use Rattle.rp_meaning.specs.Populations.{Instance, extent};
    ghost use Rattle.rp_meaning.specs.Uses.{users};

    /// In their order.
    ghost population: { Self → List Instance };

    fn count(&self) -> usize
        ensures { result ≡ length (population self.now) };

    fn instance(&self, at: usize) -> Option<Seen<'_>>
        ensures { result ≡ slice_get (population self.now) at };

    /// The instances of an entity, in their order.
    fn extent(&self, alloc: Global, entity: usize) -> Result<Items<Value>, AllocError>
        ensures { IfOk result (λ found. found ≡ extent (population self.now) entity) };

    /// The users of what stands at a place, in their order, each as often as it uses it in the role.
    fn users(&self, alloc: Global, at: usize, role: &Role) -> Result<Items<Value>, AllocError>
        ensures { IfOk result (λ found. found ≡ users (population self.now) role.now at) };
}
