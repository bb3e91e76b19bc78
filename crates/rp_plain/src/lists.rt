//! What lists have in them.

use plain_data::Text;
use rp_rows::rows::{Key, Right};

/// A model or a group in a list.
#[derive(Drop)]
pub struct Item {
    pub owner: Text,
    pub name: Text,
    pub schema: Text,
    pub right: Right,
}

/// An instance's name, and its type as it is told.
#[derive(Drop)]
pub struct ListedInstance {
    pub name: u64,
    pub type_name: Text,
}

/// A model that a group lists.
#[derive(Drop)]
pub struct Member {
    pub model: Key,
    /// Its instances belong to the group's population.
    pub counts: bool,
}
