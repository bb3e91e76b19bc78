//! What a snapshot has of a model and of a group.

use plain_data::{Items, Rows, Text};
use rp_content::Link;
use rp_rows::rows::{Grant, Key, Listing};

/// What a snapshot has of a model, but for its file.
#[derive(Drop)]
pub struct SavedModel {
    pub key: Key,
    pub schema: Text,
    /// The greatest instance name that was ever used in it.
    pub greatest: u64,
    pub grants: Rows<Grant>,
    pub links: Items<Link>,
}

/// What a snapshot has of a group.
#[derive(Drop)]
pub struct SavedGroup {
    pub key: Key,
    pub listing: Listing,
    pub grants: Rows<Grant>,
}
