//! How much there may be at most.

pub use p21_tree::MAX_NAME;

/// The models of one owner.
pub const MAX_MODELS: usize = 100;

/// The groups of one owner.
pub const MAX_GROUPS: usize = 100;

/// The models that a group lists.
pub const MAX_MEMBERS: usize = 50;

/// The instances of a model.
pub const MAX_INSTANCES: usize = 200_000;

/// The links of a model.
pub const MAX_LINKS: usize = 10_000;
