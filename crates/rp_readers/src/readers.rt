//! What a partner's requests are told. Plans ask nothing but this.
#![tactic(auto, unfolding(crate::specs::Told::told))]

ghost use Rattle.std.specs.Prelude.{◌≡◌, ◌<◌, [], false, slice_index_or, MatchOption, length, option_map, option_copied};
ghost use Rattle.rp_rows.specs.Rows.{key_of};
ghost use Rattle.rp_plain.specs.Plain.{model_at};
ghost use Rattle.rp_plain.specs.Meaning.{has_text, has_schema as HasSchema, schema_named as SchemaNamed};
ghost use Rattle.rp_sight.specs.Stored.{row_of};
ghost use Rattle.rp_readers.specs.Told.{plain_of, told};

use ex_loaded::LoadedSchema;
use plain_data::Text;
use rp_access::Access;
use rp_index::Indexed;
use rp_rows::rows::{Key, ModelContent, Right};
use rp_sight::{RowRef, Table, at_least, level};

/// What a repository holds, as one partner asks it.
#[derive(Clone, Copy)]
pub struct Readers<'a, 's> {
    pub schemas: &'s [LoadedSchema<'s>],
    pub partners: &'a [Text],
    pub models: &'a Table<'a, Indexed>,
    pub access: &'a Access,
    pub caller: &'a Text,
}

fn has(texts: &[Text], text: &Text) -> bool
    ensures { result ≡ has_text texts.now text.now }
{
    texts.iter().any(|other| text.is(other))
}

fn is_loaded(schemas: &[LoadedSchema<'_>], name: &Text) -> bool
    ensures { result ≡ HasSchema schemas.now name.now }
{
    schemas
        .iter()
        .any(|schema| name.as_str() == schema.checked().name())
}

/// The schema of this name.
fn named<'s>(schemas: &'s [LoadedSchema<'s>], name: &Text) -> Option<&'s LoadedSchema<'s>>
    ensures { option_copied result ≡ SchemaNamed schemas.now name.now }
{
    schemas
        .iter()
        .find(|schema| name.as_str() == schema.checked().name())
}

/// Where the text stands among the texts.
pub fn place_among(texts: &[Text], text: &Text) -> Option<usize>
    ensures { MatchOption result (has_text texts.now text.now ≡ false)
        (λ i. (i < length texts.now) × (slice_index_or texts.now i [] ≡ text.now)) }
{
    for (i, other) in texts.iter().enumerate() {
        if text.is(other) {
            return Some(i);
        }
    }
    None
}

impl<'a, 's> Readers<'a, 's> {
    /// Whether a schema has this name, as it is written.
    pub fn has_schema(&self, name: &Text) -> bool
        ensures { result ≡ HasSchema (told self.now).schemas name.now }
    {
        is_loaded(self.schemas, name)
    }

    /// The schema of this name, as it is written.
    pub fn schema_named(&self, name: &Text) -> Option<&'s LoadedSchema<'s>>
        ensures { option_copied result ≡ SchemaNamed (told self.now).schemas name.now }
    {
        named(self.schemas, name)
    }

    pub fn has_partner(&self, name: &Text) -> bool
        ensures { result ≡ has_text (told self.now).partners name.now }
    {
        has(self.partners, name)
    }

    /// The model of this owner and name, if the partner sees it.
    fn model(&self, owner: &Text, name: &Text) -> Option<RowRef<'a, Indexed>>
        ensures { option_map row_of result ≡ model_at (plain_of self.now) self.now.caller.now (key_of owner.now name.now) }
    {
        let model = self.models.find_for(owner, name)?;
        if at_least(
            Right::Reads,
            level(self.access.groups(), self.caller, &model),
        ) {
            Some(model)
        } else {
            None
        }
    }

    /// What the partner may do with the model of this owner and name.
    fn right_on_model(&self, owner: &Text, name: &Text) -> Right
        ensures { result ≡ (told self.now).model_right (key_of owner.now name.now) }
    {
        self.access
            .right_on_model(self.models, self.caller, owner, name)
    }

    /// What the partner may do with the model.
    pub fn model_right(&self, key: &Key) -> Right
        ensures { result ≡ (told self.now).model_right key.now }
    {
        self.right_on_model(&key.owner, &key.name)
    }

    /// What the partner may do with his own model of this name. No key is made for it.
    pub fn own_model_right(&self, name: &Text) -> Right
        ensures { result ≡ (told self.now).model_right (key_of self.now.caller.now name.now) }
    {
        self.right_on_model(self.caller, name)
    }

    /// What the model of this owner and name holds, if the partner sees it. No key is made for it.
    pub fn content_of(&self, owner: &Text, name: &Text) -> Option<&'a ModelContent>
        ensures { option_copied result ≡ (told self.now).content (key_of owner.now name.now) }
    {
        match self.model(owner, name) {
            Some(model) => Some(model.holds.get()),
            None => None,
        }
    }

    /// What the model holds, if the partner sees it.
    pub fn content(&self, key: &Key) -> Option<&'a ModelContent>
        ensures { option_copied result ≡ (told self.now).content key.now }
    {
        self.content_of(&key.owner, &key.name)
    }
}
