//! The first version.

ghost use Rattle.std.specs.Prelude.{◌≡◌, option_copied};
ghost use Rattle.rp_plain.specs.Meaning as meaning;

use ex_loaded::LoadedSchema;
use p21_write::write;
use plain_data::Text;
use rp_rows::rows::ModelContent;
use rp_snapshot_texts::Version;
use std::alloc::{AllocError, Global};

/// The first version, by these schemas: the file of a model is canonical text.
#[derive(Clone, Copy)]
pub struct FirstVersion<'s> {
    pub schemas: &'s [LoadedSchema<'s>],
}

/// The schema of this name.
pub fn schema_named<'s>(
    schemas: &'s [LoadedSchema<'s>],
    name: &Text,
) -> Option<&'s LoadedSchema<'s>>
    ensures { option_copied result ≡ meaning.schema_named schemas.now name.now }
{
    schemas
        .iter()
        .find(|schema| name.as_str() == schema.checked().name())
}

impl<'s> Version for FirstVersion<'s> {
    ghost use Rattle.rp_snapshots.specs.Snapshots.{first_version, file_in};

    ghost number = { λ _. 1 };

    ghost writes = { λ v h. file_in first_version v.schemas.now h };

    fn first_line(&self) -> &'static [u8] {
        b"STEPREPO 1\n"
    }

    fn file(&self, alloc: Global, model: &ModelContent) -> Result<Text, AllocError> {
        match schema_named(self.schemas, &model.schema) {
            Some(schema) => write(alloc, schema.dictionary(), &model.content),
            None => Text::from_str(alloc, ""),
        }
    }
}
