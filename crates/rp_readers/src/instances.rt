//! Single instances of models.

ghost use Rattle.std.specs.Prelude.{◌≡◌, IfOk, option_copied};
ghost use Rattle.rp_plain.specs.Meaning as meaning;
ghost use Rattle.rp_plain.specs.Instances as of_instances;
ghost use Rattle.rp_readers.specs.Told.{told};

use crate::kept::KeptLayouts;
use crate::readers::Readers;
use plain_data::Text;
use rp_content::Instance;
use rp_rows::rows::Key;
use std::alloc::{AllocError, Global};

/// The instance of this name in the model, if the partner sees it. The others aren't walked over.
pub fn instance_in<'a>(asked: &Readers<'a, '_>, key: &Key, name: u64) -> Option<&'a Instance>
    ensures { option_copied result ≡ of_instances.instance_in ((told asked.now).content key.now) name }
{
    match asked.content(key) {
        Some(model) => model.content.instances.get(name),
        None => None,
    }
}

/// The line of an instance of the model in canonical text, if the partner sees the model. What instances of its entities have
/// values of is kept.
pub fn line_of(
    alloc: Global,
    asked: &Readers<'_, '_>,
    layouts: &mut KeptLayouts<'_>,
    key: &Key,
    found: Option<&Instance>,
) -> Result<Text, AllocError>
    requires { layouts.old ≡ (told asked.now).schemas }
    ensures schemas { layouts.new ≡ layouts.old }
    ensures text { IfOk result (λ text. text ≡ of_instances.line_by (meaning.schema_of (told asked.now).schemas ((told asked.now).content key.now)) (option_copied found.entry)) }
{
    let Some(model) = asked.content(key) else {
        return Text::from_str(alloc, "");
    };
    let Some(instance) = found else {
        return Text::from_str(alloc, "");
    };
    layouts.line(alloc, &model.schema, instance)
}
