//! The text of one instance.

ghost use Rattle.std.specs.Prelude.{◌≡◌, IfOk};
ghost use Rattle.p21_spelling.specs.Instances as spelled;
ghost use Rattle.p21_canonical.specs.Trees as spec;

use ex_layouts::Layouts;
use p21_canonical::{Output, write_entity_instance};
use plain_data::Text;
use rp_content::Instance;
use std::alloc::{AllocError, Global};

/// The canonical text of one instance: its line, without the line feed. What instances of its entities have values of is kept.
pub fn write_instance(
    alloc: Global,
    layouts: &mut Layouts<'_>,
    instance: &Instance,
) -> Result<Text, AllocError>
    ensures layouts { layouts.new ≡ layouts.old }
    ensures text { IfOk result (λ text. text ≡ spelled.instance_text (spec.instance_tree layouts.old instance.now)) }
{
    let mut out = Output::new(alloc);
    write_entity_instance(alloc, &mut out, layouts, instance)?;
    Ok(out.into_text())
}
