//! One instance by itself.

ghost use Rattle.std.specs.Prelude.{◌≡◌};
ghost use Rattle.plain_data.specs.Gives.{Gives};
ghost use Rattle.p21_bind.specs.Single as spec;

use crate::file::one;
use ex_layouts::Layouts;
use p21_mappings::DefinedNames;
use p21_tree::{Instance as SpelledInstance, InstanceFault, Mapping};
use plain_data::Failure;
use rp_content::Instance;
use std::alloc::Global;

/// The instance of this name that the mapping is by the schema that the layouts are of, where a reference may name what is
/// defined: the instances and links of the model as it was before the request. What was found for it is kept with the layouts.
///
/// # Errors
///
/// The first that holds of what is wrong with it, under its name; or want of memory.
#[tactic(auto, unfolding(crate::specs::Single::bound_instance))]
pub fn bind_instance<N: DefinedNames>(
    alloc: Global,
    layouts: &mut Layouts<'_>,
    name: u64,
    mapping: Mapping<'_>,
    names: &N,
) -> Result<Instance, Failure<InstanceFault>>
    ensures layouts { layouts.new ≡ layouts.old }
    ensures made { Gives (λ x. x) result (spec.bound_instance layouts.old (N.is_defined names.now) name mapping.entry) }
{
    one(
        alloc,
        layouts,
        names,
        false,
        &SpelledInstance { name, mapping },
    )
}
