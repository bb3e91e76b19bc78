//! A whole file.

ghost use Rattle.std.specs.Prelude.{◌≡◌, ◌++◌, ◌∷◌, ◌==◌, ◌&&◌, ◌||◌, ℕ, [], false, not, reverse, OnOk, IfOk};
ghost use Rattle.std.specs.List.Sorted.{IsPermutation};
ghost use Rattle.plain_data.specs.Numbers.{is_among};
ghost use Rattle.p21_instances.specs.Instances as order;
ghost use Rattle.plain_data.specs.Gives.{Gives};
ghost use Rattle.p21_bind.specs.Files as spec;
ghost use Rattle.p21_mappings.specs.Instances as instances;

use crate::mapped::instance;
use ex_layouts::{Dictionary, Layouts};
use p21_mappings::{Defined, DefinedNames, Names, header_of, in_name_order};
use p21_tree::{Header, Instance as SpelledInstance, InstanceFault, Raw};
use plain_data::{Failure, Items, Rows};
use rp_content::{Content, Instance};
use std::alloc::{AllocError, Global};
use std::collections::BTreeSet;

/// One instance, whose name stood before or not, or the first that holds of what is wrong with it.
pub fn one<N: DefinedNames>(
    alloc: Global,
    layouts: &mut Layouts<'_>,
    names: &N,
    stood: bool,
    spelled: &SpelledInstance<'_>,
) -> Result<Instance, Failure<InstanceFault>>
    ensures layouts { layouts.new ≡ layouts.old }
    ensures made { Gives (λ x. x) result (spec.told spelled.now.name (instances.instance layouts.old (N.is_defined names.now) stood spelled.now)) }
{
    let name = spelled.name;
    instance(alloc, layouts, names, stood, spelled).map_err(|failure| {
        failure.map(|kind| InstanceFault {
            instance: name,
            kind,
        })
    })
}

/// Whether a name stood before.
fn stood_before(before: &BTreeSet<u64>, name: u64) -> bool
    ensures { result ≡ is_among before.now.keys name }
{
    before.contains(&name)
}

/// Puts a name to those that stood before, unless no name stands twice: then there is no need.
fn note(before: &mut BTreeSet<u64>, are_distinct: bool, name: u64) -> Result<(), AllocError>
    ensures { OnOk result ((n : ℕ) → is_among before.new.keys n ≡ ((not are_distinct && (name == n)) || is_among before.old.keys n)) }
{
    if are_distinct {
        return Ok(());
    }
    before.insert(name)?;
    Ok(())
}

/// The instances of these, the last of which stands first in the file. Each is dropped as soon as it is read.
fn all_read(
    alloc: Global,
    layouts: &mut Layouts<'_>,
    names: &Names,
    linked: &Names,
    reversed: Vec<SpelledInstance<'_>>,
) -> Result<Vec<Instance>, Failure<InstanceFault>>
    requires { IsPermutation (order.names (reverse reversed.items)) names.now }
    ensures { Gives (λ xs. xs.items) result (spec.instances_after layouts.old (is_among (names.now ++ linked.now)) (λ n. false) (reverse reversed.entry.items)) }
{
    let mut rest = reversed;
    let mut found = Vec::with_capacity(alloc, rest.len())?;
    let are_distinct = names.are_distinct();
    let defined = Defined::of(names, linked);
    let mut before = BTreeSet::new(alloc);
    'instances: while let Some(spelled) = rest.pop() {
        let stood = stood_before(&before, spelled.name);
        found.push(one(alloc, layouts, &defined, stood, &spelled)?)?;
        note(&mut before, are_distinct, spelled.name)?;
    }
    Ok(found)
}

/// The instances of a file in its order, or the first fault of the first faulty one.
fn instances(
    alloc: Global,
    layouts: &mut Layouts<'_>,
    linked: &[u64],
    spelled: Rows<SpelledInstance<'_>>,
) -> Result<Vec<Instance>, Failure<InstanceFault>>
    ensures { Gives (λ xs. xs.items) result (spec.instances layouts.old linked.now spelled.entry) }
{
    let names = Names::of(alloc, spelled.as_slice())?;
    let linked = Names::of_slice(alloc, linked)?;
    let mut reversed = spelled.into_vec();
    reversed.reverse();
    all_read(alloc, layouts, &names, &linked, reversed)
}

/// The header of a file, and its instances.
fn parts_of(raw: Raw<'_>) -> (Header<'_>, Rows<SpelledInstance<'_>>)
    ensures { result ≡ (raw.entry.header, raw.entry.instances) }
{
    let Raw {
        header,
        schema: _,
        section: _,
        instances,
    } = raw;
    (header, instances)
}

/// What a model holds that a file of this header and these instances is put into.
fn content(
    alloc: Global,
    layouts: &mut Layouts<'_>,
    linked: &[u64],
    header: &Header<'_>,
    spelled: Rows<SpelledInstance<'_>>,
) -> Result<Content, Failure<InstanceFault>>
    ensures { Gives (λ content. content) result (spec.bound_by header.now (spec.instances layouts.old linked.now spelled.entry)) }
{
    let found = instances(alloc, layouts, linked, spelled)?;
    let header = header_of(alloc, header)?;
    let instances = in_name_order(found)?;
    Ok(Content {
        header,
        instances,
        links: Items::new(alloc),
    })
}

/// What a model holds that the file is put into: the header, the instances in the order of their names, and no links. The
/// instances may refer to one another and to the names that are linked.
///
/// # Errors
///
/// The first fault of the first faulty instance in the file's order; or want of memory.
#[tactic(auto, unfolding(crate::specs::Files::bound_file))]
pub fn bind<'s>(
    alloc: Global,
    schema: &'s Dictionary<'s>,
    linked: &[u64],
    raw: Raw<'_>,
) -> Result<Content, Failure<InstanceFault>>
    ensures bound { Gives (λ content. content) result (spec.bound_file schema.now linked.now raw.entry) }
    ensures order { IfOk result (λ content. spec.AreAscending content.instances) }
{
    let (header, spelled) = parts_of(raw);
    let mut layouts = Layouts::of(alloc, schema)?;
    content(alloc, &mut layouts, linked, &header, spelled)
}
