//! What a model holds, of a file's header and of its instances.

ghost use Rattle.std.specs.Prelude.{◌≡◌, ◌++◌, ◌==◌, ◌&&◌, true, false, not, nat_lt, map, IfOk, IfSome};
ghost use Rattle.std.specs.List.{list_all};
ghost use Rattle.plain_data.specs.Numbers.{is_among};
ghost use Rattle.p21_instances.specs.Instances.{has_twice, in_order, AreOnce};
ghost use Rattle.rp_content.specs.Names.{instance_name};
ghost use Rattle.p21_mappings.specs.Contents as spec;

use crate::header::header_of;
use crate::names::{Defined, DefinedNames, Names};
use p21_tree::Header;
use plain_data::Items;
use rp_content::{Content, Instance, Instances};
use std::alloc::{AllocError, Global};

/// The instances in the order of their names, of which none stands twice.
pub fn in_name_order(mut instances: Vec<Instance>) -> Result<Instances, AllocError>
    requires { AreOnce instance_name instances.items }
    ensures { IfOk result (λ ordered. ordered ≡ in_order (λ x y. nat_lt x.name y.name) instances.items) }
{
    instances.sort_by_key(|instance| instance.name)?;
    Ok(Instances::of(instances))
}

/// Whether each reference is to one of the names.
fn are_defined(names: &Defined<'_>, references: &[u64]) -> bool
    ensures { result ≡ list_all (is_among names.now) references.now }
{
    references.iter().all(|reference| names.has(*reference))
}

/// The instances, if no name stands twice and each reference is to one of them or is linked.
fn if_whole(
    names: Vec<u64>,
    references: Vec<u64>,
    instances: Vec<Instance>,
    linked: &Names,
) -> Option<Vec<Instance>>
    ensures instances { IfSome result (λ found. found.items ≡ instances.items) }
    ensures once { IfSome result (λ found. has_twice (λ m n. m == n) names.items ≡ false) }
    ensures defined { IfSome result (λ found. list_all (is_among (names.items ++ linked.now)) references.items ≡ true) }
{
    let names = Names::of_numbers(names);
    if names.are_distinct() && are_defined(&Defined::of(&names, linked), &references) {
        Some(instances)
    } else {
        None
    }
}

/// What a model holds that a file of this header is put into.
fn content(
    alloc: Global,
    header: &Header<'_>,
    mut instances: Vec<Instance>,
) -> Result<Content, AllocError>
    requires { AreOnce instance_name instances.items }
    ensures { IfOk result (λ content. content ≡ spec.content header.now instances.items) }
{
    instances.shrink_to_fit();
    let header = header_of(alloc, header)?;
    let instances = in_name_order(instances)?;
    Ok(Content {
        header,
        instances,
        links: Items::new(alloc),
    })
}

/// What a model holds that a file is put into which has this header and these instances, of these names, if none of the names
/// stands twice and each of the references is to one of them or is linked.
///
/// # Errors
///
/// Want of memory.
pub fn whole(
    alloc: Global,
    names: Vec<u64>,
    references: Vec<u64>,
    instances: Vec<Instance>,
    linked: &[u64],
    header: &Header<'_>,
) -> Result<Option<Content>, AllocError>
    requires { names.items ≡ map instance_name instances.items }
    ensures content { IfOk result (λ found. IfSome found (λ content. content ≡ spec.content header.now instances.items)) }
    ensures once { IfOk result (λ found. IfSome found (λ content. has_twice (λ m n. m == n) names.items ≡ false)) }
    ensures defined { IfOk result (λ found. IfSome found (λ content. list_all (is_among (names.items ++ linked.now)) references.items ≡ true)) }
{
    let linked = Names::of_slice(alloc, linked)?;
    match if_whole(names, references, instances, &linked) {
        Some(instances) => Ok(Some(content(alloc, header, instances)?)),
        None => Ok(None),
    }
}
