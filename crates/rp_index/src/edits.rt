//! The greatest of names.

ghost use Rattle.std.specs.Prelude.{◌≡◌, max, fold};
ghost use Rattle.rp_rows.specs.Contents as contents;

use rp_content::{Content, Instance, Link};

/// The greatest of a number and the names of the instances.
fn greatest_name(start: u64, instances: &[Instance]) -> u64
    ensures { result ≡ contents.greatest_name start instances.now }
{
    let mut greatest = start;
    for instance in instances {
        greatest = greatest.max(instance.name);
    }
    greatest
}

/// The greatest of a number and the names of the links.
fn greatest_link(start: u64, links: &[Link]) -> u64
    ensures { result ≡ fold max start (contents.link_names links.now) }
{
    let mut greatest = start;
    for link in links {
        greatest = greatest.max(link.name);
    }
    greatest
}

/// The greatest of a number and the names that a content defines.
pub fn greatest_of(start: u64, content: &Content) -> u64
    ensures { result ≡ contents.greatest_of start content.now }
{
    let greatest = greatest_name(start, content.instances.as_slice());
    greatest_link(greatest, content.links.as_slice())
}
