//! The names that a reference in a model may have.

ghost use Rattle.std.specs.Prelude.{◌≡◌};
ghost use Rattle.std.specs.Ordering.{nat_cmp};
ghost use Rattle.plain_data.specs.Numbers.{is_among};
ghost use Rattle.sorted_tables.specs.Table.{IsAscending};
ghost use Rattle.rp_rows.specs.Contents.{names, link_name, link_names};
ghost use Rattle.rp_readers.specs.Named.{IsSearchable};

use p21_bind::DefinedNames;
use rp_content::{Content, Instances, Link};
use sorted_tables::find;
use std::marker::Model;

/// The names of the instances and the links that a model holds.
#[derive(Drop)]
pub struct ModelNames<'a> {
    content: &'a Content,
}

impl<'a> Model for ModelNames<'a> {
    ghost use Rattle.rp_content.specs.declared.content.Content.{Content};
    ghost use Rattle.rp_readers.specs.Named.{IsSearchable};

    ghost Value = { Content };

    ghost use Rattle.std.specs.Coded.{codes};
    ghost use Rattle.rp_content.specs.contracts.content.Content as content_type;

    ghost coded = { Prim.hlevel (codes, content_type.the_row.coded) };

    ghost view = { λ n. n.content.now };

    ghost invariant = { λ n. IsSearchable n.content.now };
}

/// Whether an instance has this name. The others aren't walked over.
fn has_instance(instances: &Instances, name: u64) -> bool
    ensures { result ≡ is_among (names instances.now) name }
{
    instances.get(name).is_some()
}

/// Whether a link has this name. The others aren't walked over.
fn has_link(links: &[Link], name: u64) -> bool
    requires { IsAscending nat_cmp link_name links.now }
    ensures { result ≡ is_among (link_names links.now) name }
{
    find(links, &name).is_some()
}

impl<'a> ModelNames<'a> {
    pub fn of(content: &'a Content) -> ModelNames<'a>
        requires { IsSearchable content.now }
        ensures { result ≡ content.now }
    {
        ModelNames { content }
    }
}

impl<'a> DefinedNames for ModelNames<'a> {
    ghost use Rattle.rp_plain.specs.Instances as of_instances;

    ghost is_defined = { of_instances.is_defined };

    fn has(&self, name: u64) -> bool {
        has_instance(&self.content.instances, name) || has_link(self.content.links.as_slice(), name)
    }
}
