//! Instances and links are found by their names.

use crate::instance::Instance;
use crate::link::Link;
use sorted_tables::{Row, Sought};
use std::cmp::Ordering;

impl Row for Instance {
    ghost use Rattle.std.specs.Ordering.{nat_cmp};
    ghost use Rattle.std.proofs.lemmas.Cmp.{nat_cmp_total};
    ghost use Rattle.rp_content.specs.Names.{instance_name};

    type Key = u64;

    ghost key = { instance_name };

    ghost cmp = { nat_cmp };

    fn order(&self, other: &Instance) -> Ordering {
        self.name.cmp(&other.name)
    }

    ghost total = { nat_cmp_total };
}

impl Sought<Instance> for u64 {
    ghost sought = { λ name. name };

    fn order_of(&self, instance: &Instance) -> Ordering {
        instance.name.cmp(self)
    }
}

impl Row for Link {
    ghost use Rattle.std.specs.Ordering.{nat_cmp};
    ghost use Rattle.std.proofs.lemmas.Cmp.{nat_cmp_total};
    ghost use Rattle.rp_content.specs.Names.{link_name};

    type Key = u64;

    ghost key = { link_name };

    ghost cmp = { nat_cmp };

    fn order(&self, other: &Link) -> Ordering {
        self.name.cmp(&other.name)
    }

    ghost total = { nat_cmp_total };
}

impl Sought<Link> for u64 {
    ghost sought = { λ name. name };

    fn order_of(&self, link: &Link) -> Ordering {
        link.name.cmp(self)
    }
}
