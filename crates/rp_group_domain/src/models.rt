//! The instances of models that count in a group, in the order of the population.

ghost use Rattle.std.specs.Prelude.{◌≡◌, ◌++◌, IfOk, OnOk};
ghost use Rattle.rp_population.specs.Populations.{population, placed_all};

use rp_content::{Content, Instance};
use rp_rows::rows::Key;
use std::alloc::{AllocError, Global};
use std::marker::Model;

/// A model that counts in a group, with what it holds.
#[derive(Drop)]
pub struct CountedModel<'a> {
    pub key: &'a Key,
    pub content: &'a Content,
}

impl<'a> Model for CountedModel<'a> {
    ghost use Rattle.rp_population.specs.Populations.{Counted};
    ghost use Rattle.std.specs.Coded.{codes};
    ghost use Rattle.rp_content.specs.contracts.content.Content as content_type;

    ghost Value = { Counted };

    ghost coded = { Prim.hlevel (codes, content_type.the_row.coded) };

    ghost view = { λ m. record { model = m.key.now; content = m.content.now } };
}

/// An instance of a population, beside its model.
#[derive(Drop)]
pub struct PlacedInstance<'a> {
    pub model: &'a Key,
    content: &'a Content,
    pub instance: &'a Instance,
}

impl<'a> Model for PlacedInstance<'a> {
    ghost use Rattle.rp_population.specs.Populations.{Placed, placed};
    ghost use Rattle.std.specs.Coded.{codes};
    ghost use Rattle.rp_value.specs.contracts.value.Value as value;

    ghost Value = { Placed };

    ghost coded = { Prim.hlevel (codes, value.the_row.coded) };

    ghost view = { λ x. placed (record { model = x.model.now; content = x.content.now }) x.instance.now };
}

/// How many instances the models have.
fn count(models: &[CountedModel<'_>]) -> usize {
    let mut count = 0usize;
    for model in models {
        count = count.wrapping_add(model.content.instances.len());
    }
    count
}

/// Adds the instances of a model.
fn push_placed<'a>(
    found: &mut Vec<PlacedInstance<'a>>,
    model: &CountedModel<'a>,
) -> Result<(), AllocError>
    ensures { OnOk result (found.new.items ≡ found.old.items ++ placed_all model.now) }
{
    for instance in model.content.instances.as_slice() {
        found.push(PlacedInstance {
            model: model.key,
            content: model.content,
            instance,
        })?;
    }
    Ok(())
}

/// The population of models, which are given in the order of owner and name.
pub fn population_of<'a>(
    alloc: Global,
    models: &[CountedModel<'a>],
) -> Result<Vec<PlacedInstance<'a>>, AllocError>
    ensures { IfOk result (λ found. found.items ≡ population models.now) }
{
    let mut found = Vec::with_capacity(alloc, count(models))?;
    for model in models {
        push_placed(&mut found, model)?;
    }
    Ok(found)
}
