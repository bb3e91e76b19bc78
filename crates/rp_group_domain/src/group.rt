//! The population of models that count in a group.

ghost use Rattle.std.specs.Prelude.{◌≡◌, ◌<◌, ◌+◌, ◌++◌, map, length, IfOk, OnOk};
ghost use Rattle.rp_population.specs.Populations.{population as Population};
ghost use Rattle.rp_positions.specs.Positions.{AreInOrder};
ghost use Rattle.rp_positions.specs.Seen.{all_seen_by};
ghost use Rattle.rp_group_domain.specs.Models as spec;

use crate::lines::Lines;
use crate::models::{CountedModel, PlacedInstance};
use crate::names::Names;
use crate::positions::written;
use ex_layouts::Dictionary;
use rp_content::Instance;
use rp_domain::{ListDomain, WrittenInstance};
use rp_meaning::Schema;
use std::alloc::{AllocError, Global};

/// Adds instances of a model in which names stand for this.
fn push_written(
    found: &mut Vec<WrittenInstance>,
    alloc: Global,
    lines: &mut Lines<'_, '_>,
    names: &Names<'_>,
    instances: &[Instance],
) -> Result<(), AllocError>
    ensures same { lines.new ≡ lines.old }
    ensures written { OnOk result (found.new.items ≡ found.old.items ++ map (spec.written lines.old names.now) instances.now) }
{
    for (place, instance) in instances.iter().enumerate() {
        found.push(written(alloc, lines, names, place, instance)?)?;
    }
    Ok(())
}

/// Adds the instances of the model at a place among some, whose population this is. Those of the models before it were added.
fn push_model(
    found: &mut Vec<WrittenInstance>,
    alloc: Global,
    lines: &mut Lines<'_, '_>,
    models: &[CountedModel<'_>],
    population: &[PlacedInstance<'_>],
    at: usize,
) -> Result<(), AllocError>
    requires population { spec.IsPopulation models.now population.now }
    requires at { at < length models.now }
    requires before { found.old.items ≡ spec.written_before lines.old population.now models.now at }
    ensures same { lines.new ≡ lines.old }
    ensures written { OnOk result (found.new.items ≡ spec.written_before lines.old population.now models.now (at + 1)) }
{
    let names = Names::of(alloc, models, population, at, found.len())?;
    let model = &models[at];
    let content = model.content;
    push_written(found, alloc, lines, &names, content.instances.as_slice())
}

/// All instances of the population of some models.
fn all_written(
    alloc: Global,
    schema: &Dictionary<'_>,
    models: &[CountedModel<'_>],
    population: &[PlacedInstance<'_>],
) -> Result<Vec<WrittenInstance>, AllocError>
    requires { spec.IsPopulation models.now population.now }
    ensures { IfOk result (λ found. found.items ≡ spec.all_written_in schema.now population.now population.now) }
{
    let mut lines = Lines::of(alloc, schema)?;
    let mut found = Vec::with_capacity(alloc, population.len())?;
    for at in 0..models.len() {
        push_model(&mut found, alloc, &mut lines, models, population, at)?;
    }
    Ok(found)
}

/// The population of some models of a schema, as its rules see it.
pub fn domain_of(
    alloc: Global,
    schema: &Schema,
    dictionary: &Dictionary<'_>,
    models: &[CountedModel<'_>],
    population: &[PlacedInstance<'_>],
) -> Result<ListDomain, AllocError>
    requires order { AreInOrder models.now }
    requires population { population.now ≡ Population models.now }
    ensures { IfOk result (λ domain. domain ≡ all_seen_by schema.now dictionary.now population.now) }
{
    let instances = all_written(alloc, dictionary, models, population)?;
    ListDomain::new(alloc, schema, instances)
}
