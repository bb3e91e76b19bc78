//! A trial of a schema with a file.

ghost use Rattle.std.specs.Prelude.{◌≡◌, IfOk};
ghost use Rattle.rp_meaning.specs.Compiled.{compiled};
ghost use Rattle.rp_positions.specs.Positions.{AreInOrder, IsSearchable};
ghost use Rattle.rp_trial.specs.Answers as spec;

use crate::answers::{Answered, Keeping, answers};
use crate::lines::{lines, write_kept};
use crate::loading::{content_of, schema_of};
use crate::values::Names;
use ex_compiled::Compiled;
use ex_loaded::LoadedSchema;
use plain_data::{Failure, Items, Text};
use rp_compile::compile;
use rp_content::Content;
use rp_group_domain::{CountedModel, domain_of, population_of};
use rp_meaning::Schema;
use rp_rows::rows::Key;
use std::alloc::{AllocError, Global};
use std::mem;

/// What comes of each condition of a schema, which is compiled, for each SELF in the population of models, with each limit.
#[tactic(auto, unfolding(crate::specs::Answers::world))]
fn answers_over(
    alloc: Global,
    loaded: &LoadedSchema<'_>,
    schema: &Schema,
    models: &[CountedModel<'_>],
    limits: &[usize],
    keeping: Keeping,
) -> Result<Answered, AllocError>
    requires order { AreInOrder models.now }
    requires schema { schema.now ≡ compiled loaded.now }
    ensures { IfOk result (λ answers. answers.found ≡ spec.answers (spec.world loaded.now models.now) limits.now) }
{
    let population = population_of(alloc, models)?;
    let domain = domain_of(alloc, schema, loaded.dictionary(), models, &population)?;
    drop(population);
    let answers = answers(alloc, schema, &domain, limits, keeping);
    // The process is to end, and all of its memory goes with it. To give that back value by value would take long.
    mem::forget(domain);
    answers
}

/// The same of a schema that isn't compiled yet. Without a limit no population is made.
#[tactic(auto, unfolding(crate::specs::Answers::answers))]
fn answers_by(
    alloc: Global,
    loaded: &LoadedSchema<'_>,
    models: &[CountedModel<'_>],
    limits: &[usize],
    keeping: Keeping,
) -> Result<Answered, AllocError>
    requires { AreInOrder models.now }
    ensures { IfOk result (λ answers. answers.found ≡ spec.answers (spec.world loaded.now models.now) limits.now) }
{
    let schema = compile(alloc, loaded.checked())?;
    if limits.is_empty() {
        return Ok(Answered {
            found: Items::new(alloc),
            kept: 0,
        });
    }
    answers_over(alloc, loaded, &schema, models, limits, keeping)
}

/// The lines of all answers for what a file holds.
#[tactic(auto, using(crate::proofs::Models::alone))]
fn lines_by(
    alloc: Global,
    loaded: &LoadedSchema<'_>,
    content: &Content,
    limits: &[usize],
    keeping: Keeping,
) -> Result<Vec<u8>, AllocError>
    requires { IsSearchable content.now }
{
    // A file stands alone: no link leads to it, so what it goes by doesn't matter.
    let key = Key {
        owner: Text::new(String::new(alloc)),
        name: Text::new(String::new(alloc)),
    };
    let models = [CountedModel { key: &key, content }];
    let answers = answers_by(alloc, loaded, &models, limits, keeping)?;
    let names = Names {
        types: loaded.checked().types(),
        instances: content.instances.as_slice(),
    };
    let mut lines = lines(alloc, names, loaded.checked(), &answers.found)?;
    if let Keeping::Derived = keeping {
        write_kept(&mut lines, answers.kept)?;
    }
    Ok(lines)
}

fn lines_of_file<'s>(
    alloc: Global,
    loaded: &'s LoadedSchema<'s>,
    file: &[u8],
    limits: &[usize],
    keeping: Keeping,
) -> Result<Vec<u8>, Failure<String>> {
    let content = content_of(alloc, loaded.dictionary(), file)?;
    let lines = lines_by(alloc, loaded, &content, limits, keeping);
    mem::forget(content);
    Ok(lines?)
}

fn lines_with<'s>(
    alloc: Global,
    compiled: &'s Compiled,
    file: &[u8],
    limits: &[usize],
    keeping: Keeping,
) -> Result<Vec<u8>, Failure<String>> {
    let loaded = Box::new(alloc, LoadedSchema::of(alloc, compiled)?)?;
    lines_of_file(alloc, Box::leak(loaded), file, limits, keeping)
}

/// A line for each limit and condition of a schema's WHERE clauses and each SELF, `LIMIT OWNER.LABEL SELF VALUE STEPS` or
/// `LIMIT OWNER.LABEL SELF LIMIT`: SELF are the entity's instances in an exchange file, and `?` of a rule. Where derived values are
/// remembered, the last line is `KEPT n` with their number. The error says in words what is wrong with the schema or the file. The
/// process must end after this call: what is made of the schema and the file is never freed.
pub fn trial(
    alloc: Global,
    schema: &[u8],
    file: &[u8],
    limits: &[usize],
    keeping: Keeping,
) -> Result<Vec<u8>, Failure<String>> {
    let compiled = schema_of(alloc, schema)?;
    let lines = lines_with(alloc, &compiled, file, limits, keeping);
    mem::forget(compiled);
    lines
}
