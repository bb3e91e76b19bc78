//! All conditions of the WHERE clauses of entities and of rules, evaluated.

ghost use Rattle.std.specs.Prelude.{◌≡◌, [], ◌∷◌, ◌++◌, map, IfOk, OnOk};
ghost use Rattle.std.specs.List.{flat_map};
ghost use Rattle.plain_data.specs.Numbers.{numbered};
ghost use Rattle.rp_eval.specs.Bodies.{world};
ghost use Rattle.rp_eval_parts.specs.Serving.{Remembers};
ghost use Rattle.rp_trial.specs.Answers as spec;

use plain_data::Items;
use rp_code::Code;
use rp_domain::ListDomain;
use rp_eval::{Memory, World, eval_with};
use rp_meaning::{Domain, Entity, GlobalRule, Outcome, Rule, Schema};
use rp_value::Value;
use std::alloc::{AllocError, Global};

/// What came of a condition for SELF with at most so many steps.
pub struct Answer {
    pub limit: usize,
    pub condition: Rule,
    pub itself: Value,
    pub outcome: Outcome,
}

impl Drop for Answer {
    fn drop(self) {
        let Answer {
            limit: _,
            condition: _,
            itself,
            outcome,
        } = self;
        drop(itself);
        drop(outcome);
    }
}

/// Adds the conditions of an entity.
fn push_entity(
    found: &mut Items<Rule>,
    number: usize,
    conditions: &[Code],
) -> Result<(), AllocError>
    ensures { OnOk result (found.new ≡ found.old ++ numbered (spec.entity_condition number) conditions.now) }
{
    for (place, _) in conditions.iter().enumerate() {
        found.push(Rule::Entity(number, place))?;
    }
    Ok(())
}

/// Adds the conditions of a rule.
fn push_rule(found: &mut Items<Rule>, number: usize, conditions: &[Code]) -> Result<(), AllocError>
    ensures { OnOk result (found.new ≡ found.old ++ numbered (spec.rule_condition number) conditions.now) }
{
    for (place, _) in conditions.iter().enumerate() {
        found.push(Rule::Global(number, place))?;
    }
    Ok(())
}

/// Adds the conditions of entities.
fn push_entities(found: &mut Items<Rule>, entities: &[Entity]) -> Result<(), AllocError>
    ensures { OnOk result (found.new ≡ found.old ++ flat_map (λ rules. rules) (numbered spec.entity_conditions entities.now)) }
{
    for (number, entity) in entities.iter().enumerate() {
        push_entity(found, number, entity.domain_rules.as_slice())?;
    }
    Ok(())
}

/// Adds the conditions of rules.
fn push_rules(found: &mut Items<Rule>, rules: &[GlobalRule]) -> Result<(), AllocError>
    ensures { OnOk result (found.new ≡ found.old ++ flat_map (λ rules. rules) (numbered spec.rule_conditions rules.now)) }
{
    for (number, rule) in rules.iter().enumerate() {
        push_rule(found, number, rule.domain_rules.as_slice())?;
    }
    Ok(())
}

/// All conditions, in the order of their declarations.
#[tactic(auto, unfolding(crate::specs::Answers::conditions))]
fn conditions(alloc: Global, schema: &Schema) -> Result<Items<Rule>, AllocError>
    ensures { IfOk result (λ found. found ≡ spec.conditions schema.now) }
{
    let mut found = Items::new(alloc);
    push_entities(&mut found, schema.entities.as_slice())?;
    push_rules(&mut found, schema.rules.as_slice())?;
    Ok(found)
}

/// What SELF is in turn: of a rule it is nothing.
fn selves(alloc: Global, domain: &ListDomain, condition: Rule) -> Result<Items<Value>, AllocError>
    ensures { IfOk result (λ found. found ≡ spec.selves domain.now condition) }
{
    match condition {
        Rule::Entity(entity, _) => domain.extent(alloc, entity),
        _ => {
            let mut nothing = Items::new(alloc);
            nothing.push(Value::Indet)?;
            Ok(nothing)
        }
    }
}

/// A condition, and the steps that it may take.
#[derive(Clone, Copy)]
struct Asked {
    rule: Rule,
    limit: usize,
}

/// Adds the answer of a condition for SELF.
fn push_answer(
    found: &mut Items<Answer>,
    memory: &mut Memory,
    alloc: Global,
    world: &World<'_, ListDomain>,
    asked: Asked,
    itself: &Value,
) -> Result<(), AllocError>
    requires memory { Remembers world.now memory.old }
    ensures found { OnOk result (found.new ≡ found.old ++ spec.answer world.now asked.limit asked.rule itself.now ∷ []) }
    ensures memory { Remembers world.now memory.new }
{
    let outcome = eval_with(
        alloc,
        world,
        memory,
        asked.rule,
        itself.copy()?,
        asked.limit,
    )?;
    found.push(Answer {
        limit: asked.limit,
        condition: asked.rule,
        itself: itself.copy()?,
        outcome,
    })
}

/// Adds the answers of a condition.
fn push_answers(
    found: &mut Items<Answer>,
    memory: &mut Memory,
    alloc: Global,
    world: &World<'_, ListDomain>,
    asked: Asked,
) -> Result<(), AllocError>
    requires memory { Remembers world.now memory.old }
    ensures found { OnOk result (found.new ≡ found.old ++ spec.answers_of world.now asked.limit asked.rule) }
    ensures memory { Remembers world.now memory.new }
{
    let selves = selves(alloc, world.domain(), asked.rule)?;
    for itself in selves.as_slice() {
        push_answer(found, memory, alloc, world, asked, itself)?;
    }
    Ok(())
}

/// Adds the answers of conditions.
fn push_within(
    found: &mut Items<Answer>,
    memory: &mut Memory,
    alloc: Global,
    world: &World<'_, ListDomain>,
    conditions: &[Rule],
    limit: usize,
) -> Result<(), AllocError>
    requires memory { Remembers world.now memory.old }
    ensures found { OnOk result (found.new ≡ found.old ++ spec.answers_within world.now conditions.now limit) }
    ensures memory { Remembers world.now memory.new }
{
    for rule in conditions {
        push_answers(found, memory, alloc, world, Asked { rule: *rule, limit })?;
    }
    Ok(())
}

/// Whether evaluations remember derived values for those after them.
#[derive(Clone, Copy)]
pub enum Keeping {
    Nothing,
    Derived,
}

/// What an evaluation that keeps so begins with.
fn memory_for(
    alloc: Global,
    schema: &Schema,
    domain: &ListDomain,
    keeping: Keeping,
) -> Result<Memory, AllocError>
    ensures { IfOk result (λ memory. Remembers (world schema.now domain.now) memory) }
{
    match keeping {
        Keeping::Nothing => Ok(Memory::none(alloc)),
        Keeping::Derived => Memory::new(alloc, schema, domain),
    }
}

/// Answers, and how many derived values were remembered after them.
#[derive(Drop)]
pub(crate) struct Answered {
    pub(crate) found: Items<Answer>,
    pub(crate) kept: usize,
}

/// What comes of each condition for each SELF with each limit.
#[tactic(auto, unfolding(crate::specs::Answers::answers))]
pub(crate) fn answers(
    alloc: Global,
    schema: &Schema,
    domain: &ListDomain,
    limits: &[usize],
    keeping: Keeping,
) -> Result<Answered, AllocError>
    ensures { IfOk result (λ answers. answers.found ≡ spec.answers (world schema.now domain.now) limits.now) }
{
    let world = World::new(alloc, schema, domain)?;
    let mut memory = memory_for(alloc, schema, domain, keeping)?;
    let conditions = conditions(alloc, schema)?;
    let mut found = Items::new(alloc);
    for limit in limits {
        push_within(
            &mut found,
            &mut memory,
            alloc,
            &world,
            conditions.as_slice(),
            *limit,
        )?;
    }
    let kept = memory.len();
    Ok(Answered { found, kept })
}
