//! Rules.

ghost use Rattle.std.specs.Prelude.{◌≡◌, ℕ, ◌==◌, ◌||◌, [], false, IfOk, OnOk};
ghost use Rattle.std.specs.List.Sorted.{IsStrictlySortedBy};
ghost use Rattle.std.specs.Ordering.{nat_cmp};
ghost use Rattle.plain_data.specs.Numbers.{is_among};
ghost use Rattle.ex_named.specs.Outcomes.{Binds, each};
ghost use Rattle.ex_named.specs.Scopes.{entity as entity_named};
ghost use Rattle.ex_bind_algorithms.specs.Algorithms as spec;

use crate::variables::{frame_of, local_variables, push_labels, push_local_names};
use ancestors::Family;
use ex_bind::{copy_name, domain_rules};
use ex_bind_statements::statements;
use ex_declarations::once;
use ex_named::{Binding, Gathered, NamedRule, both};
use ex_scopes::{Declarations, Scope};
use ex_tree::{Name, Rule};
use name_tables::SortedNames;
use plain_data::{Failure, Items};
use std::alloc::{AllocError, Global};
use std::collections::BTreeSet;

/// A rule with its names bound. Its locals and labels are one scope, in which the labels hide nothing.
#[tactic(auto, unfolding(crate::specs::Algorithms::named_rule))]
pub fn named_rule(alloc: Global, declarations: &Declarations<'_>, rule: &Rule) -> Binding<NamedRule>
    ensures { Binds result (spec.named_rule declarations.now rule.now) }
{
    let mut names = Vec::new(alloc);
    push_local_names(&mut names, rule.locals.as_slice())?;
    let frame = frame_of(alloc, &names)?;
    let populations = populations(alloc, declarations, rule.head.entities.as_slice())?;
    push_labels(&mut names, rule.domain_rules.as_slice())?;
    let once = once(alloc, &names);
    let found = rule_over(alloc, declarations, &frame, &populations, rule);
    let ((), found) = both(once, found)?;
    Ok(found)
}

/// A rule whose variables are these, and which is for these entities.
fn rule_over(
    alloc: Global,
    declarations: &Declarations<'_>,
    frame: &SortedNames<'_>,
    populations: &BTreeSet<usize>,
    rule: &Rule,
) -> Binding<NamedRule>
    ensures { Binds result (spec.rule_in declarations.now (record { nested = []; frame = frame.now; has_self = false; family = []; populations = populations.now.keys }) rule.now) }
{
    let nobody = Family::nobody();
    let scope = Scope::new(alloc, frame, false, &nobody, populations);
    rule_in(alloc, declarations, &scope, rule)
}

#[tactic(auto, unfolding(crate::specs::Algorithms::rule_in))]
fn rule_in(
    alloc: Global,
    declarations: &Declarations<'_>,
    scope: &Scope<'_>,
    rule: &Rule,
) -> Binding<NamedRule>
    ensures { Binds result (spec.rule_in declarations.now scope.now rule.now) }
{
    let entities = entities(alloc, declarations, rule.head.entities.as_slice());
    let locals = local_variables(alloc, declarations, scope, rule.locals.as_slice());
    let statements = statements(alloc, declarations, scope, rule.statements.as_slice());
    let domain_rules = domain_rules(alloc, declarations, scope, rule.domain_rules.as_slice());
    let heads = both(entities, locals);
    let bodies = both(statements, domain_rules);
    let ((entities, locals), (statements, domain_rules)) = both(heads, bodies)?;
    Ok(NamedRule {
        name: copy_name(alloc, &rule.head.name)?,
        entities,
        locals,
        statements,
        domain_rules,
    })
}

/// The entities of these names, in order.
fn entities(alloc: Global, declarations: &Declarations<'_>, names: &[Name]) -> Binding<Items<usize>>
    ensures { Binds result (each (entity_named declarations.now) names.now) }
{
    let mut found = Gathered::new(alloc, names.len())?;
    for name in names {
        found.push(declarations.entity(name))?;
    }
    found.finish()
}

/// The entities of these names.
fn populations(
    alloc: Global,
    declarations: &Declarations<'_>,
    names: &[Name],
) -> Result<BTreeSet<usize>, AllocError>
    ensures { IfOk result (λ found. found.keys ≡ spec.populations declarations.now names.now) }
{
    let mut found = BTreeSet::new(alloc);
    for name in names {
        match declarations.entity(name) {
            Ok(entity) => put(&mut found, entity)?,
            Err(Failure::NoMemory) => return Err(AllocError),
            // Told where the entities are bound.
            Err(Failure::Fault(_)) => {},
        }
    }
    Ok(found)
}

/// Puts a number into the set.
#[tactic(auto, using(crate::proofs::Populations::among_insert))]
fn put(set: &mut BTreeSet<usize>, number: usize) -> Result<(), AllocError>
    ensures rising { OnOk result (IsStrictlySortedBy nat_cmp set.new.keys) }
    ensures more { OnOk result ((k : ℕ) → is_among set.new.keys k ≡ (is_among set.old.keys k || number == k)) }
{
    set.insert(number)?;
    Ok(())
}
