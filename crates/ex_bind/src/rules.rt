//! Rules of a WHERE clause.

ghost use Rattle.ex_named.specs.Outcomes.{Binds};
ghost use Rattle.ex_bind.specs.Rules as spec;

use crate::copies::copy_label;
use crate::expressions::expression;
use ex_named::{Binding, Gathered, NamedDomainRule};
use ex_scopes::{Declarations, Scope};
use ex_tree::DomainRule;
use plain_data::Items;
use std::alloc::Global;

/// The rules of a WHERE clause with their names bound, in order.
pub fn domain_rules(
    alloc: Global,
    declarations: &Declarations<'_>,
    scope: &Scope<'_>,
    rules: &[DomainRule],
) -> Binding<Items<NamedDomainRule>>
    ensures { Binds result (spec.domain_rules declarations.now scope.now rules.now) }
{
    let mut found = Gathered::new(alloc, rules.len())?;
    for rule in rules {
        found.push(domain_rule(alloc, declarations, scope, rule))?;
    }
    found.finish()
}

#[tactic(auto, unfolding(crate::specs::Rules::domain_rule))]
fn domain_rule(
    alloc: Global,
    declarations: &Declarations<'_>,
    scope: &Scope<'_>,
    rule: &DomainRule,
) -> Binding<NamedDomainRule>
    ensures { Binds result (spec.domain_rule declarations.now scope.now rule.now) }
{
    let condition = expression(alloc, declarations, scope, &rule.condition)?;
    Ok(NamedDomainRule {
        label: copy_label(alloc, &rule.label)?,
        condition,
    })
}
