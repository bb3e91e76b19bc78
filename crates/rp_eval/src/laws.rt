//! What holds of every evaluation over a domain.

ghost use Rattle.std.specs.Prelude.{◌≡◌, ◌≤◌, ℕ};
ghost use Rattle.rp_meaning.specs.Outcomes.{outcome};
ghost use Rattle.rp_meaning.specs.declared.rule.Rule.{Rule};
ghost use Rattle.rp_meaning.specs.declared.schema.Schema.{Schema};
ghost use Rattle.rp_value.specs.declared.value.Value.{Value};
ghost use Rattle.rp_eval.specs.Bodies.{world};

use rp_meaning::Domain;

/// Where two domains have one population, however each keeps it, the outcomes over them are the same.
pub fn population_decides<D: Domain, E: Domain>(first: &D, second: &E)
    requires { D.population first.now ≡ E.population second.now }
    ensures { (schema : Schema) (rule : Rule) (itself : Value) (limit : ℕ) → outcome (world schema (D.population first.now)) rule itself limit ≡ outcome (world schema (E.population second.now)) rule itself limit }
{}
