//! What holds of every validation over a domain.

ghost use Rattle.std.specs.Prelude.{◌≡◌};
ghost use Rattle.rp_meaning.specs.Report.{report};
ghost use Rattle.rp_meaning.specs.declared.schema.Schema.{Schema};

use rp_meaning::Domain;

/// Where two domains have one population, whatever their types and however each keeps it, `validate` tells the same of both by any
/// schema. How many steps it may take is no part of a domain either.
pub fn population_decides<D: Domain, E: Domain>(first: &D, second: &E)
    requires { D.population first.now ≡ E.population second.now }
    ensures { (schema : Schema) → report schema (D.population first.now) ≡ report schema (E.population second.now) }
{}
