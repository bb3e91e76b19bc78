//! The attributes that a checked schema uses by their names alone.

ghost use Rattle.rp_rule_laws.specs.Attributes.{AttributesMeanOne};

use ex_types::CheckedSchema;

/// Each attribute that a checked schema uses by its name alone means one declaration: where it is redeclared, in INVERSE and UNIQUE,
/// and in each expression and statement.
pub fn attributes_mean_one(schema: &CheckedSchema)
    ensures { AttributesMeanOne schema.now.named.schema }
{
    schema.proved();
    schema.resolved().proved();
}
