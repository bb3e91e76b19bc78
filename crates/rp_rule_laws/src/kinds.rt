//! The kinds of declared types, by which schemas are checked, and the values that fit the types, as rules evaluate them.

ghost use Rattle.std.specs.Prelude.{◌≡◌, true, false};
ghost use Rattle.ex_named.specs.declared.expression.NamedDataType.{NamedDataType};
ghost use Rattle.rp_meaning.specs.Bare.{is_indeterminate};
ghost use Rattle.rp_meaning.specs.Compiled.{compiled};
ghost use Rattle.rp_meaning.specs.Types.{fits, given};
ghost use Rattle.rp_rule_laws.specs.Kinds.{is_of_type};
ghost use Rattle.rp_value.specs.declared.value.Value.{Value};

use ex_types::CheckedSchema;

/// A value fits a type of a checked schema exactly if it is of one of the type's kinds, where each defined type stands for what
/// it is.
pub fn fits_by_kinds(schema: &CheckedSchema)
    ensures { (data_type : NamedDataType) (x : Value) → fits (compiled schema.now).types data_type x ≡ is_of_type schema.now data_type x }
{
    schema.resolved().proved();
}

/// What a value becomes once it is declared with a type of a checked schema is `?` or of one of the type's kinds.
pub fn given_by_kinds(schema: &CheckedSchema)
    ensures { (data_type : NamedDataType) (x : Value) → is_indeterminate (given (compiled schema.now).types data_type x) ≡ false → is_of_type schema.now data_type (given (compiled schema.now).types data_type x) ≡ true }
{
    schema.resolved().proved();
}
