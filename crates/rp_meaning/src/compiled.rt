//! What holds of expressions as they are compiled.

ghost use Rattle.std.specs.Prelude.{◌≡◌};
ghost use Rattle.ex_named.specs.declared.expression.NamedExpression.{NamedExpression};
ghost use Rattle.ex_named.specs.declared.expression.NamedQualifier.{NamedQualifier};
ghost use Rattle.ex_typing.specs.Expressions.{typed_expression};
ghost use Rattle.ex_typing.specs.Trees.{typed_qualifier};
ghost use Rattle.rp_meaning.specs.CompiledExpressions.{Declared, compiled_expression};
ghost use Rattle.rp_meaning.specs.CompiledTrees.{compiled_qualifier};

/// What is said of a value beside what is compiled is what its types say.
pub fn compiled_as_typed()
    ensures expressions { (schema : Declared) (x : NamedExpression) → (compiled_expression schema x).typed ≡ typed_expression schema.known x }
    ensures qualifiers { (schema : Declared) (x : NamedQualifier) → (compiled_qualifier schema x).typed ≡ typed_qualifier schema.known x }
{}
