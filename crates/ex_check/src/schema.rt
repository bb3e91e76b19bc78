//! The phases, one after the other.

ghost use Rattle.std.specs.Prelude.{◌≡◌, IfOk, map};
ghost use Rattle.std.specs.List.Sorted.{IsStrictlyIncreasing};
ghost use Rattle.plain_data.specs.Gives.{Gives};
ghost use Rattle.ex_lex.specs.Spelling.{Rise};
ghost use Rattle.ex_check.specs.Check as spec;

use crate::fault::SchemaFault;
use ex_compiled::Compiled;
use ex_lex::tokens;
use ex_resolve::{Named, resolve};
use ex_syntax::parse;
use ex_tree::Schema as Tree;
use ex_types::{CheckedSchema, check};
use plain_data::Failure;
use std::alloc::Global;

/// The tree that a text spells; else the first fault of its tokens, or else of its syntax.
#[tactic(auto, unfolding(crate::specs::Check::syntax), using(crate::proofs::Warnings::strings_rise))]
fn tree_of(alloc: Global, text: &[u8]) -> Result<Tree, Failure<SchemaFault>>
    ensures value { Gives (λ tree. tree) result (spec.syntax text.now) }
    ensures ascending { IfOk result (λ tree. Rise 0 (map (λ s. s.at) tree.strings)) }
{
    let tokens = tokens(alloc, text).map_err(|failure| failure.map(SchemaFault::Lexical))?;
    parse(alloc, &tokens).map_err(|failure| failure.map(SchemaFault::Syntactic))
}

/// The schema of a text with its names bound; else the first fault of its tokens, or else of its syntax, or else of its
/// names.
#[tactic(auto, unfolding(crate::specs::Check::resolution), using(crate::proofs::Warnings::named_rise))]
fn named_of(alloc: Global, text: &[u8]) -> Result<Named, Failure<SchemaFault>>
    ensures value { Gives (λ schema. schema) result (spec.resolution text.now) }
    ensures ascending { IfOk result (λ schema. Rise 0 (map (λ s. s.at) schema.schema.strings)) }
{
    let tree = tree_of(alloc, text)?;
    resolve(alloc, tree).map_err(|failure| failure.map(SchemaFault::Naming))
}

/// The schema of a text with its types checked; else the first fault of its tokens, or else of its syntax, or else of its
/// names, or else of its types.
#[tactic(auto, unfolding(crate::specs::Check::typing), using(crate::proofs::Warnings::warnings_rise))]
fn checked_of(alloc: Global, text: &[u8]) -> Result<CheckedSchema, Failure<SchemaFault>>
    ensures value { Gives (λ schema. schema) result (spec.typing text.now) }
    ensures ascending { IfOk result (λ schema. IsStrictlyIncreasing schema.warnings) }
{
    let named = named_of(alloc, text)?;
    check(alloc, named).map_err(|failure| failure.map(SchemaFault::Typing))
}

/// The schema of a text, whose warnings stand in the text's order; else the first fault of its tokens, or else of its
/// syntax, or else of its names, or else of its types, or else of its supertype expressions.
#[tactic(auto, unfolding(crate::specs::Check::schema), using(crate::proofs::Warnings::built_rise))]
pub fn compile_schema(alloc: Global, text: &[u8]) -> Result<Compiled, Failure<SchemaFault>>
    ensures value { Gives (λ compiled. compiled) result (spec.schema text.now) }
    ensures ascending { IfOk result (λ compiled. IsStrictlyIncreasing compiled.warnings) }
{
    let schema = checked_of(alloc, text)?;
    Compiled::build(alloc, schema).map_err(|failure| failure.map(SchemaFault::Constraining))
}
