//! Schemas.

ghost use Rattle.std.specs.Prelude.{◌≡◌};
ghost use Rattle.plain_data.specs.Gives.{Gives};
ghost use Rattle.text_forms.specs.Reads.{Reads, Takes};
ghost use Rattle.ex_syntax.specs.Schemas as spec;

use ex_declaration_syntax::{constants, entity_decl, function_decl, rule_decl, type_decl};
use ex_expressions::strings;
use ex_forms::{Begins, Cursor, Form, Read, TokenList, many, name};
use ex_tree::{Declaration, ParseFault, Schema, TokenKind};
use plain_data::{Failure, Items};
use std::alloc::Global;

#[tactic(auto, unfolding(crate::specs::Schemas::declaration))]
fn declaration(alloc: Global, cursor: &mut Cursor<'_>) -> Read<Declaration>
    ensures reads { Reads (spec.declaration cursor.old) result cursor.new }
    ensures takes { Takes result cursor.old cursor.new }
{
    match cursor.kind() {
        TokenKind::Entity => Ok(Declaration::Entity(entity_decl(alloc, cursor)?)),
        TokenKind::Function => Ok(Declaration::Function(function_decl(alloc, cursor)?)),
        TokenKind::Rule => Ok(Declaration::Rule(rule_decl(alloc, cursor)?)),
        TokenKind::Type => Ok(Declaration::Type(type_decl(alloc, cursor)?)),
        _ => Err(Failure::Fault(cursor.refusal())),
    }
}

fn begins_declaration(cursor: &Cursor<'_>) -> bool
    ensures { result ≡ spec.begins_declaration cursor.now }
{
    cursor.sees(TokenKind::Entity)
        || cursor.sees(TokenKind::Function)
        || cursor.sees(TokenKind::Rule)
        || cursor.sees(TokenKind::Type)
}

#[derive(Drop)]
struct DeclarationForm;

impl<'t> Form<Cursor<'t>> for DeclarationForm {
    type Tree = Declaration;

    ghost form = { λ _. spec.declaration };

    ghost can_read = { λ _. Unit {0} };

    fn read(&self, alloc: Global, cursor: &mut Cursor<'t>) -> Read<Declaration> {
        declaration(alloc, cursor)
    }
}

impl<'t> Begins<Cursor<'t>> for DeclarationForm {
    ghost begins = { λ _. spec.begins_declaration };

    fn begins(&self, cursor: &Cursor<'t>) -> bool {
        begins_declaration(cursor)
    }
}

/// A schema; the strings of the text are put beside it later.
#[tactic(auto, unfolding(crate::specs::Schemas::schema_decl))]
fn schema_decl(alloc: Global, cursor: &mut Cursor<'_>) -> Read<Schema>
    ensures reads { Reads (spec.schema_decl cursor.old) result cursor.new }
    ensures takes { Takes result cursor.old cursor.new }
{
    cursor.expect(TokenKind::Schema)?;
    let name = name(alloc, cursor)?;
    cursor.expect(TokenKind::Semicolon)?;
    let constants = constants(alloc, cursor)?;
    let declarations = many(alloc, cursor, &DeclarationForm)?;
    cursor.expect(TokenKind::EndSchema)?;
    cursor.expect(TokenKind::Semicolon)?;
    Ok(Schema {
        name,
        constants,
        declarations,
        strings: Items::new(alloc),
    })
}

#[tactic(auto, unfolding(crate::specs::Schemas::syntax))]
fn syntax(alloc: Global, cursor: &mut Cursor<'_>) -> Read<Schema>
    ensures { Reads (spec.syntax cursor.old) result cursor.new }
{
    let found = schema_decl(alloc, cursor)?;
    cursor.finish()?;
    Ok(found)
}

/// The tree that the tokens of a text spell: one schema, with the text's string literals. Else the fault of the first
/// token that cannot stand where it does, or of the text's end.
#[tactic(auto, unfolding(crate::specs::Schemas::parsed))]
pub fn parse(alloc: Global, tokens: &TokenList<'_>) -> Result<Schema, Failure<ParseFault>>
    ensures { Gives (λ schema. schema) result (spec.parsed tokens.now) }
{
    let mut schema = syntax(alloc, &mut Cursor::new(tokens))?;
    schema.strings = strings(alloc, tokens.as_slice())?;
    Ok(schema)
}
