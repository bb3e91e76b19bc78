//! Rules with their labels, names of attributes, constants and types.

ghost use Rattle.std.specs.Prelude.{◌≡◌};
ghost use Rattle.text_forms.specs.Reads.{Reads, Takes, Keeps};
ghost use Rattle.ex_forms.specs.Input as input;
ghost use Rattle.ex_declaration_syntax.specs.Declarations as spec;
ghost use Rattle.ex_tree.specs.declared.kind.TokenKind.TheVariants as k;
ghost use Rattle.ex_expressions.specs.Expressions.{begins_expression};

use crate::data_types::base_type;
use ex_expressions::{begins_expression, expression};
use ex_forms::{Begins, Cursor, Form, Read, name, optional, separated, some};
use ex_tree::{
    AttributeDeclaration, Constant, DomainRule, Name, QualifiedAttribute, TokenKind,
    TypeDeclaration, UnderlyingType,
};
use plain_data::{Failure, Items};
use std::alloc::Global;

/// So many parentheses, statements and types may be open at once.
pub(crate) const MAX_LEVELS: u8 = 64;

#[derive(Drop)]
pub(crate) struct NameForm;

impl<'t> Form<Cursor<'t>> for NameForm {
    type Tree = Name;

    ghost form = { λ _. input.name };

    ghost can_read = { λ _. Unit {0} };

    fn read(&self, alloc: Global, cursor: &mut Cursor<'t>) -> Read<Name> {
        name(alloc, cursor)
    }
}

/// Names between parentheses.
#[tactic(auto, unfolding(crate::specs::Declarations::name_list))]
pub(crate) fn name_list(alloc: Global, cursor: &mut Cursor<'_>) -> Read<Items<Name>>
    ensures reads { Reads (spec.name_list cursor.old) result cursor.new }
    ensures takes { Takes result cursor.old cursor.new }
{
    cursor.enter(MAX_LEVELS, TokenKind::OpenParenthesis)?;
    let names = separated(alloc, cursor, TokenKind::Comma, &NameForm)?;
    cursor.expect(TokenKind::CloseParenthesis)?;
    Ok(names)
}

#[tactic(auto, unfolding(crate::specs::Declarations::label))]
fn label(alloc: Global, cursor: &mut Cursor<'_>) -> Read<Name>
    ensures reads { Reads (spec.label cursor.old) result cursor.new }
    ensures takes { Takes result cursor.old cursor.new }
{
    let found = name(alloc, cursor)?;
    cursor.expect(TokenKind::Colon)?;
    Ok(found)
}

#[derive(Drop)]
pub(crate) struct LabelForm;

impl<'t> Form<Cursor<'t>> for LabelForm {
    type Tree = Name;

    ghost form = { λ _. spec.label };

    ghost can_read = { λ _. Unit {0} };

    fn read(&self, alloc: Global, cursor: &mut Cursor<'t>) -> Read<Name> {
        label(alloc, cursor)
    }
}

impl<'t> Begins<Cursor<'t>> for LabelForm {
    ghost begins = { λ _. spec.begins_label };

    fn begins(&self, cursor: &Cursor<'t>) -> bool {
        cursor.sees(TokenKind::Identifier) && cursor.sees_second(TokenKind::Colon)
    }
}

#[tactic(auto, unfolding(crate::specs::Declarations::domain_rule))]
fn domain_rule(alloc: Global, cursor: &mut Cursor<'_>) -> Read<DomainRule>
    ensures reads { Reads (spec.domain_rule cursor.old) result cursor.new }
    ensures takes { Takes result cursor.old cursor.new }
{
    let label = optional(alloc, cursor, &LabelForm)?;
    let condition = expression(alloc, cursor, MAX_LEVELS)?;
    cursor.expect(TokenKind::Semicolon)?;
    Ok(DomainRule { label, condition })
}

#[derive(Drop)]
struct DomainRuleForm;

impl<'t> Form<Cursor<'t>> for DomainRuleForm {
    type Tree = DomainRule;

    ghost form = { λ _. spec.domain_rule };

    ghost can_read = { λ _. Unit {0} };

    fn read(&self, alloc: Global, cursor: &mut Cursor<'t>) -> Read<DomainRule> {
        domain_rule(alloc, cursor)
    }
}

impl<'t> Begins<Cursor<'t>> for DomainRuleForm {
    ghost begins = { λ _. begins_expression };

    fn begins(&self, cursor: &Cursor<'t>) -> bool {
        begins_expression(cursor)
    }
}

#[tactic(auto, unfolding(crate::specs::Declarations::where_clause))]
pub(crate) fn where_clause(alloc: Global, cursor: &mut Cursor<'_>) -> Read<Items<DomainRule>>
    ensures reads { Reads (spec.where_clause cursor.old) result cursor.new }
    ensures takes { Takes result cursor.old cursor.new }
{
    cursor.expect(TokenKind::Where)?;
    some(alloc, cursor, &DomainRuleForm)
}

/// The rules of a WHERE clause, if it stands here.
#[tactic(auto, unfolding(crate::specs::Declarations::where_rules))]
pub(crate) fn where_rules(alloc: Global, cursor: &mut Cursor<'_>) -> Read<Items<DomainRule>>
    ensures reads { Reads (spec.where_rules cursor.old) result cursor.new }
    ensures keeps { Keeps result cursor.old cursor.new }
{
    if cursor.sees(TokenKind::Where) {
        where_clause(alloc, cursor)
    } else {
        Ok(Items::new(alloc))
    }
}

#[tactic(auto, unfolding(crate::specs::Declarations::qualified_attribute))]
fn qualified_attribute(alloc: Global, cursor: &mut Cursor<'_>) -> Read<QualifiedAttribute>
    ensures reads { Reads (spec.qualified_attribute cursor.old) result cursor.new }
    ensures takes { Takes result cursor.old cursor.new }
{
    cursor.expect(TokenKind::Itself)?;
    cursor.expect(TokenKind::Backslash)?;
    let entity = name(alloc, cursor)?;
    cursor.expect(TokenKind::Point)?;
    let attribute = name(alloc, cursor)?;
    Ok(QualifiedAttribute { entity, attribute })
}

/// A name, or one behind `SELF\entity.`.
#[tactic(auto, unfolding(crate::specs::Declarations::attribute_decl))]
pub(crate) fn attribute_decl(alloc: Global, cursor: &mut Cursor<'_>) -> Read<AttributeDeclaration>
    ensures reads { Reads (spec.attribute_decl cursor.old) result cursor.new }
    ensures takes { Takes result cursor.old cursor.new }
{
    match cursor.kind() {
        TokenKind::Identifier => Ok(AttributeDeclaration::Own(name(alloc, cursor)?)),
        TokenKind::Itself => Ok(AttributeDeclaration::Qualified(qualified_attribute(
            alloc, cursor,
        )?)),
        _ => Err(Failure::Fault(cursor.refusal())),
    }
}

/// Whether the name of an attribute begins here.
pub(crate) fn begins_attribute(cursor: &Cursor<'_>) -> bool
    ensures { result ≡ spec.begins_attribute cursor.now }
{
    cursor.sees(TokenKind::Identifier) || cursor.sees(TokenKind::Itself)
}

#[derive(Drop)]
pub(crate) struct AttributeForm;

impl<'t> Form<Cursor<'t>> for AttributeForm {
    type Tree = AttributeDeclaration;

    ghost form = { λ _. spec.attribute_decl };

    ghost can_read = { λ _. Unit {0} };

    fn read(&self, alloc: Global, cursor: &mut Cursor<'t>) -> Read<AttributeDeclaration> {
        attribute_decl(alloc, cursor)
    }
}

#[tactic(auto, unfolding(crate::specs::Declarations::constant_body))]
fn constant_body(alloc: Global, cursor: &mut Cursor<'_>) -> Read<Constant>
    ensures reads { Reads (spec.constant_body cursor.old) result cursor.new }
    ensures takes { Takes result cursor.old cursor.new }
{
    let name = name(alloc, cursor)?;
    cursor.expect(TokenKind::Colon)?;
    let data_type = base_type(alloc, cursor, MAX_LEVELS)?;
    cursor.expect(TokenKind::Becomes)?;
    let value = expression(alloc, cursor, MAX_LEVELS)?;
    cursor.expect(TokenKind::Semicolon)?;
    Ok(Constant {
        name,
        data_type,
        value,
    })
}

#[derive(Drop)]
struct ConstantForm;

impl<'t> Form<Cursor<'t>> for ConstantForm {
    type Tree = Constant;

    ghost form = { λ _. spec.constant_body };

    ghost can_read = { λ _. Unit {0} };

    fn read(&self, alloc: Global, cursor: &mut Cursor<'t>) -> Read<Constant> {
        constant_body(alloc, cursor)
    }
}

impl<'t> Begins<Cursor<'t>> for ConstantForm {
    ghost begins = { λ _. input.sees k.Identifier };

    fn begins(&self, cursor: &Cursor<'t>) -> bool {
        cursor.sees(TokenKind::Identifier)
    }
}

#[tactic(auto, unfolding(crate::specs::Declarations::constant_decl))]
fn constant_decl(alloc: Global, cursor: &mut Cursor<'_>) -> Read<Items<Constant>>
    ensures reads { Reads (spec.constant_decl cursor.old) result cursor.new }
    ensures takes { Takes result cursor.old cursor.new }
{
    cursor.expect(TokenKind::Constant)?;
    let constants = some(alloc, cursor, &ConstantForm)?;
    cursor.expect(TokenKind::EndConstant)?;
    cursor.expect(TokenKind::Semicolon)?;
    Ok(constants)
}

/// What CONSTANT declares, if it stands here.
#[tactic(auto, unfolding(crate::specs::Declarations::constants))]
pub fn constants(alloc: Global, cursor: &mut Cursor<'_>) -> Read<Items<Constant>>
    ensures reads { Reads (spec.constants cursor.old) result cursor.new }
    ensures keeps { Keeps result cursor.old cursor.new }
{
    if cursor.sees(TokenKind::Constant) {
        constant_decl(alloc, cursor)
    } else {
        Ok(Items::new(alloc))
    }
}

#[tactic(auto, unfolding(crate::specs::Declarations::enumeration_type))]
fn enumeration_type(alloc: Global, cursor: &mut Cursor<'_>) -> Read<UnderlyingType>
    ensures reads { Reads (spec.enumeration_type cursor.old) result cursor.new }
    ensures takes { Takes result cursor.old cursor.new }
{
    cursor.expect(TokenKind::Enumeration)?;
    cursor.expect(TokenKind::Of)?;
    Ok(UnderlyingType::Enumeration(name_list(alloc, cursor)?))
}

#[tactic(auto, unfolding(crate::specs::Declarations::select_type))]
fn select_type(alloc: Global, cursor: &mut Cursor<'_>) -> Read<UnderlyingType>
    ensures reads { Reads (spec.select_type cursor.old) result cursor.new }
    ensures takes { Takes result cursor.old cursor.new }
{
    cursor.expect(TokenKind::Select)?;
    Ok(UnderlyingType::Select(name_list(alloc, cursor)?))
}

#[tactic(auto, unfolding(crate::specs::Declarations::underlying_type))]
fn underlying_type(alloc: Global, cursor: &mut Cursor<'_>) -> Read<UnderlyingType>
    ensures reads { Reads (spec.underlying_type cursor.old) result cursor.new }
    ensures takes { Takes result cursor.old cursor.new }
{
    match cursor.kind() {
        TokenKind::Enumeration => enumeration_type(alloc, cursor),
        TokenKind::Select => select_type(alloc, cursor),
        _ => Ok(UnderlyingType::Data(base_type(alloc, cursor, MAX_LEVELS)?)),
    }
}

/// A defined type, from TYPE to its END_TYPE.
#[tactic(auto, unfolding(crate::specs::Declarations::type_decl))]
pub fn type_decl(alloc: Global, cursor: &mut Cursor<'_>) -> Read<TypeDeclaration>
    ensures reads { Reads (spec.type_decl cursor.old) result cursor.new }
    ensures takes { Takes result cursor.old cursor.new }
{
    cursor.expect(TokenKind::Type)?;
    let name = name(alloc, cursor)?;
    cursor.expect(TokenKind::Equals)?;
    let underlying = underlying_type(alloc, cursor)?;
    cursor.expect(TokenKind::Semicolon)?;
    let domain_rules = where_rules(alloc, cursor)?;
    cursor.expect(TokenKind::EndType)?;
    cursor.expect(TokenKind::Semicolon)?;
    Ok(TypeDeclaration {
        name,
        underlying,
        domain_rules,
    })
}
