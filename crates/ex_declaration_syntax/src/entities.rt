//! Entities.

ghost use Rattle.std.specs.Prelude.{◌≡◌};
ghost use Rattle.text_forms.specs.Reads.{Reads, Takes, Keeps};
ghost use Rattle.ex_forms.specs.Input as input;
ghost use Rattle.ex_declaration_syntax.specs.Declarations.{begins_attribute};
ghost use Rattle.ex_declaration_syntax.specs.Entities as spec;
ghost use Rattle.ex_tree.specs.declared.kind.TokenKind.TheVariants as k;

use crate::data_types::{base_type, optional_bounds};
use crate::declarations::{
    AttributeForm, LabelForm, MAX_LEVELS, attribute_decl, begins_attribute, name_list, where_rules,
};
use crate::supertypes::supertype_expression;
use ex_expressions::expression;
use ex_forms::{Begins, Cursor, Form, Read, many, name, optional, separated, some};
use ex_tree::{
    DerivedAttribute, Entity, EntityBody, EntityHead, ExplicitAttribute, InverseAggregate,
    InverseAttribute, Name, SetOrBag, SupertypeExpression, TokenKind, UniqueRule,
};
use plain_data::Items;
use std::alloc::Global;

#[tactic(auto, unfolding(crate::specs::Entities::explicit_attr))]
fn explicit_attr(alloc: Global, cursor: &mut Cursor<'_>) -> Read<ExplicitAttribute>
    ensures reads { Reads (spec.explicit_attr cursor.old) result cursor.new }
    ensures takes { Takes result cursor.old cursor.new }
{
    let attributes = separated(alloc, cursor, TokenKind::Comma, &AttributeForm)?;
    cursor.expect(TokenKind::Colon)?;
    let optional = cursor.eat(TokenKind::Optional);
    let data_type = base_type(alloc, cursor, MAX_LEVELS)?;
    cursor.expect(TokenKind::Semicolon)?;
    Ok(ExplicitAttribute {
        attributes,
        optional,
        data_type,
    })
}

#[derive(Drop)]
struct ExplicitForm;

impl<'t> Form<Cursor<'t>> for ExplicitForm {
    type Tree = ExplicitAttribute;

    ghost form = { λ _. spec.explicit_attr };

    ghost can_read = { λ _. Unit {0} };

    fn read(&self, alloc: Global, cursor: &mut Cursor<'t>) -> Read<ExplicitAttribute> {
        explicit_attr(alloc, cursor)
    }
}

impl<'t> Begins<Cursor<'t>> for ExplicitForm {
    ghost begins = { λ _. begins_attribute };

    fn begins(&self, cursor: &Cursor<'t>) -> bool {
        begins_attribute(cursor)
    }
}

#[tactic(auto, unfolding(crate::specs::Entities::derived_attr))]
fn derived_attr(alloc: Global, cursor: &mut Cursor<'_>) -> Read<DerivedAttribute>
    ensures reads { Reads (spec.derived_attr cursor.old) result cursor.new }
    ensures takes { Takes result cursor.old cursor.new }
{
    let attribute = attribute_decl(alloc, cursor)?;
    cursor.expect(TokenKind::Colon)?;
    let data_type = base_type(alloc, cursor, MAX_LEVELS)?;
    cursor.expect(TokenKind::Becomes)?;
    let value = expression(alloc, cursor, MAX_LEVELS)?;
    cursor.expect(TokenKind::Semicolon)?;
    Ok(DerivedAttribute {
        attribute,
        data_type,
        value,
    })
}

#[derive(Drop)]
struct DerivedForm;

impl<'t> Form<Cursor<'t>> for DerivedForm {
    type Tree = DerivedAttribute;

    ghost form = { λ _. spec.derived_attr };

    ghost can_read = { λ _. Unit {0} };

    fn read(&self, alloc: Global, cursor: &mut Cursor<'t>) -> Read<DerivedAttribute> {
        derived_attr(alloc, cursor)
    }
}

impl<'t> Begins<Cursor<'t>> for DerivedForm {
    ghost begins = { λ _. begins_attribute };

    fn begins(&self, cursor: &Cursor<'t>) -> bool {
        begins_attribute(cursor)
    }
}

fn set_or_bag(kind: TokenKind) -> Option<SetOrBag>
    ensures { result ≡ spec.set_or_bag kind }
{
    match kind {
        TokenKind::Set => Some(SetOrBag::Set),
        TokenKind::Bag => Some(SetOrBag::Bag),
        _ => None,
    }
}

/// SET or BAG with its bounds and OF, if it stands here.
#[tactic(auto, unfolding(crate::specs::Entities::inverse_aggregate))]
fn inverse_aggregate(cursor: &mut Cursor<'_>) -> Read<Option<InverseAggregate>>
    ensures reads { Reads (spec.inverse_aggregate cursor.old) result cursor.new }
    ensures keeps { Keeps result cursor.old cursor.new }
{
    let word = cursor.kind();
    let Some(kind) = set_or_bag(word) else {
        return Ok(None);
    };
    cursor.enter(MAX_LEVELS, word)?;
    let bounds = optional_bounds(cursor, MAX_LEVELS - 1)?;
    cursor.expect(TokenKind::Of)?;
    Ok(Some(InverseAggregate { kind, bounds }))
}

#[tactic(auto, unfolding(crate::specs::Entities::inverse_attr))]
fn inverse_attr(alloc: Global, cursor: &mut Cursor<'_>) -> Read<InverseAttribute>
    ensures reads { Reads (spec.inverse_attr cursor.old) result cursor.new }
    ensures takes { Takes result cursor.old cursor.new }
{
    let own = name(alloc, cursor)?;
    cursor.expect(TokenKind::Colon)?;
    let aggregate = inverse_aggregate(cursor)?;
    let entity = name(alloc, cursor)?;
    cursor.expect(TokenKind::For)?;
    let attribute = name(alloc, cursor)?;
    cursor.expect(TokenKind::Semicolon)?;
    Ok(InverseAttribute {
        name: own,
        aggregate,
        entity,
        attribute,
    })
}

#[derive(Drop)]
struct InverseForm;

impl<'t> Form<Cursor<'t>> for InverseForm {
    type Tree = InverseAttribute;

    ghost form = { λ _. spec.inverse_attr };

    ghost can_read = { λ _. Unit {0} };

    fn read(&self, alloc: Global, cursor: &mut Cursor<'t>) -> Read<InverseAttribute> {
        inverse_attr(alloc, cursor)
    }
}

impl<'t> Begins<Cursor<'t>> for InverseForm {
    ghost begins = { λ _. input.sees k.Identifier };

    fn begins(&self, cursor: &Cursor<'t>) -> bool {
        cursor.sees(TokenKind::Identifier)
    }
}

#[tactic(auto, unfolding(crate::specs::Entities::unique_rule))]
fn unique_rule(alloc: Global, cursor: &mut Cursor<'_>) -> Read<UniqueRule>
    ensures reads { Reads (spec.unique_rule cursor.old) result cursor.new }
    ensures takes { Takes result cursor.old cursor.new }
{
    let label = optional(alloc, cursor, &LabelForm)?;
    let attributes = separated(alloc, cursor, TokenKind::Comma, &AttributeForm)?;
    cursor.expect(TokenKind::Semicolon)?;
    Ok(UniqueRule { label, attributes })
}

#[derive(Drop)]
struct UniqueForm;

impl<'t> Form<Cursor<'t>> for UniqueForm {
    type Tree = UniqueRule;

    ghost form = { λ _. spec.unique_rule };

    ghost can_read = { λ _. Unit {0} };

    fn read(&self, alloc: Global, cursor: &mut Cursor<'t>) -> Read<UniqueRule> {
        unique_rule(alloc, cursor)
    }
}

impl<'t> Begins<Cursor<'t>> for UniqueForm {
    ghost begins = { λ _. begins_attribute };

    fn begins(&self, cursor: &Cursor<'t>) -> bool {
        begins_attribute(cursor)
    }
}

/// What stands behind this word, if it stands here: one item or more.
fn clause<'t, F: Form<Cursor<'t>> + Begins<Cursor<'t>>>(
    alloc: Global,
    cursor: &mut Cursor<'t>,
    word: TokenKind,
    item: &F,
) -> Read<Items<F::Tree>>
    requires { F.can_read item.now }
    ensures reads { Reads (spec.clause word (F.begins item.now) (F.form item.now) cursor.old) result cursor.new }
    ensures keeps { Keeps result cursor.old cursor.new }
{
    if !cursor.sees(word) {
        return Ok(Items::new(alloc));
    }
    cursor.expect(word)?;
    some(alloc, cursor, item)
}

#[tactic(auto, unfolding(crate::specs::Entities::entity_body))]
fn entity_body(alloc: Global, cursor: &mut Cursor<'_>) -> Read<EntityBody>
    ensures reads { Reads (spec.entity_body cursor.old) result cursor.new }
    ensures keeps { Keeps result cursor.old cursor.new }
{
    let explicit = many(alloc, cursor, &ExplicitForm)?;
    let derived = clause(alloc, cursor, TokenKind::Derive, &DerivedForm)?;
    let inverse = clause(alloc, cursor, TokenKind::Inverse, &InverseForm)?;
    let unique_rules = clause(alloc, cursor, TokenKind::Unique, &UniqueForm)?;
    let domain_rules = where_rules(alloc, cursor)?;
    Ok(EntityBody {
        explicit,
        derived,
        inverse,
        unique_rules,
        domain_rules,
    })
}

#[tactic(auto, unfolding(crate::specs::Entities::subtype_constraint))]
fn subtype_constraint(alloc: Global, cursor: &mut Cursor<'_>) -> Read<SupertypeExpression>
    ensures reads { Reads (spec.subtype_constraint cursor.old) result cursor.new }
    ensures takes { Takes result cursor.old cursor.new }
{
    cursor.expect(TokenKind::Of)?;
    cursor.enter(MAX_LEVELS, TokenKind::OpenParenthesis)?;
    let found = supertype_expression(alloc, cursor, MAX_LEVELS - 1)?;
    cursor.expect(TokenKind::CloseParenthesis)?;
    Ok(found)
}

#[derive(Drop)]
struct SubtypeConstraintForm;

impl<'t> Form<Cursor<'t>> for SubtypeConstraintForm {
    type Tree = SupertypeExpression;

    ghost form = { λ _. spec.subtype_constraint };

    ghost can_read = { λ _. Unit {0} };

    fn read(&self, alloc: Global, cursor: &mut Cursor<'t>) -> Read<SupertypeExpression> {
        subtype_constraint(alloc, cursor)
    }
}

impl<'t> Begins<Cursor<'t>> for SubtypeConstraintForm {
    ghost begins = { λ _. input.sees k.Of };

    fn begins(&self, cursor: &Cursor<'t>) -> bool {
        cursor.sees(TokenKind::Of)
    }
}

#[tactic(auto, unfolding(crate::specs::Entities::supertype_rule))]
fn supertype_rule(alloc: Global, cursor: &mut Cursor<'_>) -> Read<SupertypeExpression>
    ensures reads { Reads (spec.supertype_rule cursor.old) result cursor.new }
    ensures takes { Takes result cursor.old cursor.new }
{
    cursor.expect(TokenKind::Supertype)?;
    subtype_constraint(alloc, cursor)
}

#[derive(Drop)]
struct SupertypeRuleForm;

impl<'t> Form<Cursor<'t>> for SupertypeRuleForm {
    type Tree = SupertypeExpression;

    ghost form = { λ _. spec.supertype_rule };

    ghost can_read = { λ _. Unit {0} };

    fn read(&self, alloc: Global, cursor: &mut Cursor<'t>) -> Read<SupertypeExpression> {
        supertype_rule(alloc, cursor)
    }
}

impl<'t> Begins<Cursor<'t>> for SupertypeRuleForm {
    ghost begins = { λ _. input.sees k.Supertype };

    fn begins(&self, cursor: &Cursor<'t>) -> bool {
        cursor.sees(TokenKind::Supertype)
    }
}

/// What follows ABSTRACT.
#[tactic(auto, unfolding(crate::specs::Entities::abstract_supertype))]
fn abstract_supertype(alloc: Global, cursor: &mut Cursor<'_>) -> Read<Option<SupertypeExpression>>
    ensures reads { Reads (spec.abstract_supertype cursor.old) result cursor.new }
    ensures takes { Takes result cursor.old cursor.new }
{
    cursor.expect(TokenKind::Supertype)?;
    optional(alloc, cursor, &SubtypeConstraintForm)
}

fn supertype_constraint(
    alloc: Global,
    cursor: &mut Cursor<'_>,
    is_abstract: bool,
) -> Read<Option<SupertypeExpression>>
    ensures reads { Reads (spec.supertype_constraint is_abstract cursor.old) result cursor.new }
    ensures keeps { Keeps result cursor.old cursor.new }
{
    if is_abstract {
        abstract_supertype(alloc, cursor)
    } else {
        optional(alloc, cursor, &SupertypeRuleForm)
    }
}

#[tactic(auto, unfolding(crate::specs::Entities::subtype_declaration))]
fn subtype_declaration(alloc: Global, cursor: &mut Cursor<'_>) -> Read<Items<Name>>
    ensures reads { Reads (spec.subtype_declaration cursor.old) result cursor.new }
    ensures takes { Takes result cursor.old cursor.new }
{
    cursor.expect(TokenKind::Subtype)?;
    cursor.expect(TokenKind::Of)?;
    name_list(alloc, cursor)
}

/// What SUBTYPE OF lists, if it stands here.
#[tactic(auto, unfolding(crate::specs::Entities::supertypes))]
fn supertypes(alloc: Global, cursor: &mut Cursor<'_>) -> Read<Items<Name>>
    ensures reads { Reads (spec.supertypes cursor.old) result cursor.new }
    ensures keeps { Keeps result cursor.old cursor.new }
{
    if cursor.sees(TokenKind::Subtype) {
        subtype_declaration(alloc, cursor)
    } else {
        Ok(Items::new(alloc))
    }
}

#[tactic(auto, unfolding(crate::specs::Entities::entity_head))]
fn entity_head(alloc: Global, cursor: &mut Cursor<'_>) -> Read<EntityHead>
    ensures reads { Reads (spec.entity_head cursor.old) result cursor.new }
    ensures takes { Takes result cursor.old cursor.new }
{
    cursor.expect(TokenKind::Entity)?;
    let name = name(alloc, cursor)?;
    let is_abstract = cursor.eat(TokenKind::Abstract);
    let constraint = supertype_constraint(alloc, cursor, is_abstract)?;
    let supertypes = supertypes(alloc, cursor)?;
    cursor.expect(TokenKind::Semicolon)?;
    Ok(EntityHead {
        name,
        is_abstract,
        constraint,
        supertypes,
    })
}

/// An entity, from ENTITY to its END_ENTITY.
#[tactic(auto, unfolding(crate::specs::Entities::entity_decl))]
pub fn entity_decl(alloc: Global, cursor: &mut Cursor<'_>) -> Read<Entity>
    ensures reads { Reads (spec.entity_decl cursor.old) result cursor.new }
    ensures takes { Takes result cursor.old cursor.new }
{
    let head = entity_head(alloc, cursor)?;
    let body = entity_body(alloc, cursor)?;
    cursor.expect(TokenKind::EndEntity)?;
    cursor.expect(TokenKind::Semicolon)?;
    Ok(Entity { head, body })
}
