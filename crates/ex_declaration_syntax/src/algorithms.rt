//! Functions and rules.

ghost use Rattle.std.specs.Prelude.{◌≡◌};
ghost use Rattle.text_forms.specs.Reads.{Reads, Takes, Keeps};
ghost use Rattle.ex_forms.specs.Input as input;
ghost use Rattle.ex_declaration_syntax.specs.Algorithms as spec;
ghost use Rattle.ex_tree.specs.declared.kind.TokenKind.TheVariants as k;

use crate::data_types::{base_type, parameter_type};
use crate::declarations::{MAX_LEVELS, NameForm, name_list, where_clause};
use ex_expressions::expression;
use ex_forms::{Begins, Cursor, Form, Read, name, optional, separated, some};
use ex_statements::{Place, begins_statement, statements};
use ex_tree::{
    Expression, Function, FunctionHead, LocalVariable, Parameter, Rule, RuleHead, Statement,
    TokenKind,
};
use plain_data::Items;
use std::alloc::Global;

const IN_FUNCTIONS: Place = Place {
    in_function: true,
    in_repeat: false,
};

const IN_RULES: Place = Place {
    in_function: false,
    in_repeat: false,
};

#[tactic(auto, unfolding(crate::specs::Algorithms::formal_parameter))]
fn formal_parameter(alloc: Global, cursor: &mut Cursor<'_>) -> Read<Parameter>
    ensures reads { Reads (spec.formal_parameter cursor.old) result cursor.new }
    ensures takes { Takes result cursor.old cursor.new }
{
    let names = separated(alloc, cursor, TokenKind::Comma, &NameForm)?;
    cursor.expect(TokenKind::Colon)?;
    let data_type = parameter_type(alloc, cursor, MAX_LEVELS - 1)?;
    Ok(Parameter { names, data_type })
}

#[derive(Drop)]
struct ParameterForm;

impl<'t> Form<Cursor<'t>> for ParameterForm {
    type Tree = Parameter;

    ghost form = { λ _. spec.formal_parameter };

    ghost can_read = { λ _. Unit {0} };

    fn read(&self, alloc: Global, cursor: &mut Cursor<'t>) -> Read<Parameter> {
        formal_parameter(alloc, cursor)
    }
}

#[tactic(auto, unfolding(crate::specs::Algorithms::parameter_list))]
fn parameter_list(alloc: Global, cursor: &mut Cursor<'_>) -> Read<Items<Parameter>>
    ensures reads { Reads (spec.parameter_list cursor.old) result cursor.new }
    ensures takes { Takes result cursor.old cursor.new }
{
    cursor.enter(MAX_LEVELS, TokenKind::OpenParenthesis)?;
    let found = separated(alloc, cursor, TokenKind::Semicolon, &ParameterForm)?;
    cursor.expect(TokenKind::CloseParenthesis)?;
    Ok(found)
}

/// The parameters, if a list stands here.
#[tactic(auto, unfolding(crate::specs::Algorithms::parameters))]
fn parameters(alloc: Global, cursor: &mut Cursor<'_>) -> Read<Items<Parameter>>
    ensures reads { Reads (spec.parameters cursor.old) result cursor.new }
    ensures keeps { Keeps result cursor.old cursor.new }
{
    if cursor.sees(TokenKind::OpenParenthesis) {
        parameter_list(alloc, cursor)
    } else {
        Ok(Items::new(alloc))
    }
}

#[tactic(auto, unfolding(crate::specs::Algorithms::initial_value))]
fn initial_value(alloc: Global, cursor: &mut Cursor<'_>) -> Read<Expression>
    ensures reads { Reads (spec.initial_value cursor.old) result cursor.new }
    ensures takes { Takes result cursor.old cursor.new }
{
    cursor.expect(TokenKind::Becomes)?;
    expression(alloc, cursor, MAX_LEVELS)
}

#[derive(Drop)]
struct InitialValueForm;

impl<'t> Form<Cursor<'t>> for InitialValueForm {
    type Tree = Expression;

    ghost form = { λ _. spec.initial_value };

    ghost can_read = { λ _. Unit {0} };

    fn read(&self, alloc: Global, cursor: &mut Cursor<'t>) -> Read<Expression> {
        initial_value(alloc, cursor)
    }
}

impl<'t> Begins<Cursor<'t>> for InitialValueForm {
    ghost begins = { λ _. input.sees k.Becomes };

    fn begins(&self, cursor: &Cursor<'t>) -> bool {
        cursor.sees(TokenKind::Becomes)
    }
}

#[tactic(auto, unfolding(crate::specs::Algorithms::local_variable))]
fn local_variable(alloc: Global, cursor: &mut Cursor<'_>) -> Read<LocalVariable>
    ensures reads { Reads (spec.local_variable cursor.old) result cursor.new }
    ensures takes { Takes result cursor.old cursor.new }
{
    let names = separated(alloc, cursor, TokenKind::Comma, &NameForm)?;
    cursor.expect(TokenKind::Colon)?;
    let data_type = base_type(alloc, cursor, MAX_LEVELS)?;
    let value = optional(alloc, cursor, &InitialValueForm)?;
    cursor.expect(TokenKind::Semicolon)?;
    Ok(LocalVariable {
        names,
        data_type,
        value,
    })
}

#[derive(Drop)]
struct LocalVariableForm;

impl<'t> Form<Cursor<'t>> for LocalVariableForm {
    type Tree = LocalVariable;

    ghost form = { λ _. spec.local_variable };

    ghost can_read = { λ _. Unit {0} };

    fn read(&self, alloc: Global, cursor: &mut Cursor<'t>) -> Read<LocalVariable> {
        local_variable(alloc, cursor)
    }
}

impl<'t> Begins<Cursor<'t>> for LocalVariableForm {
    ghost begins = { λ _. input.sees k.Identifier };

    fn begins(&self, cursor: &Cursor<'t>) -> bool {
        cursor.sees(TokenKind::Identifier)
    }
}

#[tactic(auto, unfolding(crate::specs::Algorithms::local_decl))]
fn local_decl(alloc: Global, cursor: &mut Cursor<'_>) -> Read<Items<LocalVariable>>
    ensures reads { Reads (spec.local_decl cursor.old) result cursor.new }
    ensures takes { Takes result cursor.old cursor.new }
{
    cursor.expect(TokenKind::Local)?;
    let found = some(alloc, cursor, &LocalVariableForm)?;
    cursor.expect(TokenKind::EndLocal)?;
    cursor.expect(TokenKind::Semicolon)?;
    Ok(found)
}

/// What LOCAL declares, if it stands here.
#[tactic(auto, unfolding(crate::specs::Algorithms::algorithm_head))]
fn algorithm_head(alloc: Global, cursor: &mut Cursor<'_>) -> Read<Items<LocalVariable>>
    ensures reads { Reads (spec.algorithm_head cursor.old) result cursor.new }
    ensures keeps { Keeps result cursor.old cursor.new }
{
    if cursor.sees(TokenKind::Local) {
        local_decl(alloc, cursor)
    } else {
        Ok(Items::new(alloc))
    }
}

#[tactic(auto, unfolding(crate::specs::Algorithms::function_head))]
fn function_head(alloc: Global, cursor: &mut Cursor<'_>) -> Read<FunctionHead>
    ensures reads { Reads (spec.function_head cursor.old) result cursor.new }
    ensures takes { Takes result cursor.old cursor.new }
{
    cursor.expect(TokenKind::Function)?;
    let name = name(alloc, cursor)?;
    let parameters = parameters(alloc, cursor)?;
    cursor.expect(TokenKind::Colon)?;
    let result = parameter_type(alloc, cursor, MAX_LEVELS)?;
    cursor.expect(TokenKind::Semicolon)?;
    Ok(FunctionHead {
        name,
        parameters,
        result,
    })
}

/// A function, from FUNCTION to its END_FUNCTION.
#[tactic(auto, unfolding(crate::specs::Algorithms::function_decl))]
pub fn function_decl(alloc: Global, cursor: &mut Cursor<'_>) -> Read<Function>
    ensures reads { Reads (spec.function_decl cursor.old) result cursor.new }
    ensures takes { Takes result cursor.old cursor.new }
{
    let head = function_head(alloc, cursor)?;
    let locals = algorithm_head(alloc, cursor)?;
    let statements = statements(alloc, cursor, MAX_LEVELS, IN_FUNCTIONS)?;
    cursor.expect(TokenKind::EndFunction)?;
    cursor.expect(TokenKind::Semicolon)?;
    Ok(Function {
        head,
        locals,
        statements,
    })
}

#[tactic(auto, unfolding(crate::specs::Algorithms::rule_head))]
fn rule_head(alloc: Global, cursor: &mut Cursor<'_>) -> Read<RuleHead>
    ensures reads { Reads (spec.rule_head cursor.old) result cursor.new }
    ensures takes { Takes result cursor.old cursor.new }
{
    cursor.expect(TokenKind::Rule)?;
    let name = name(alloc, cursor)?;
    cursor.expect(TokenKind::For)?;
    let entities = name_list(alloc, cursor)?;
    cursor.expect(TokenKind::Semicolon)?;
    Ok(RuleHead { name, entities })
}

/// The statements of a rule, which may have none.
#[tactic(auto, unfolding(crate::specs::Algorithms::rule_statements))]
fn rule_statements(alloc: Global, cursor: &mut Cursor<'_>) -> Read<Items<Statement>>
    ensures reads { Reads (spec.rule_statements cursor.old) result cursor.new }
    ensures keeps { Keeps result cursor.old cursor.new }
{
    if begins_statement(cursor, IN_RULES) {
        statements(alloc, cursor, MAX_LEVELS, IN_RULES)
    } else {
        Ok(Items::new(alloc))
    }
}

/// A rule, from RULE to its END_RULE.
#[tactic(auto, unfolding(crate::specs::Algorithms::rule_decl))]
pub fn rule_decl(alloc: Global, cursor: &mut Cursor<'_>) -> Read<Rule>
    ensures reads { Reads (spec.rule_decl cursor.old) result cursor.new }
    ensures takes { Takes result cursor.old cursor.new }
{
    let head = rule_head(alloc, cursor)?;
    let locals = algorithm_head(alloc, cursor)?;
    let statements = rule_statements(alloc, cursor)?;
    let domain_rules = where_clause(alloc, cursor)?;
    cursor.expect(TokenKind::EndRule)?;
    cursor.expect(TokenKind::Semicolon)?;
    Ok(Rule {
        head,
        locals,
        statements,
        domain_rules,
    })
}
