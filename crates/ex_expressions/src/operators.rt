//! Operators, and the operands between which they stand.

ghost use Rattle.std.specs.Prelude.{◌≡◌, ◌∷◌, [], IfOk};
ghost use Rattle.text_forms.specs.Reads.{Reads, Takes};
ghost use Rattle.ex_expressions.specs.Operators as spec;

use ex_forms::{Begins, Cursor, Form, Read, many};
use ex_tree::{BinaryOperator, Expression, IntervalOperator, Operation, TokenKind, UnaryOperator};
use plain_data::{Boxed, Failure, Items};
use std::alloc::{AllocError, Global};

/// How tightly an operator binds, from the most.
#[derive(Clone, Copy)]
pub enum Rank {
    /// `**`
    Powering,
    Multiplying,
    Adding,
    /// Relations.
    Relating,
}

fn powering(kind: TokenKind) -> Option<BinaryOperator>
    ensures { result ≡ spec.powering kind }
{
    match kind {
        TokenKind::Power => Some(BinaryOperator::Power),
        _ => None,
    }
}

fn multiplication_like(kind: TokenKind) -> Option<BinaryOperator>
    ensures { result ≡ spec.multiplication_like kind }
{
    match kind {
        TokenKind::Star => Some(BinaryOperator::Multiply),
        TokenKind::Slash => Some(BinaryOperator::Divide),
        TokenKind::Div => Some(BinaryOperator::Div),
        TokenKind::Mod => Some(BinaryOperator::Mod),
        TokenKind::And => Some(BinaryOperator::And),
        _ => None,
    }
}

fn add_like(kind: TokenKind) -> Option<BinaryOperator>
    ensures { result ≡ spec.add_like kind }
{
    match kind {
        TokenKind::Plus => Some(BinaryOperator::Add),
        TokenKind::Minus => Some(BinaryOperator::Subtract),
        TokenKind::Or => Some(BinaryOperator::Or),
        TokenKind::Xor => Some(BinaryOperator::Xor),
        _ => None,
    }
}

fn relation(kind: TokenKind) -> Option<BinaryOperator>
    ensures { result ≡ spec.relation kind }
{
    match kind {
        TokenKind::Less => Some(BinaryOperator::Less),
        TokenKind::Greater => Some(BinaryOperator::Greater),
        TokenKind::LessEqual => Some(BinaryOperator::LessEqual),
        TokenKind::GreaterEqual => Some(BinaryOperator::GreaterEqual),
        TokenKind::NotEqual => Some(BinaryOperator::NotEqual),
        TokenKind::Equals => Some(BinaryOperator::Equal),
        TokenKind::InstanceNotEqual => Some(BinaryOperator::InstanceNotEqual),
        TokenKind::InstanceEqual => Some(BinaryOperator::InstanceEqual),
        TokenKind::In => Some(BinaryOperator::In),
        _ => None,
    }
}

fn operator_of(rank: Rank, kind: TokenKind) -> Option<BinaryOperator>
    ensures { result ≡ spec.operator_of rank kind }
{
    match rank {
        Rank::Powering => powering(kind),
        Rank::Multiplying => multiplication_like(kind),
        Rank::Adding => add_like(kind),
        Rank::Relating => relation(kind),
    }
}

pub fn unary_operator(kind: TokenKind) -> Option<UnaryOperator>
    ensures { result ≡ spec.unary_operator kind }
{
    match kind {
        TokenKind::Plus => Some(UnaryOperator::Plus),
        TokenKind::Minus => Some(UnaryOperator::Minus),
        TokenKind::Not => Some(UnaryOperator::Not),
        _ => None,
    }
}

pub fn interval_operator(kind: TokenKind) -> Option<IntervalOperator>
    ensures { result ≡ spec.interval_operator kind }
{
    match kind {
        TokenKind::Less => Some(IntervalOperator::Less),
        TokenKind::LessEqual => Some(IntervalOperator::LessEqual),
        _ => None,
    }
}

/// Whether the next token is an operator of this rank.
fn continues(rank: Rank, cursor: &Cursor<'_>) -> bool
    ensures { result ≡ spec.continues rank cursor.now }
{
    operator_of(rank, cursor.kind()).is_some()
}

/// An operator of this rank, which comes next, and the operand on its right.
#[tactic(auto, unfolding(crate::specs::Operators::operation))]
fn operation<'t, F: Form<Cursor<'t>, Tree = Expression>>(
    alloc: Global,
    cursor: &mut Cursor<'t>,
    rank: Rank,
    operand: &F,
) -> Read<Operation>
    requires { F.can_read operand.now }
    ensures reads { Reads (spec.operation rank (F.form operand.now) cursor.old) result cursor.new }
    ensures takes { Takes result cursor.old cursor.new }
{
    let kind = cursor.kind();
    let Some(operator) = operator_of(rank, kind) else {
        return Err(Failure::Fault(cursor.refusal()));
    };
    let token = cursor.expect(kind)?;
    let right = operand.read(alloc, cursor)?;
    Ok(Operation {
        operator,
        at: token.at,
        right,
    })
}

#[derive(Drop)]
struct OperationForm<'f, F> {
    rank: Rank,
    operand: &'f F,
}

impl<'t, F: Form<Cursor<'t>, Tree = Expression>> Form<Cursor<'t>> for OperationForm<'_, F> {
    type Tree = Operation;

    ghost form = { λ f. spec.operation f.rank (F.form f.operand.now) };

    ghost can_read = { λ f. F.can_read f.operand.now };

    fn read(&self, alloc: Global, cursor: &mut Cursor<'t>) -> Read<Operation> {
        operation(alloc, cursor, self.rank, self.operand)
    }
}

impl<'t, F: Form<Cursor<'t>, Tree = Expression>> Begins<Cursor<'t>> for OperationForm<'_, F> {
    ghost begins = { λ f. spec.continues f.rank };

    fn begins(&self, cursor: &Cursor<'t>) -> bool {
        continues(self.rank, cursor)
    }
}

fn chained(
    alloc: Global,
    first: Expression,
    more: Items<Operation>,
) -> Result<Expression, AllocError>
    ensures { IfOk result (λ e. e ≡ spec.chained first more) }
{
    if more.is_empty() {
        return Ok(first);
    }
    Ok(Expression::Chain(Boxed::new(alloc, first)?, more))
}

/// Operands with operators of one rank between, from left to right.
#[tactic(auto, unfolding(crate::specs::Operators::chain))]
pub fn chain<'t, F: Form<Cursor<'t>, Tree = Expression>>(
    alloc: Global,
    cursor: &mut Cursor<'t>,
    rank: Rank,
    operand: &F,
) -> Read<Expression>
    requires { F.can_read operand.now }
    ensures reads { Reads (spec.chain rank (F.form operand.now) cursor.old) result cursor.new }
    ensures takes { Takes result cursor.old cursor.new }
{
    let first = operand.read(alloc, cursor)?;
    // Most operands stand alone.
    if !continues(rank, cursor) {
        return Ok(first);
    }
    let more = many(alloc, cursor, &OperationForm { rank, operand })?;
    Ok(chained(alloc, first, more)?)
}

fn only(alloc: Global, item: Operation) -> Result<Items<Operation>, AllocError>
    ensures { IfOk result (λ found. found ≡ item ∷ []) }
{
    // A list that grows from nothing has room for four.
    let mut found = Vec::with_capacity(alloc, 1)?;
    found.push(item)?;
    Ok(Items::from_vec(found))
}

/// One operand, or two with an operator of this rank between.
#[tactic(auto, unfolding(crate::specs::Operators::once))]
pub fn once<'t, F: Form<Cursor<'t>, Tree = Expression>>(
    alloc: Global,
    cursor: &mut Cursor<'t>,
    rank: Rank,
    operand: &F,
) -> Read<Expression>
    requires { F.can_read operand.now }
    ensures reads { Reads (spec.once rank (F.form operand.now) cursor.old) result cursor.new }
    ensures takes { Takes result cursor.old cursor.new }
{
    let first = operand.read(alloc, cursor)?;
    if !continues(rank, cursor) {
        return Ok(first);
    }
    let next = operation(alloc, cursor, rank, operand)?;
    let more = only(alloc, next)?;
    Ok(Expression::Chain(Boxed::new(alloc, first)?, more))
}
