//! Expressions.
#![tactic(auto, unfolding(rp_meaning::specs::Expressions::expression, rp_meaning::specs::Expressions::qualifier, rp_meaning::specs::Expressions::interval, rp_meaning::specs::Expressions::operation, rp_meaning::specs::Expressions::query))]

ghost use Rattle.std.specs.Prelude.{◌≡◌, [], map, slice_index_or, OnOk};
ghost use Rattle.std.specs.Option.{option_copied};
ghost use Rattle.rp_meaning.specs.Computations.{Runs, pure};
ghost use Rattle.rp_meaning.specs.Bare.{place_of};
ghost use Rattle.rp_meaning.specs.BuiltIns as built_ins;
ghost use Rattle.rp_meaning.specs.Expressions as spec;
ghost use Rattle.rp_meaning.specs.Operators as operators;
ghost use Rattle.rp_code.specs.Denoted.{expression_of, expressions_of, operations_of, qualifiers_of};
ghost use Rattle.rp_code.specs.declared.tree.Operation.{roll-Operation};
ghost use Rattle.rp_code.specs.declared.tree.Query.{roll-Query};
ghost use Rattle.rp_value.specs.declared.value.Value.TheVariants as v;
ghost use Rattle.rp_eval_parts.specs.Charges.{charged, followed};
ghost use Rattle.rp_eval_parts.specs.Serving.{Ready};
ghost use Rattle.rp_eval.specs.Bodies.{RunsBodies, bodies_at, interval_at, operation_at, qualifier_at, query_at, value_at};
ghost use Rattle.rp_eval_parts.specs.Callings as callings;
ghost use Rattle.rp_eval.specs.Parts.{Counts, interval_of};
ghost use Rattle.rp_eval_parts.specs.Written.{RunsInto};

use crate::items::{first_item, split};
use crate::run::Run;
use crate::walk::Walk;
use ex_named::AttributePlace;
use ex_tree::{BinaryOperator, BuiltInFunction, IntervalOperator, UnaryOperator};
use plain_data::{Boxed, Items};
use rp_code::{Instruction, Role, behind};
use rp_eval_parts::{Frame, Setting, charge, charge_interval, copied, known, variable};
use rp_meaning::{Body, Counter, Stop};
use rp_operators::{aggregate_of, applied, applied_to, index, is_true, place_of, range, within};
use rp_value::Value;
use std::alloc::{AllocError, Global};

/// Puts what a sign or NOT gives of a value in its place.
#[inline(never)]
fn sign(operator: UnaryOperator, into: &mut Value)
    ensures { into.new ≡ operators.applied_to operator into.old }
{
    *into = applied_to(operator, into);
}

/// `?`, for a step.
#[inline(never)]
fn nothing(counter: &mut Counter, into: &mut Value) -> Result<(), Stop>
    ensures { RunsInto (charged 1 (pure v.Indet) counter.old) result into.new counter.new }
{
    charge(counter, 1)?;
    *into = Value::Indet;
    Ok(())
}

/// Puts an element behind the others, where the condition holds.
fn keep(found: &mut Items<Value>, element: &Value, holds: bool) -> Result<(), AllocError>
    ensures { OnOk result (found.new ≡ spec.kept_one found.old element.now holds) }
{
    if holds {
        found.push(copied(element)?)?;
    }
    Ok(())
}

/// What an interval has after its lower bound.
#[derive(Clone, Copy)]
struct IntervalEnds<'c> {
    low_operator: IntervalOperator,
    item: &'c [Instruction],
    high_operator: IntervalOperator,
    high: &'c [Instruction],
}

/// The arguments of a function of the language.
enum Arguments<'c> {
    One(&'c [Instruction]),
    Two(&'c [Instruction], &'c [Instruction]),
    /// None, or more than two.
    Several,
}

/// The arguments in a list.
fn counted(list: &[Instruction]) -> Arguments<'_>
    ensures { Counts list.now result }
{
    let Some((first, others)) = first_item(list) else {
        return Arguments::Several;
    };
    let Some((second, others)) = first_item(others) else {
        return Arguments::One(first);
    };
    match first_item(others) {
        Some(_) => Arguments::Several,
        None => Arguments::Two(first, second),
    }
}

/// A role that may be there.
fn unboxed(role: &Option<Boxed<Role>>) -> Option<&Role>
    ensures { option_copied result ≡ role.now }
{
    match role {
        Some(role) => Some(role.get()),
        None => None,
    }
}

impl<'a, W: Setting, B: Fn(Global, &W, u8, &mut Run<'_>, Body) -> Result<Value, Stop>> Walk<
    'a,
    W,
    B,
> {
    /// Whether a value is between the one that is there and another.
    #[inline(never)]
    fn bounded(
        &self,
        ends: &IntervalEnds<'_>,
        item: &Value,
        high: &Value,
        counter: &mut Counter,
        into: &mut Value,
    ) -> Result<(), Stop>
        ensures { RunsInto (spec.costing (operators.interval_cost into.old item.now high.now) (operators.within ends.now.low_operator ends.now.high_operator into.old item.now high.now) counter.old) result into.new counter.new }
    {
        charge_interval(counter, into, item, high)?;
        *into = within(
            self.alloc,
            ends.low_operator,
            ends.high_operator,
            into,
            item,
            high,
        )?;
        Ok(())
    }

    /// The value of the expression that begins there is written in place: a frame on the way to a part holds no value but those
    /// that wait for it. This function has no value of its own, so that it hands on without a frame: to what has no parts, and to
    /// functions with small frames for what nests deepest.
    #[cycle(expressions)]
    pub(crate) fn expression(
        &self,
        code: &[Instruction],
        frame: &mut Frame,
        run: &mut Run<'_>,
        into: &mut Value,
    ) -> Result<(), Stop>
        requires below { RunsBodies W.world self.now.alloc self.now.world self.now.levels (B.pre self.now.below) (B.post self.now.below) }
        requires ready { Ready (W.world self.now.world.now) run.old.memory }
        ensures value { RunsInto (value_at (W.world self.now.world.now) self.now.levels (expression_of code.now) frame.old run.old.counter) result into.new run.new.counter }
        ensures frame { OnOk result (frame.new ≡ frame.old) }
        ensures ready { Ready (W.world self.now.world.now) run.new.memory }
    {
        let Some((first, rest)) = split(code) else {
            return nothing(&mut run.counter, into);
        };
        match first {
            Instruction::Literal(value) => known(value, &mut run.counter, into),
            Instruction::Variable(slot) => variable(frame, *slot, &mut run.counter, into),
            Instruction::Attribute(attribute) => self.own_attribute(attribute, frame, run, into),
            Instruction::Chain(_) => self.chain(code, frame, run, into),
            Instruction::Unary(_) => self.signed(code, frame, run, into),
            Instruction::Initializer => self.initializer(rest, frame, run, into),
            _ => self.compound(code, frame, run, into),
        }
    }

    /// The same, for operators of one level.
    #[cycle(expressions)]
    #[inline(never)]
    fn chain(
        &self,
        code: &[Instruction],
        frame: &mut Frame,
        run: &mut Run<'_>,
        into: &mut Value,
    ) -> Result<(), Stop>
        requires below { RunsBodies W.world self.now.alloc self.now.world self.now.levels (B.pre self.now.below) (B.post self.now.below) }
        requires ready { Ready (W.world self.now.world.now) run.old.memory }
        ensures value { RunsInto (value_at (W.world self.now.world.now) self.now.levels (expression_of code.now) frame.old run.old.counter) result into.new run.new.counter }
        ensures frame { OnOk result (frame.new ≡ frame.old) }
        ensures ready { Ready (W.world self.now.world.now) run.new.memory }
    {
        let Some((first, rest)) = split(code) else {
            return nothing(&mut run.counter, into);
        };
        match first {
            Instruction::Chain(operations) => {
                self.expression(rest, frame, run, into)?;
                self.operations(behind(rest, *operations), frame, run, into)
            }
            _ => self.compound(code, frame, run, into),
        }
    }

    /// The same, for a sign or NOT.
    #[cycle(expressions)]
    #[inline(never)]
    fn signed(
        &self,
        code: &[Instruction],
        frame: &mut Frame,
        run: &mut Run<'_>,
        into: &mut Value,
    ) -> Result<(), Stop>
        requires below { RunsBodies W.world self.now.alloc self.now.world self.now.levels (B.pre self.now.below) (B.post self.now.below) }
        requires ready { Ready (W.world self.now.world.now) run.old.memory }
        ensures value { RunsInto (value_at (W.world self.now.world.now) self.now.levels (expression_of code.now) frame.old run.old.counter) result into.new run.new.counter }
        ensures frame { OnOk result (frame.new ≡ frame.old) }
        ensures ready { Ready (W.world self.now.world.now) run.new.memory }
    {
        let Some((first, rest)) = split(code) else {
            return nothing(&mut run.counter, into);
        };
        match first {
            Instruction::Unary(operator) => self.unary(rest, *operator, frame, run, into),
            _ => self.compound(code, frame, run, into),
        }
    }

    /// The same of every expression, with a frame in which also the operators and the qualifiers after a first part are taken.
    #[cycle(expressions)]
    #[inline(never)]
    fn compound(
        &self,
        code: &[Instruction],
        frame: &mut Frame,
        run: &mut Run<'_>,
        into: &mut Value,
    ) -> Result<(), Stop>
        requires below { RunsBodies W.world self.now.alloc self.now.world self.now.levels (B.pre self.now.below) (B.post self.now.below) }
        requires ready { Ready (W.world self.now.world.now) run.old.memory }
        ensures value { RunsInto (value_at (W.world self.now.world.now) self.now.levels (expression_of code.now) frame.old run.old.counter) result into.new run.new.counter }
        ensures frame { OnOk result (frame.new ≡ frame.old) }
        ensures ready { Ready (W.world self.now.world.now) run.new.memory }
    {
        let Some((first, rest)) = split(code) else {
            return nothing(&mut run.counter, into);
        };
        match first {
            Instruction::Literal(value) => known(value, &mut run.counter, into),
            Instruction::Itself => known(frame.itself(), &mut run.counter, into),
            Instruction::Variable(slot) => variable(frame, *slot, &mut run.counter, into),
            Instruction::Attribute(attribute) => { self.own_attribute(attribute, frame, run, into) }
            Instruction::Constant(number) => self.constant(*number, run, into),
            Instruction::Population(entity) => self
                .lookup()
                .extent(*entity, &mut run.counter, into),
            Instruction::Call(number) => self.called(rest, *number, frame, run, into),
            Instruction::BuiltIn(function) => self.built_in(rest, *function, frame, run, into),
            Instruction::Initializer => self.initializer(rest, frame, run, into),
            Instruction::UsedIn(role) => self.used_in(rest, role, frame, run, into),
            Instruction::Unary(operator) => self.unary(rest, *operator, frame, run, into),
            Instruction::Interval {
                low_operator,
                item,
                high_operator,
                high,
            } => {
                let ends = IntervalEnds {
                    low_operator: *low_operator,
                    item: behind(rest, *item),
                    high_operator: *high_operator,
                    high: behind(rest, *high),
                };
                self.interval(rest, &ends, frame, run, into)
            }
            Instruction::Query(condition) => {
                self.query(rest, behind(rest, *condition), frame, run, into)
            }
            Instruction::QualifiedVariable(slot) => {
                variable(frame, *slot, &mut run.counter, into)?;
                self.qualifiers(rest, frame, run, into)
            }
            Instruction::QualifiedItself => {
                known(frame.itself(), &mut run.counter, into)?;
                self.qualifiers(rest, frame, run, into)
            }
            Instruction::QualifiedAttribute(attribute) => {
                self.own_attribute(attribute, frame, run, into)?;
                self.qualifiers(rest, frame, run, into)
            }
            Instruction::Qualified(qualifiers) => {
                self.expression(rest, frame, run, into)?;
                self.qualifiers(behind(rest, *qualifiers), frame, run, into)
            }
            Instruction::Chain(operations) => {
                self.expression(rest, frame, run, into)?;
                self.operations(behind(rest, *operations), frame, run, into)
            }
            _ => nothing(&mut run.counter, into),
        }
    }

    /// The values of those in a list, after those that are there.
    #[cycle(expressions)]
    fn expressions(
        &self,
        list: &[Instruction],
        frame: &mut Frame,
        run: &mut Run<'_>,
        values: &mut Items<Value>,
    ) -> Result<(), Stop>
        requires below { RunsBodies W.world self.now.alloc self.now.world self.now.levels (B.pre self.now.below) (B.post self.now.below) }
        requires ready { Ready (W.world self.now.world.now) run.old.memory }
        ensures value { RunsInto (spec.each_after frame.old values.old (map (value_at (W.world self.now.world.now) self.now.levels) (expressions_of list.now)) run.old.counter) result values.new run.new.counter }
        ensures frame { OnOk result (frame.new ≡ frame.old) }
        ensures ready { Ready (W.world self.now.world.now) run.new.memory }
    {
        let mut list = list;
        while let Some((item, others)) = first_item(list) {
            let mut value = Value::Indet;
            self.expression(item, frame, run, &mut value)?;
            values.push(value)?;
            list = others;
        }
        Ok(())
    }

    /// A function with its arguments, for a step.
    #[cycle(expressions)]
    #[inline(never)]
    fn called(
        &self,
        arguments: &[Instruction],
        number: usize,
        frame: &mut Frame,
        run: &mut Run<'_>,
        into: &mut Value,
    ) -> Result<(), Stop>
        requires below { RunsBodies W.world self.now.alloc self.now.world self.now.levels (B.pre self.now.below) (B.post self.now.below) }
        requires ready { Ready (W.world self.now.world.now) run.old.memory }
        ensures value { RunsInto (charged 1 (followed (spec.each_after frame.old [] (map (value_at (W.world self.now.world.now) self.now.levels) (expressions_of arguments.now))) (callings.function (bodies_at (W.world self.now.world.now) self.now.levels) number)) run.old.counter) result into.new run.new.counter }
        ensures frame { OnOk result (frame.new ≡ frame.old) }
        ensures ready { Ready (W.world self.now.world.now) run.new.memory }
    {
        charge(&mut run.counter, 1)?;
        let mut values = Items::new(self.alloc);
        self.expressions(arguments, frame, run, &mut values)?;
        self.function_below(number, values, run, into)
    }

    /// An initialiser, for a step.
    #[cycle(expressions)]
    #[inline(never)]
    fn initializer(
        &self,
        elements: &[Instruction],
        frame: &mut Frame,
        run: &mut Run<'_>,
        into: &mut Value,
    ) -> Result<(), Stop>
        requires below { RunsBodies W.world self.now.alloc self.now.world self.now.levels (B.pre self.now.below) (B.post self.now.below) }
        requires ready { Ready (W.world self.now.world.now) run.old.memory }
        ensures value { RunsInto (charged 1 (followed (spec.each_after frame.old [] (map (value_at (W.world self.now.world.now) self.now.levels) (expressions_of elements.now))) callings.initialized) run.old.counter) result into.new run.new.counter }
        ensures frame { OnOk result (frame.new ≡ frame.old) }
        ensures ready { Ready (W.world self.now.world.now) run.new.memory }
    {
        charge(&mut run.counter, 1)?;
        let mut values = Items::new(self.alloc);
        self.expressions(elements, frame, run, &mut values)?;
        self.lookup().initialized(values, &mut run.counter, into)
    }

    /// A function of the language, for a step. One argument and two are put in no list.
    #[cycle(expressions)]
    #[inline(never)]
    fn built_in(
        &self,
        arguments: &[Instruction],
        function: BuiltInFunction,
        frame: &mut Frame,
        run: &mut Run<'_>,
        into: &mut Value,
    ) -> Result<(), Stop>
        requires below { RunsBodies W.world self.now.alloc self.now.world self.now.levels (B.pre self.now.below) (B.post self.now.below) }
        requires ready { Ready (W.world self.now.world.now) run.old.memory }
        ensures value { RunsInto (charged 1 (followed (spec.each_after frame.old [] (map (value_at (W.world self.now.world.now) self.now.levels) (expressions_of arguments.now))) (spec.built_in (W.world self.now.world.now) (bodies_at (W.world self.now.world.now) self.now.levels) function)) run.old.counter) result into.new run.new.counter }
        ensures frame { OnOk result (frame.new ≡ frame.old) }
        ensures ready { Ready (W.world self.now.world.now) run.new.memory }
    {
        charge(&mut run.counter, 1)?;
        match counted(arguments) {
            Arguments::One(value) => {
                self.expression(value, frame, run, into)?;
                self.lookup().of_one(function, &mut run.counter, into)
            }
            Arguments::Two(first, second) => {
                self.expression(first, frame, run, into)?;
                let mut value = Value::Indet;
                self.expression(second, frame, run, &mut value)?;
                self.lookup()
                    .of_two(function, &value, &mut run.counter, into)
            }
            Arguments::Several => {
                let mut values = Items::new(self.alloc);
                self.expressions(arguments, frame, run, &mut values)?;
                self.lookup()
                    .of_values(function, values.as_slice(), &mut run.counter, into)
            }
        }
    }

    /// The users of an instance in a role.
    #[cycle(expressions)]
    #[inline(never)]
    fn used_in(
        &self,
        instance: &[Instruction],
        role: &Option<Boxed<Role>>,
        frame: &mut Frame,
        run: &mut Run<'_>,
        into: &mut Value,
    ) -> Result<(), Stop>
        requires below { RunsBodies W.world self.now.alloc self.now.world self.now.levels (B.pre self.now.below) (B.post self.now.below) }
        requires ready { Ready (W.world self.now.world.now) run.old.memory }
        ensures value { RunsInto (charged 2 (followed (value_at (W.world self.now.world.now) self.now.levels (expression_of instance.now) frame.old) (λ a. spec.used_in_role (W.world self.now.world.now) (bodies_at (W.world self.now.world.now) self.now.levels) role.now (place_of a))) run.old.counter) result into.new run.new.counter }
        ensures frame { OnOk result (frame.new ≡ frame.old) }
        ensures ready { Ready (W.world self.now.world.now) run.new.memory }
    {
        charge(&mut run.counter, 2)?;
        self.expression(instance, frame, run, into)?;
        self.lookup()
            .used_in_role(unboxed(role), place_of(into), &mut run.counter, into)
    }

    /// A sign or NOT before an operand.
    #[cycle(expressions)]
    #[inline(never)]
    fn unary(
        &self,
        right: &[Instruction],
        operator: UnaryOperator,
        frame: &mut Frame,
        run: &mut Run<'_>,
        into: &mut Value,
    ) -> Result<(), Stop>
        requires below { RunsBodies W.world self.now.alloc self.now.world self.now.levels (B.pre self.now.below) (B.post self.now.below) }
        requires ready { Ready (W.world self.now.world.now) run.old.memory }
        ensures value { RunsInto (charged 1 (followed (value_at (W.world self.now.world.now) self.now.levels (expression_of right.now) frame.old) (λ a. pure (operators.applied_to operator a))) run.old.counter) result into.new run.new.counter }
        ensures frame { OnOk result (frame.new ≡ frame.old) }
        ensures ready { Ready (W.world self.now.world.now) run.new.memory }
    {
        charge(&mut run.counter, 1)?;
        self.expression(right, frame, run, into)?;
        sign(operator, into);
        Ok(())
    }

    /// Operators of one level, from left to right. A literal or a variable on the right is not copied.
    #[cycle(expressions)]
    #[inline(always)]
    fn operations(
        &self,
        list: &[Instruction],
        frame: &mut Frame,
        run: &mut Run<'_>,
        into: &mut Value,
    ) -> Result<(), Stop>
        requires below { RunsBodies W.world self.now.alloc self.now.world self.now.levels (B.pre self.now.below) (B.post self.now.below) }
        requires ready { Ready (W.world self.now.world.now) run.old.memory }
        ensures value { RunsInto (spec.in_turn frame.old (map (operation_at (W.world self.now.world.now) self.now.levels) (operations_of list.now)) into.old run.old.counter) result into.new run.new.counter }
        ensures frame { OnOk result (frame.new ≡ frame.old) }
        ensures ready { Ready (W.world self.now.world.now) run.new.memory }
    {
        let mut list = list;
        while let Some((first, rest)) = split(list) {
            match first {
                Instruction::OperationBy(operator, right) => {
                    self.lookup()
                        .operation_by(*operator, right, &mut run.counter, into)?;
                    list = rest;
                }
                Instruction::OperationByVariable(operator, slot) => {
                    self.lookup()
                        .operation_by_variable(*operator, *slot, frame, &mut run.counter, into)?;
                    list = rest;
                }
                Instruction::Operation(operator, next) => {
                    self.operation(rest, *operator, frame, run, into)?;
                    list = behind(rest, *next);
                }
                _ => return Ok(()),
            }
        }
        Ok(())
    }

    /// An operator and its right operand.
    #[cycle(expressions)]
    #[inline(always)]
    fn operation(
        &self,
        right: &[Instruction],
        operator: BinaryOperator,
        frame: &mut Frame,
        run: &mut Run<'_>,
        into: &mut Value,
    ) -> Result<(), Stop>
        requires below { RunsBodies W.world self.now.alloc self.now.world self.now.levels (B.pre self.now.below) (B.post self.now.below) }
        requires ready { Ready (W.world self.now.world.now) run.old.memory }
        ensures value { RunsInto (operation_at (W.world self.now.world.now) self.now.levels (roll-Operation (record { operator = operator; right = expression_of right.now })) frame.old into.old run.old.counter) result into.new run.new.counter }
        ensures frame { OnOk result (frame.new ≡ frame.old) }
        ensures ready { Ready (W.world self.now.world.now) run.new.memory }
    {
        charge(&mut run.counter, 1)?;
        let mut value = Value::Indet;
        self.expression(right, frame, run, &mut value)?;
        self.lookup()
            .operate(operator, &value, &mut run.counter, into)
    }

    /// Qualifiers from left to right.
    #[cycle(expressions)]
    #[inline(always)]
    fn qualifiers(
        &self,
        list: &[Instruction],
        frame: &mut Frame,
        run: &mut Run<'_>,
        into: &mut Value,
    ) -> Result<(), Stop>
        requires below { RunsBodies W.world self.now.alloc self.now.world self.now.levels (B.pre self.now.below) (B.post self.now.below) }
        requires ready { Ready (W.world self.now.world.now) run.old.memory }
        ensures value { RunsInto (spec.in_turn frame.old (map (qualifier_at (W.world self.now.world.now) self.now.levels) (qualifiers_of list.now)) into.old run.old.counter) result into.new run.new.counter }
        ensures frame { OnOk result (frame.new ≡ frame.old) }
        ensures ready { Ready (W.world self.now.world.now) run.new.memory }
    {
        let mut list = list;
        while let Some((first, rest)) = split(list) {
            match first {
                Instruction::OfAttribute(attributes) => {
                    self.of_attribute(attributes, run, into)?;
                    list = rest;
                }
                Instruction::Group(entity) => {
                    self.grouped(*entity, &mut run.counter, into)?;
                    list = rest;
                }
                Instruction::Index(next) => {
                    self.indexed(rest, frame, run, into)?;
                    list = behind(rest, *next);
                }
                Instruction::Range { last, next } => {
                    self.ranged(rest, behind(rest, *last), frame, run, into)?;
                    list = behind(rest, *next);
                }
                _ => return Ok(()),
            }
        }
        Ok(())
    }

    /// An attribute of the instance that is there, for a step.
    fn of_attribute(
        &self,
        attributes: &Items<AttributePlace>,
        run: &mut Run<'_>,
        into: &mut Value,
    ) -> Result<(), Stop>
        requires below { RunsBodies W.world self.now.alloc self.now.world self.now.levels (B.pre self.now.below) (B.post self.now.below) }
        requires ready { Ready (W.world self.now.world.now) run.old.memory }
        ensures value { RunsInto (charged 1 (spec.attribute (W.world self.now.world.now) (bodies_at (W.world self.now.world.now) self.now.levels) attributes.now into.old) run.old.counter) result into.new run.new.counter }
        ensures ready { Ready (W.world self.now.world.now) run.new.memory }
    {
        charge(&mut run.counter, 1)?;
        self.attribute_in(attributes.as_slice(), place_of(into), run, into)
    }

    /// The instance that is there, if it is of the entity, for a step.
    fn grouped(&self, entity: usize, counter: &mut Counter, into: &mut Value) -> Result<(), Stop>
        ensures { RunsInto (charged 1 (pure (spec.group (W.world self.now.world.now) (bodies_at (W.world self.now.world.now) self.now.levels) entity into.old)) counter.old) result into.new counter.new }
    {
        charge(counter, 1)?;
        self.lookup().group(entity, into);
        Ok(())
    }

    /// The element or the character at an index of the value that is there.
    #[cycle(expressions)]
    #[inline(never)]
    fn indexed(
        &self,
        at: &[Instruction],
        frame: &mut Frame,
        run: &mut Run<'_>,
        into: &mut Value,
    ) -> Result<(), Stop>
        requires below { RunsBodies W.world self.now.alloc self.now.world self.now.levels (B.pre self.now.below) (B.post self.now.below) }
        requires ready { Ready (W.world self.now.world.now) run.old.memory }
        ensures value { RunsInto (charged 1 (followed (value_at (W.world self.now.world.now) self.now.levels (expression_of at.now) frame.old) (λ place. pure (built_ins.index into.old place))) run.old.counter) result into.new run.new.counter }
        ensures frame { OnOk result (frame.new ≡ frame.old) }
        ensures ready { Ready (W.world self.now.world.now) run.new.memory }
    {
        charge(&mut run.counter, 1)?;
        let mut place = Value::Indet;
        self.expression(at, frame, run, &mut place)?;
        *into = index(self.alloc, into, &place)?;
        Ok(())
    }

    /// The characters from an index to another of the value that is there.
    #[cycle(expressions)]
    #[inline(never)]
    fn ranged(
        &self,
        first: &[Instruction],
        last: &[Instruction],
        frame: &mut Frame,
        run: &mut Run<'_>,
        into: &mut Value,
    ) -> Result<(), Stop>
        requires below { RunsBodies W.world self.now.alloc self.now.world self.now.levels (B.pre self.now.below) (B.post self.now.below) }
        requires ready { Ready (W.world self.now.world.now) run.old.memory }
        ensures value { RunsInto (charged 1 (followed (value_at (W.world self.now.world.now) self.now.levels (expression_of first.now) frame.old) (λ low. followed (value_at (W.world self.now.world.now) self.now.levels (expression_of last.now) frame.old) (λ high. pure (built_ins.range into.old low high)))) run.old.counter) result into.new run.new.counter }
        ensures frame { OnOk result (frame.new ≡ frame.old) }
        ensures ready { Ready (W.world self.now.world.now) run.new.memory }
    {
        charge(&mut run.counter, 1)?;
        let mut low = Value::Indet;
        self.expression(first, frame, run, &mut low)?;
        let mut high = Value::Indet;
        self.expression(last, frame, run, &mut high)?;
        *into = range(self.alloc, into, &low, &high)?;
        Ok(())
    }

    /// An interval, for a step.
    #[cycle(expressions)]
    #[inline(never)]
    fn interval(
        &self,
        low: &[Instruction],
        ends: &IntervalEnds<'_>,
        frame: &mut Frame,
        run: &mut Run<'_>,
        into: &mut Value,
    ) -> Result<(), Stop>
        requires below { RunsBodies W.world self.now.alloc self.now.world self.now.levels (B.pre self.now.below) (B.post self.now.below) }
        requires ready { Ready (W.world self.now.world.now) run.old.memory }
        ensures value { RunsInto (charged 1 (interval_at (W.world self.now.world.now) self.now.levels (interval_of (expression_of low.now) ends.now) frame.old) run.old.counter) result into.new run.new.counter }
        ensures frame { OnOk result (frame.new ≡ frame.old) }
        ensures ready { Ready (W.world self.now.world.now) run.new.memory }
    {
        charge(&mut run.counter, 1)?;
        self.expression(low, frame, run, into)?;
        let mut item = Value::Indet;
        self.expression(ends.item, frame, run, &mut item)?;
        let mut high = Value::Indet;
        self.expression(ends.high, frame, run, &mut high)?;
        self.bounded(ends, &item, &high, &mut run.counter, into)
    }

    /// A QUERY, for a step.
    #[cycle(expressions)]
    #[inline(never)]
    fn query(
        &self,
        source: &[Instruction],
        condition: &[Instruction],
        frame: &mut Frame,
        run: &mut Run<'_>,
        into: &mut Value,
    ) -> Result<(), Stop>
        requires below { RunsBodies W.world self.now.alloc self.now.world self.now.levels (B.pre self.now.below) (B.post self.now.below) }
        requires ready { Ready (W.world self.now.world.now) run.old.memory }
        ensures value { RunsInto (charged 1 (query_at (W.world self.now.world.now) self.now.levels (roll-Query (record { source = expression_of source.now; condition = expression_of condition.now })) frame.old) run.old.counter) result into.new run.new.counter }
        ensures frame { OnOk result (frame.new ≡ frame.old) }
        ensures ready { Ready (W.world self.now.world.now) run.new.memory }
    {
        charge(&mut run.counter, 1)?;
        self.expression(source, frame, run, into)?;
        let Some((kind, elements)) = aggregate_of(into) else {
            *into = Value::Indet;
            return Ok(());
        };
        let mut found = Items::new(self.alloc);
        self.kept(condition, elements.as_slice(), frame, run, &mut found)?;
        *into = Value::aggregate(self.alloc, kind, elements.low(), found)?;
        Ok(())
    }

    /// Whether the condition is TRUE for an element, for a step. Its value is written where there is room for it.
    #[cycle(expressions)]
    fn test(
        &self,
        condition: &[Instruction],
        element: &Value,
        frame: &mut Frame,
        run: &mut Run<'_>,
        room: &mut Value,
    ) -> Result<bool, Stop>
        requires below { RunsBodies W.world self.now.alloc self.now.world self.now.levels (B.pre self.now.below) (B.post self.now.below) }
        requires ready { Ready (W.world self.now.world.now) run.old.memory }
        ensures value { Runs (spec.tested (value_at (W.world self.now.world.now) self.now.levels (expression_of condition.now)) frame.old element.now run.old.counter) result run.new.counter }
        ensures frame { OnOk result (frame.new ≡ frame.old) }
        ensures ready { Ready (W.world self.now.world.now) run.new.memory }
    {
        charge(&mut run.counter, 1)?;
        frame.open(copied(element)?)?;
        self.expression(condition, frame, run, room)?;
        frame.close();
        Ok(is_true(room))
    }

    /// The elements for which the condition is TRUE, behind those that are there.
    #[cycle(expressions)]
    fn kept(
        &self,
        condition: &[Instruction],
        elements: &[Value],
        frame: &mut Frame,
        run: &mut Run<'_>,
        found: &mut Items<Value>,
    ) -> Result<(), Stop>
        requires below { RunsBodies W.world self.now.alloc self.now.world self.now.levels (B.pre self.now.below) (B.post self.now.below) }
        requires ready { Ready (W.world self.now.world.now) run.old.memory }
        ensures value { RunsInto (spec.kept_after (value_at (W.world self.now.world.now) self.now.levels (expression_of condition.now)) frame.old found.old elements.now run.old.counter) result found.new run.new.counter }
        ensures frame { OnOk result (frame.new ≡ frame.old) }
        ensures ready { Ready (W.world self.now.world.now) run.new.memory }
    {
        let mut room = Value::Indet;
        for element in elements {
            let holds = self.test(condition, element, frame, run, &mut room)?;
            keep(found, element, holds)?;
        }
        Ok(())
    }

    /// The value of an expression.
    pub(crate) fn value(
        &self,
        code: &[Instruction],
        frame: &mut Frame,
        run: &mut Run<'_>,
    ) -> Result<Value, Stop>
        requires below { RunsBodies W.world self.now.alloc self.now.world self.now.levels (B.pre self.now.below) (B.post self.now.below) }
        requires ready { Ready (W.world self.now.world.now) run.old.memory }
        ensures value { Runs (value_at (W.world self.now.world.now) self.now.levels (expression_of code.now) frame.old run.old.counter) result run.new.counter }
        ensures frame { OnOk result (frame.new ≡ frame.old) }
        ensures ready { Ready (W.world self.now.world.now) run.new.memory }
    {
        let mut value = Value::Indet;
        self.expression(code, frame, run, &mut value)?;
        Ok(value)
    }
}
