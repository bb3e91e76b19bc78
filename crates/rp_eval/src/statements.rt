//! Statements.

ghost use Rattle.std.specs.Prelude.{◌≡◌, List, [], ◌∷◌, true, false, map, slice_index_or, Some, OnOk};
ghost use Rattle.std.specs.Option.{option_map};
ghost use denote.Ref.{Bor};
ghost use Rattle.rp_meaning.specs.Statements as spec;
ghost use Rattle.rp_meaning.specs.Levels.{most_turns};
ghost use Rattle.rp_meaning.specs.Computations.{Runs, pure};
ghost use Rattle.rp_meaning.specs.Bare as bare;
ghost use Rattle.rp_meaning.specs.Operators as operators;
ghost use Rattle.rp_meaning.specs.Types.{given};
ghost use Rattle.rp_code.specs.Denoted as denoted;
ghost use Rattle.rp_code.specs.Denoted.{actions_of, expression_of, expressions_of, statement_of, statements_of};
ghost use Rattle.rp_code.specs.declared.instruction.Instruction.{Instruction};
ghost use Rattle.rp_code.specs.declared.tree.Expression.TheVariants as e;
ghost use Rattle.rp_code.specs.declared.tree.Operation.{roll-Operation};
ghost use Rattle.rp_eval_parts.specs.Charges.{followed};
ghost use Rattle.rp_eval_parts.specs.Serving.{Ready};
ghost use Rattle.rp_eval.specs.Bodies.{RunsBodies, bodies_at, value_at, action_at, labelled_at};
ghost use Rattle.rp_eval.specs.Endings.{Ends, Turns};
ghost use Rattle.rp_eval.specs.Beginnings.{begins};
ghost use Rattle.rp_eval.specs.Parts.{control_of, increment_of};
ghost use Rattle.rp_value.specs.declared.value.Value.TheVariants as v;

use crate::items::{first_item, split};
use crate::run::Run;
use crate::walk::Walk;
use ex_named::NamedDataType;
use ex_tree::BinaryOperator;
use rp_code::{Instruction, behind};
use rp_eval_parts::{Frame, Running, Setting, advanced, begun, charge, charge_operator, start};
use rp_meaning::{Body, Stop};
use rp_operators::{applied, applied_in_place, given, is_true};
use rp_value::Value;
use std::alloc::{AllocError, Global};

/// How statements end.
#[derive(Clone, Copy)]
pub(crate) enum Ending {
    /// The next one follows.
    Next,
    Skipped,
    Escaped,
    /// The value is where there is room for it.
    Returned,
}

/// How a turn of a REPEAT ends.
#[derive(Clone, Copy)]
enum Turning {
    /// Another may follow.
    Again,
    /// The REPEAT ends so.
    Over(Ending),
}

/// The slot of a variable, and the type with which it is declared.
#[derive(Clone, Copy)]
struct Target<'c> {
    slot: usize,
    data_type: &'c NamedDataType,
}

/// The parts of an increment: the codes of its first and its last value, and of its step.
#[derive(Clone, Copy)]
struct IncrementParts<'c> {
    first: &'c [Instruction],
    last: &'c [Instruction],
    step: Option<&'c [Instruction]>,
}

/// The parts of a REPEAT: the lists with its increment and its conditions, and that of its statements.
#[derive(Clone, Copy)]
struct RepeatParts<'c> {
    increment: &'c [Instruction],
    while_condition: &'c [Instruction],
    until_condition: &'c [Instruction],
    body: &'c [Instruction],
}

/// The parts of the increment in a list of two expressions or three.
fn increment_in(list: &[Instruction]) -> Option<IncrementParts<'_>>
    ensures { option_map increment_of result ≡ denoted.increment (expressions_of list.now) }
{
    let (first, others) = first_item(list)?;
    let (last, others) = first_item(others)?;
    let step = match first_item(others) {
        Some((step, _)) => Some(step),
        None => None,
    };
    Some(IncrementParts { first, last, step })
}

impl<'a, W: Setting, B: Fn(Global, &W, u8, &mut Run<'_>, Body) -> Result<Value, Stop>> Walk<
    'a,
    W,
    B,
> {
    /// One after the other. The place of the value that is returned serves for other values until then.
    #[cycle(statements)]
    #[inline(never)]
    pub(crate) fn statements(
        &self,
        list: &[Instruction],
        frame: &mut Frame,
        run: &mut Run<'_>,
        into: &mut Value,
    ) -> Result<Ending, Stop>
        requires below { RunsBodies W.world self.now.alloc self.now.world self.now.levels (B.pre self.now.below) (B.post self.now.below) }
        requires ready { Ready (W.world self.now.world.now) run.old.memory }
        ensures value { Ends (action_at (W.world self.now.world.now) self.now.levels (statements_of list.now) frame.old run.old.counter) result into.new frame.new run.new.counter }
        ensures ready { Ready (W.world self.now.world.now) run.new.memory }
    {
        let mut others = list;
        while let Some((item, next)) = first_item(others) {
            match self.statement(item, frame, run, into)? {
                Ending::Next => others = next,
                ending => return Ok(ending),
            }
        }
        Ok(Ending::Next)
    }

    /// The statement that begins there, for a step.
    #[cycle(statements)]
    #[inline(always)]
    fn statement(
        &self,
        code: &[Instruction],
        frame: &mut Frame,
        run: &mut Run<'_>,
        into: &mut Value,
    ) -> Result<Ending, Stop>
        requires below { RunsBodies W.world self.now.alloc self.now.world self.now.levels (B.pre self.now.below) (B.post self.now.below) }
        requires ready { Ready (W.world self.now.world.now) run.old.memory }
        ensures value { Ends (spec.statement (W.world self.now.world.now) most_turns (bodies_at (W.world self.now.world.now) self.now.levels) (statement_of code.now) frame.old run.old.counter) result into.new frame.new run.new.counter }
        ensures ready { Ready (W.world self.now.world.now) run.new.memory }
    {
        charge(&mut run.counter, 1)?;
        let Some((first, rest)) = split(code) else {
            return Ok(Ending::Next);
        };
        match first {
            Instruction::Assignment(slot, data_type) => {
                let target = Target {
                    slot: *slot,
                    data_type: data_type.get(),
                };
                self.assignment(rest, target, frame, run)
            }
            Instruction::Growth(slot, operator, data_type) => {
                let target = Target {
                    slot: *slot,
                    data_type: data_type.get(),
                };
                self.growth(rest, *operator, target, frame, run)
            }
            Instruction::Case(actions) => {
                self.case(behind(rest, *actions), rest, frame, run, into)
            }
            Instruction::Compound => self.statements(rest, frame, run, into),
            Instruction::If {
                then_part,
                else_part,
            } => {
                self.expression(rest, frame, run, into)?;
                if is_true(into) {
                    self.statements(behind(rest, *then_part), frame, run, into)
                } else {
                    self.statements(behind(rest, *else_part), frame, run, into)
                }
            }
            Instruction::Repeat {
                while_condition,
                until_condition,
                body,
            } => {
                let parts = RepeatParts {
                    increment: rest,
                    while_condition: behind(rest, *while_condition),
                    until_condition: behind(rest, *until_condition),
                    body: behind(rest, *body),
                };
                self.repeat(&parts, frame, run, into)
            }
            Instruction::Return => {
                self.expression(rest, frame, run, into)?;
                Ok(Ending::Returned)
            }
            Instruction::Escape => Ok(Ending::Escaped),
            Instruction::Skip => Ok(Ending::Skipped),
            _ => Ok(Ending::Next),
        }
    }

    /// What an operator gives of a variable and of a right operand, with the steps of all. The variable has no value then, so that
    /// an aggregate that nobody else has grows in place.
    #[tactic(auto, using(crate::proofs::Growth::grown_is))]
    fn grown(
        &self,
        right: &[Instruction],
        slot: usize,
        operator: BinaryOperator,
        frame: &mut Frame,
        run: &mut Run<'_>,
    ) -> Result<Value, Stop>
        requires below { RunsBodies W.world self.now.alloc self.now.world self.now.levels (B.pre self.now.below) (B.post self.now.below) }
        requires ready { Ready (W.world self.now.world.now) run.old.memory }
        ensures value { Runs (value_at (W.world self.now.world.now) self.now.levels (e.Chain (e.Variable slot) (roll-Operation (record { operator = operator; right = expression_of right.now }) ∷ [])) frame.old run.old.counter) result run.new.counter }
        ensures frame { OnOk result (frame.new ≡ spec.assigned frame.old slot v.Indet) }
        ensures ready { Ready (W.world self.now.world.now) run.new.memory }
    {
        charge(&mut run.counter, 1)?;
        charge(&mut run.counter, 1)?;
        let right = self.value(right, frame, run)?;
        let left = frame.variable(slot)?;
        charge_operator(&mut run.counter, operator, &left, &right)?;
        frame.assign(slot, Value::Indet);
        Ok(applied_in_place(self.alloc, operator, left, &right)?)
    }

    /// Gives a variable a value by its type.
    fn assign(&self, target: Target<'_>, value: &Value, frame: &mut Frame) -> Result<(), AllocError>
        ensures { OnOk result (frame.new ≡ spec.assigned frame.old target.entry.slot (given (W.world self.now.world.now).schema.types target.entry.data_type.now value.now)) }
    {
        let types = self.world.schema().types.as_slice();
        let value = given(self.alloc, types, target.data_type, value)?;
        frame.assign(target.slot, value);
        Ok(())
    }

    /// What an assignment of a variable to which an operator is applied does after its step.
    #[inline(never)]
    #[tactic(auto, using(crate::proofs::Growth::assigned_twice))]
    fn growth(
        &self,
        right: &[Instruction],
        operator: BinaryOperator,
        target: Target<'_>,
        frame: &mut Frame,
        run: &mut Run<'_>,
    ) -> Result<Ending, Stop>
        requires below { RunsBodies W.world self.now.alloc self.now.world self.now.levels (B.pre self.now.below) (B.post self.now.below) }
        requires ready { Ready (W.world self.now.world.now) run.old.memory }
        ensures value { (x : _) → Ends ((followed (value_at (W.world self.now.world.now) self.now.levels (e.Chain (e.Variable target.entry.slot) (roll-Operation (record { operator = operator; right = expression_of right.now }) ∷ [])) frame.old) (λ a. pure (spec.Next (spec.assigned frame.old target.entry.slot (given (W.world self.now.world.now).schema.types target.entry.data_type.now a))))) run.old.counter) result x frame.new run.new.counter }
        ensures ready { Ready (W.world self.now.world.now) run.new.memory }
    {
        let value = self.grown(right, target.slot, operator, frame, run)?;
        self.assign(target, &value, frame)?;
        Ok(Ending::Next)
    }

    /// What an assignment does after its step.
    #[inline(never)]
    fn assignment(
        &self,
        value: &[Instruction],
        target: Target<'_>,
        frame: &mut Frame,
        run: &mut Run<'_>,
    ) -> Result<Ending, Stop>
        requires below { RunsBodies W.world self.now.alloc self.now.world self.now.levels (B.pre self.now.below) (B.post self.now.below) }
        requires ready { Ready (W.world self.now.world.now) run.old.memory }
        ensures value { (x : _) → Ends ((followed (value_at (W.world self.now.world.now) self.now.levels (expression_of value.now) frame.old) (λ a. pure (spec.Next (spec.assigned frame.old target.entry.slot (given (W.world self.now.world.now).schema.types target.entry.data_type.now a))))) run.old.counter) result x frame.new run.new.counter }
        ensures ready { Ready (W.world self.now.world.now) run.new.memory }
    {
        let value = self.value(value, frame, run)?;
        self.assign(target, &value, frame)?;
        Ok(Ending::Next)
    }

    /// Whether the condition in a list holds; of none the answer is given.
    fn asked(
        &self,
        none: bool,
        condition: &[Instruction],
        frame: &mut Frame,
        run: &mut Run<'_>,
    ) -> Result<bool, Stop>
        requires below { RunsBodies W.world self.now.alloc self.now.world self.now.levels (B.pre self.now.below) (B.post self.now.below) }
        requires ready { Ready (W.world self.now.world.now) run.old.memory }
        ensures value { Runs (spec.asked (value_at (W.world self.now.world.now) self.now.levels) none (denoted.condition (expressions_of condition.now)) frame.old run.old.counter) result run.new.counter }
        ensures frame { OnOk result (frame.new ≡ frame.old) }
        ensures ready { Ready (W.world self.now.world.now) run.new.memory }
    {
        match first_item(condition) {
            None => Ok(none),
            Some((condition, _)) => {
                let value = self.value(condition, frame, run)?;
                Ok(is_true(&value))
            }
        }
    }

    /// The step of an increment.
    fn step_value(
        &self,
        step: Option<&[Instruction]>,
        frame: &mut Frame,
        run: &mut Run<'_>,
    ) -> Result<Value, Stop>
        requires below { RunsBodies W.world self.now.alloc self.now.world self.now.levels (B.pre self.now.below) (B.post self.now.below) }
        requires ready { Ready (W.world self.now.world.now) run.old.memory }
        ensures value { Runs (spec.step_value (value_at (W.world self.now.world.now) self.now.levels) (option_map (λ (code : Bor (List Instruction)). expression_of code.now) step.entry) frame.old run.old.counter) result run.new.counter }
        ensures frame { OnOk result (frame.new ≡ frame.old) }
        ensures ready { Ready (W.world self.now.world.now) run.new.memory }
    {
        match step {
            None => Ok(Value::Int(1)),
            Some(code) => self.value(code, frame, run),
        }
    }

    /// Whether a label is equal.
    fn is_equal(
        &self,
        selector: &Value,
        label: &[Instruction],
        frame: &mut Frame,
        run: &mut Run<'_>,
    ) -> Result<bool, Stop>
        requires below { RunsBodies W.world self.now.alloc self.now.world self.now.levels (B.pre self.now.below) (B.post self.now.below) }
        requires ready { Ready (W.world self.now.world.now) run.old.memory }
        ensures value { Runs ((followed (value_at (W.world self.now.world.now) self.now.levels (expression_of label.now) frame.old) (λ b. pure (bare.is_true (operators.equal selector.now b)))) run.old.counter) result run.new.counter }
        ensures frame { OnOk result (frame.new ≡ frame.old) }
        ensures ready { Ready (W.world self.now.world.now) run.new.memory }
    {
        let value = self.value(label, frame, run)?;
        let equal = applied(self.alloc, BinaryOperator::Equal, selector, &value)?;
        Ok(is_true(&equal))
    }

    /// Whether one of the labels is equal.
    fn any_equal(
        &self,
        selector: &Value,
        labels: &[Instruction],
        frame: &mut Frame,
        run: &mut Run<'_>,
    ) -> Result<bool, Stop>
        requires below { RunsBodies W.world self.now.alloc self.now.world self.now.levels (B.pre self.now.below) (B.post self.now.below) }
        requires ready { Ready (W.world self.now.world.now) run.old.memory }
        ensures value { Runs (spec.any_equal (value_at (W.world self.now.world.now) self.now.levels) selector.now (expressions_of labels.now) frame.old run.old.counter) result run.new.counter }
        ensures frame { OnOk result (frame.new ≡ frame.old) }
        ensures ready { Ready (W.world self.now.world.now) run.new.memory }
    {
        let mut others = labels;
        while let Some((label, next)) = first_item(others) {
            if self.is_equal(selector, label, frame, run)? {
                return Ok(true);
            }
            others = next;
        }
        Ok(false)
    }

    /// A CASE after its step.
    #[cycle(statements)]
    #[inline(never)]
    fn case(
        &self,
        actions: &[Instruction],
        selector: &[Instruction],
        frame: &mut Frame,
        run: &mut Run<'_>,
        into: &mut Value,
    ) -> Result<Ending, Stop>
        requires below { RunsBodies W.world self.now.alloc self.now.world self.now.levels (B.pre self.now.below) (B.post self.now.below) }
        requires ready { Ready (W.world self.now.world.now) run.old.memory }
        ensures value { Ends (followed (value_at (W.world self.now.world.now) self.now.levels (expression_of selector.now) frame.old) (λ a. spec.matched (value_at (W.world self.now.world.now) self.now.levels) a (map (labelled_at (W.world self.now.world.now) self.now.levels) (actions_of actions.now)) frame.old) run.old.counter) result into.new frame.new run.new.counter }
        ensures ready { Ready (W.world self.now.world.now) run.new.memory }
    {
        let selector = self.value(selector, frame, run)?;
        self.matched(actions, &selector, frame, run, into)
    }

    /// The first action of which a label is equal.
    #[cycle(statements)]
    #[inline(never)]
    fn matched(
        &self,
        actions: &[Instruction],
        selector: &Value,
        frame: &mut Frame,
        run: &mut Run<'_>,
        into: &mut Value,
    ) -> Result<Ending, Stop>
        requires below { RunsBodies W.world self.now.alloc self.now.world self.now.levels (B.pre self.now.below) (B.post self.now.below) }
        requires ready { Ready (W.world self.now.world.now) run.old.memory }
        ensures value { Ends (spec.matched (value_at (W.world self.now.world.now) self.now.levels) selector.now (map (labelled_at (W.world self.now.world.now) self.now.levels) (actions_of actions.now)) frame.old run.old.counter) result into.new frame.new run.new.counter }
        ensures ready { Ready (W.world self.now.world.now) run.new.memory }
    {
        let mut others = actions;
        while let Some((first, rest)) = split(others) {
            match first {
                Instruction::Labels { statement, next } => {
                    if self.any_equal(selector, rest, frame, run)? {
                        return self.statement(behind(rest, *statement), frame, run, into);
                    }
                    others = behind(rest, *next);
                }
                Instruction::Otherwise(_) => return self.statement(rest, frame, run, into),
                _ => return Ok(Ending::Next),
            }
        }
        Ok(Ending::Next)
    }

    /// Whether another turn follows one that came to its end.
    #[inline(always)]
    fn until(
        &self,
        parts: &RepeatParts<'_>,
        frame: &mut Frame,
        run: &mut Run<'_>,
    ) -> Result<Turning, Stop>
        requires below { RunsBodies W.world self.now.alloc self.now.world self.now.levels (B.pre self.now.below) (B.post self.now.below) }
        requires ready { Ready (W.world self.now.world.now) run.old.memory }
        ensures value { (x : _) → Turns (spec.turned (spec.asked (value_at (W.world self.now.world.now) self.now.levels) false (control_of parts.now).until_condition) (spec.Next frame.old) run.old.counter) result x frame.new run.new.counter }
        ensures ready { Ready (W.world self.now.world.now) run.new.memory }
    {
        if self.asked(false, parts.until_condition, frame, run)? {
            Ok(Turning::Over(Ending::Next))
        } else {
            Ok(Turning::Again)
        }
    }

    /// A turn of a REPEAT.
    #[cycle(statements)]
    #[inline(always)]
    fn turn(
        &self,
        parts: &RepeatParts<'_>,
        frame: &mut Frame,
        run: &mut Run<'_>,
        into: &mut Value,
    ) -> Result<Turning, Stop>
        requires below { RunsBodies W.world self.now.alloc self.now.world self.now.levels (B.pre self.now.below) (B.post self.now.below) }
        requires ready { Ready (W.world self.now.world.now) run.old.memory }
        ensures value { Turns (spec.turn (value_at (W.world self.now.world.now) self.now.levels) (control_of parts.now) (action_at (W.world self.now.world.now) self.now.levels (statements_of parts.now.body.now)) frame.old run.old.counter) result into.new frame.new run.new.counter }
        ensures ready { Ready (W.world self.now.world.now) run.new.memory }
    {
        if !self.asked(true, parts.while_condition, frame, run)? {
            return Ok(Turning::Over(Ending::Next));
        }
        match self.statements(parts.body, frame, run, into)? {
            Ending::Next | Ending::Skipped => self.until(parts, frame, run),
            Ending::Escaped => Ok(Turning::Over(Ending::Next)),
            Ending::Returned => Ok(Turning::Over(Ending::Returned)),
        }
    }

    /// Turns, as many as there are.
    #[cycle(statements)]
    #[inline(always)]
    fn turns(
        &self,
        parts: &RepeatParts<'_>,
        running: Option<Running>,
        frame: &mut Frame,
        run: &mut Run<'_>,
        into: &mut Value,
    ) -> Result<Ending, Stop>
        requires below { RunsBodies W.world self.now.alloc self.now.world self.now.levels (B.pre self.now.below) (B.post self.now.below) }
        requires ready { Ready (W.world self.now.world.now) run.old.memory }
        ensures value { Ends (spec.repeated most_turns (spec.turn (value_at (W.world self.now.world.now) self.now.levels) (control_of parts.now) (action_at (W.world self.now.world.now) self.now.levels (statements_of parts.now.body.now))) running frame.old run.old.counter) result into.new frame.new run.new.counter }
        ensures ready { Ready (W.world self.now.world.now) run.new.memory }
    {
        let mut running = running;
        for _turn in 0..usize::MAX {
            if !start(&running, frame) {
                return Ok(Ending::Next);
            }
            match self.turn(parts, frame, run, into)? {
                Turning::Again => running = advanced(running),
                Turning::Over(ending) => return Ok(ending),
            }
        }
        Err(Stop::Limit)
    }

    /// The turns for which a variable is open.
    #[cycle(statements)]
    #[inline(always)]
    fn with_variable(
        &self,
        parts: &RepeatParts<'_>,
        running: Running,
        frame: &mut Frame,
        run: &mut Run<'_>,
        into: &mut Value,
    ) -> Result<Ending, Stop>
        requires below { RunsBodies W.world self.now.alloc self.now.world self.now.levels (B.pre self.now.below) (B.post self.now.below) }
        requires ready { Ready (W.world self.now.world.now) run.old.memory }
        ensures value { Ends (spec.counted most_turns (spec.turn (value_at (W.world self.now.world.now) self.now.levels) (control_of parts.now) (action_at (W.world self.now.world.now) self.now.levels (statements_of parts.now.body.now))) (Some running) frame.old run.old.counter) result into.new frame.new run.new.counter }
        ensures ready { Ready (W.world self.now.world.now) run.new.memory }
    {
        frame.open(Value::Indet)?;
        let ending = self.turns(parts, Some(running), frame, run, into)?;
        frame.close();
        Ok(ending)
    }

    /// An increment before its first turn, if there is one.
    #[inline(never)]
    fn running(
        &self,
        increment: &IncrementParts<'_>,
        frame: &mut Frame,
        run: &mut Run<'_>,
    ) -> Result<Option<Running>, Stop>
        requires below { RunsBodies W.world self.now.alloc self.now.world self.now.levels (B.pre self.now.below) (B.post self.now.below) }
        requires ready { Ready (W.world self.now.world.now) run.old.memory }
        ensures value { Runs (begins (value_at (W.world self.now.world.now) self.now.levels) (increment_of increment.now) frame.old run.old.counter) result run.new.counter }
        ensures frame { OnOk result (frame.new ≡ frame.old) }
        ensures ready { Ready (W.world self.now.world.now) run.new.memory }
    {
        let first = self.value(increment.first, frame, run)?;
        let last = self.value(increment.last, frame, run)?;
        let step = self.step_value(increment.step, frame, run)?;
        Ok(begun(&first, &last, &step))
    }

    /// The turns of an increment.
    #[cycle(statements)]
    #[inline(always)]
    fn counted(
        &self,
        parts: &RepeatParts<'_>,
        increment: &IncrementParts<'_>,
        frame: &mut Frame,
        run: &mut Run<'_>,
        into: &mut Value,
    ) -> Result<Ending, Stop>
        requires below { RunsBodies W.world self.now.alloc self.now.world self.now.levels (B.pre self.now.below) (B.post self.now.below) }
        requires ready { Ready (W.world self.now.world.now) run.old.memory }
        ensures value { Ends (spec.repeats most_turns (value_at (W.world self.now.world.now) self.now.levels) (spec.turn (value_at (W.world self.now.world.now) self.now.levels) (control_of parts.now) (action_at (W.world self.now.world.now) self.now.levels (statements_of parts.now.body.now))) (Some (increment_of increment.now)) frame.old run.old.counter) result into.new frame.new run.new.counter }
        ensures ready { Ready (W.world self.now.world.now) run.new.memory }
    {
        match self.running(increment, frame, run)? {
            None => Ok(Ending::Next),
            Some(running) => self.with_variable(parts, running, frame, run, into),
        }
    }

    /// A REPEAT after its step.
    #[cycle(statements)]
    #[inline(never)]
    fn repeat(
        &self,
        parts: &RepeatParts<'_>,
        frame: &mut Frame,
        run: &mut Run<'_>,
        into: &mut Value,
    ) -> Result<Ending, Stop>
        requires below { RunsBodies W.world self.now.alloc self.now.world self.now.levels (B.pre self.now.below) (B.post self.now.below) }
        requires ready { Ready (W.world self.now.world.now) run.old.memory }
        ensures value { Ends (spec.repeats most_turns (value_at (W.world self.now.world.now) self.now.levels) (spec.turn (value_at (W.world self.now.world.now) self.now.levels) (control_of parts.now) (action_at (W.world self.now.world.now) self.now.levels (statements_of parts.now.body.now))) (control_of parts.now).increment frame.old run.old.counter) result into.new frame.new run.new.counter }
        ensures ready { Ready (W.world self.now.world.now) run.new.memory }
    {
        match increment_in(parts.increment) {
            None => self.turns(parts, None, frame, run, into),
            Some(increment) => self.counted(parts, &increment, frame, run, into),
        }
    }
}
