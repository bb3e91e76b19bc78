//! Expressions and statements as lists of instructions.

ghost use Rattle.std.specs.Prelude.{◌≡◌, ◌≤◌, drop, length, IfOk};
ghost use Rattle.rp_code.specs.Denoted.{at, expression_of, statements_of};

use crate::expressions::push_expression;
use crate::instruction::Instruction;
use crate::statements::push_statements;
use crate::tree::{Expression, Statement};
use crate::written::Written;
use plain_data::Items;
use std::alloc::{AllocError, Global};
use std::marker::Model;

/// An expression, as the list of its nodes, each before its parts.
#[derive(Drop)]
pub struct Code {
    instructions: Items<Instruction>,
}

impl Model for Code {
    ghost use Rattle.rp_code.specs.Denoted.{expression_of};
    ghost use Rattle.rp_code.specs.declared.tree.Expression.{Expression};
    ghost use Rattle.rp_code.specs.contracts.tree.Expression as tree;
    ghost use Rattle.std.specs.Coded.{codes};

    ghost Value = { Expression };

    ghost view = { λ c. expression_of c.instructions };

    ghost coded = { Prim.hlevel (codes, tree.the_row.coded) };
}

impl Code {
    /// The instructions of an expression. Values share their blocks with those of the tree; roles and lists of attributes are copied.
    pub fn of(alloc: Global, tree: &Expression) -> Result<Code, AllocError>
        ensures { IfOk result (λ code. code ≡ tree.now) }
    {
        let mut found = Written::new(alloc);
        push_expression(alloc, tree, &mut found)?;
        Ok(Code {
            instructions: found.into_items(),
        })
    }

    pub fn instructions(&self) -> &[Instruction]
        ensures { expression_of result.now ≡ self.now }
    {
        self.instructions.as_slice()
    }
}

/// Statements, as the list of their nodes, each before its parts.
#[derive(Drop)]
pub struct Routine {
    instructions: Items<Instruction>,
}

impl Model for Routine {
    ghost use Rattle.std.specs.Prelude.{List};
    ghost use Rattle.rp_code.specs.Denoted.{statements_of};
    ghost use Rattle.rp_code.specs.declared.tree.Statement.{Statement};
    ghost use Rattle.rp_code.specs.contracts.tree.Statement as tree;
    ghost use Rattle.std.specs.Coded.{codes};

    ghost Value = { List Statement };

    ghost view = { λ r. statements_of r.instructions };

    ghost coded = { Prim.hlevel (codes, tree.the_row.coded) };
}

impl Routine {
    /// The instructions of statements. Values share their blocks with those of the trees; roles, lists of attributes and types are
    /// copied.
    pub fn of(alloc: Global, trees: &[Statement]) -> Result<Routine, AllocError>
        ensures { IfOk result (λ routine. routine ≡ trees.now) }
    {
        let mut found = Written::new(alloc);
        push_statements(alloc, trees, &mut found)?;
        Ok(Routine {
            instructions: found.into_items(),
        })
    }

    pub fn instructions(&self) -> &[Instruction]
        ensures { statements_of result.now ≡ self.now }
    {
        self.instructions.as_slice()
    }
}

/// What begins at a distance; past the end there is nothing.
pub fn behind(code: &[Instruction], distance: usize) -> &[Instruction]
    ensures rest { result.now ≡ drop distance code.now }
    ensures tree { at result.now 0 ≡ at code.now distance }
    ensures within { length result.now ≤ length code.now }
{
    if distance <= code.len() {
        &code[distance..]
    } else {
        &[]
    }
}
