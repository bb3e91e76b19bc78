//! Instructions that are written from the last one to the first.

ghost use Rattle.std.specs.Prelude.{◌≡◌, [], ◌∷◌, ◌-◌, ◌≤◌, length, OnOk};
ghost use Rattle.rp_code.specs.Denoted.{at};
ghost use Rattle.rp_code.specs.Written.{Keeps, last};

use crate::instruction::Instruction;
use plain_data::Items;
use std::alloc::{AllocError, Global};
use std::marker::Model;

/// A `Vec` of instructions, the last of them first. Contracts see them in their order.
#[derive(Drop)]
pub(crate) struct Written {
    instructions: Vec<Instruction>,
}

impl Model for Written {
    ghost use Rattle.std.specs.Prelude.{List, reverse};
    ghost use Rattle.rp_code.specs.declared.instruction.Instruction.{Instruction};
    ghost use Rattle.rp_code.specs.contracts.instruction.Instruction as instruction;
    ghost use Rattle.std.specs.Coded.{codes};

    ghost Value = { List Instruction };

    ghost view = { λ w. reverse w.instructions.items };

    ghost coded = { Prim.hlevel (codes, instruction.the_row.coded) };
}

impl Written {
    pub(crate) fn new(alloc: Global) -> Written
        ensures { result ≡ [] }
    {
        Written {
            instructions: Vec::new(alloc),
        }
    }

    /// Writes an instruction before the others.
    #[tactic(auto, using(crate::proofs::Places::keeps_one))]
    pub(crate) fn push(&mut self, instruction: Instruction) -> Result<(), AllocError>
        ensures first { OnOk result (self.new ≡ instruction ∷ self.old) }
        ensures keeps { OnOk result (Keeps self.old self.new) }
    {
        self.instructions.push(instruction)?;
        Ok(())
    }

    pub(crate) fn len(&self) -> usize
        ensures { result ≡ length self.now }
    {
        self.instructions.len()
    }

    /// The distance to what was first when there were `count` instructions.
    pub(crate) fn since(&self, count: usize) -> usize
        requires { count ≤ length self.now }
        ensures distance { result ≡ length self.now - count }
        ensures tree { at self.now result ≡ at (last count self.now) 0 }
    {
        self.len() - count
    }

    /// The instructions in their order.
    pub(crate) fn into_items(self) -> Items<Instruction>
        ensures { result ≡ self }
    {
        let Written { mut instructions } = self;
        instructions.reverse();
        Items::from_vec(instructions)
    }
}
