//! Copies of what the tree spells.

ghost use Rattle.std.specs.Prelude.{◌≡◌, IfOk};

use ex_tree::{Literal, Name};
use plain_data::Items;
use std::alloc::{AllocError, Global};

pub fn copy_name(alloc: Global, name: &Name) -> Result<Name, AllocError>
    ensures { IfOk result (λ n. n ≡ name.now) }
{
    Ok(Name {
        text: name.text.copy(alloc)?,
        at: name.at,
    })
}

pub fn copy_names(alloc: Global, names: &[Name]) -> Result<Items<Name>, AllocError>
    ensures { IfOk result (λ copies. copies ≡ names.now) }
{
    let mut copies = Vec::with_capacity(alloc, names.len())?;
    for name in names {
        copies.push(copy_name(alloc, name)?)?;
    }
    Ok(Items::from_vec(copies))
}

pub fn copy_label(alloc: Global, label: &Option<Name>) -> Result<Option<Name>, AllocError>
    ensures { IfOk result (λ l. l ≡ label.now) }
{
    Ok(match label {
        Some(name) => Some(copy_name(alloc, name)?),
        None => None,
    })
}

pub fn copy_literal(alloc: Global, literal: &Literal) -> Result<Literal, AllocError>
    ensures { IfOk result (λ l. l ≡ literal.now) }
{
    Ok(match literal {
        Literal::Integer(value) => Literal::Integer(*value),
        Literal::Real(value) => Literal::Real(*value),
        Literal::String(value, at) => Literal::String(value.copy(alloc)?, *at),
        Literal::Binary(bits) => Literal::Binary(bits.copy(alloc)?),
        Literal::Logical(value) => Literal::Logical(*value),
    })
}
