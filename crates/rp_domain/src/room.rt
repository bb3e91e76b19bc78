//! How much room rows take, so that each takes it at once. Nothing is proved of it but for how many rows there are: a row that has
//! too little grows.

ghost use Rattle.std.specs.Prelude.{◌≡◌, IfOk, length};

use crate::instance::KeptInstance;
use std::alloc::{AllocError, Global};

fn no_room(alloc: Global, count: usize) -> Result<Vec<usize>, AllocError>
    ensures { IfOk result (λ room. length room.items ≡ count) }
{
    let mut room = Vec::with_capacity(alloc, count)?;
    room.resize(count, 0)?;
    Ok(room)
}

/// Room for one more in a row, if there is this row.
fn add_one(room: &mut [usize], row: usize) {
    if row < room.len() {
        room[row] = room[row].wrapping_add(1);
    }
}

/// Of the instances of each entity.
pub(crate) fn room_of_extents(
    alloc: Global,
    count: usize,
    instances: &[KeptInstance],
) -> Result<Vec<usize>, AllocError>
    ensures { IfOk result (λ room. length room.items ≡ count) }
{
    let mut room = no_room(alloc, count)?;
    for instance in instances {
        add_entities(room.as_mut_slice(), instance.entities());
    }
    Ok(room)
}

fn add_entities(room: &mut [usize], entities: &[usize]) {
    for entity in entities {
        add_one(room, *entity);
    }
}
