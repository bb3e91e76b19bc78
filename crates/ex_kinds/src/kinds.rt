//! Several kinds, in little room.

ghost use Rattle.std.specs.Prelude.{◌≡◌, [], ◌∷◌, ◌++◌, length, IfOk, OnOk, OnErr};
ghost use Rattle.std.specs.List.{list_any};
ghost use Rattle.ex_kinds.specs.Kinds as spec;
ghost use Rattle.ex_kinds.specs.Room.{kinds_in};

use crate::indexed::Indexed;
use crate::kind::ValueKind;
use plain_data::Rows;
use shared::Shared;
use std::alloc::{AllocError, Global};
use std::marker::Model;

/// So many are looked through one by one.
const FEW: usize = 16;

/// Where kinds are kept.
enum Room {
    None,
    One([ValueKind; 1]),
    Two([ValueKind; 2]),
    Several(Vec<ValueKind>),
    Many(Indexed),
    /// Many that stand in several places, and are written once.
    Shared(Shared<Rows<ValueKind>>),
}

impl Drop for Room {
    fn drop(self) {
        match self {
            Room::None | Room::One(_) | Room::Two(_) => {}
            Room::Several(kinds) => drop(kinds),
            Room::Many(kinds) => drop(kinds),
            Room::Shared(kinds) => drop(kinds),
        }
    }
}

impl Room {
    /// The same, of which copies are written once, where there are more than two.
    fn into_shared(self, alloc: Global) -> Result<Room, AllocError>
        ensures { IfOk result (λ room. kinds_in room ≡ kinds_in self) }
    {
        match self {
            Room::Several(kinds) => {
                Ok(Room::Shared(Shared::new(alloc, Rows::from_vec(kinds))?))
            },
            Room::Many(kinds) => {
                let rows = Rows::from_vec(kinds.into_vec());
                Ok(Room::Shared(Shared::new(alloc, rows)?))
            },
            other => Ok(other),
        }
    }
}

/// What a value may be: one of these. `?` has none. One or two kinds, as most values have, take no block.
#[derive(Drop)]
pub struct Kinds {
    alloc: Global,
    room: Room,
}

impl Model for Kinds {
    ghost use Rattle.std.specs.Prelude.{List};
    ghost use Rattle.ex_kinds.specs.declared.kind.ValueKind.{ValueKind};
    ghost use Rattle.ex_kinds.specs.Room.{kinds_in};

    ghost Value = { List ValueKind };

    ghost view = { λ k. kinds_in k.room };
}

/// The kinds that are kept.
fn kept(room: &Room) -> &[ValueKind]
    ensures { result.now ≡ kinds_in room.now }
{
    match room {
        Room::None => &[],
        Room::One(kinds) => kinds,
        Room::Two(kinds) => kinds,
        Room::Several(kinds) => kinds.as_slice(),
        Room::Many(kinds) => kinds.as_slice(),
        Room::Shared(kinds) => kinds.get().as_slice(),
    }
}

/// Room for these kinds, of which there may be many.
fn room_for(alloc: Global, kinds: &[ValueKind]) -> Result<Room, AllocError>
    ensures { IfOk result (λ room. kinds_in room ≡ kinds.now) }
{
    match kinds {
        [] => Ok(Room::None),
        [kind] => Ok(Room::One([*kind])),
        [first, second] => Ok(Room::Two([*first, *second])),
        _ => Ok(Room::Several(Vec::from_slice(alloc, kinds)?)),
    }
}

/// These kinds and one more.
fn with_one(
    alloc: Global,
    kinds: &[ValueKind],
    kind: ValueKind,
) -> Result<Vec<ValueKind>, AllocError>
    ensures { IfOk result (λ all. all.items ≡ kinds.now ++ kind ∷ []) }
{
    let mut all = Vec::with_capacity(alloc, 4)?;
    all.extend_from_slice(kinds)?;
    all.push(kind)?;
    Ok(all)
}

/// Room for these kinds and one more, with all in it.
fn wider(alloc: Global, kinds: &[ValueKind], kind: ValueKind) -> Result<Room, AllocError>
    ensures { IfOk result (λ room. kinds_in room ≡ kinds.now ++ kind ∷ []) }
{
    match kinds {
        [] => Ok(Room::One([kind])),
        [first] => Ok(Room::Two([*first, kind])),
        _ => Ok(Room::Several(with_one(alloc, kinds, kind)?)),
    }
}

/// Puts a kind behind the others.
fn push_into(alloc: Global, room: &mut Room, kind: ValueKind) -> Result<(), AllocError>
    ensures ok { OnOk result (kinds_in room.new ≡ kinds_in room.old ++ kind ∷ []) }
    ensures err { OnErr result (kinds_in room.new ≡ kinds_in room.old) }
{
    match room {
        Room::Several(kinds) => kinds.push(kind)?,
        Room::Many(kinds) => kinds.push(kind)?,
        _ => *room = wider(alloc, kept(room), kind)?,
    }
    Ok(())
}

/// Whether the kinds of entities are found by their numbers.
fn is_indexed(room: &Room) -> bool {
    matches!(room, Room::Many(_))
}

/// Has the kinds of entities found by their numbers, where there are more than a few kinds.
fn index(alloc: Global, room: &mut Room) -> Result<(), AllocError>
    ensures { kinds_in room.new ≡ kinds_in room.old }
{
    if kept(room).len() < FEW || is_indexed(room) {
        return Ok(());
    }
    *room = Room::Many(Indexed::of(alloc, kept(room))?);
    Ok(())
}

/// Whether this kind is one of those.
fn has(room: &Room, kind: ValueKind) -> bool
    ensures { result ≡ list_any (λ other. spec.same other kind) (kinds_in room.now) }
{
    match room {
        Room::Many(kinds) => kinds.has(kind),
        _ => kept(room).iter().any(|other| *other == kind),
    }
}

/// Puts a kind behind the others, if it is not yet there.
fn add_to(alloc: Global, room: &mut Room, kind: ValueKind) -> Result<(), AllocError>
    ensures { OnOk result (kinds_in room.new ≡ spec.with_kind (kinds_in room.old) kind) }
{
    index(alloc, room)?;
    if has(room, kind) {
        Ok(())
    } else {
        push_into(alloc, room, kind)
    }
}

impl Kinds {
    pub fn new(alloc: Global) -> Kinds
        ensures { result ≡ [] }
    {
        Kinds {
            alloc,
            room: Room::None,
        }
    }

    /// The one kind.
    pub fn one(alloc: Global, kind: ValueKind) -> Kinds
        ensures { result ≡ kind ∷ [] }
    {
        Kinds {
            alloc,
            room: Room::One([kind]),
        }
    }

    /// The same kinds once more.
    pub fn from_slice(alloc: Global, kinds: &[ValueKind]) -> Result<Kinds, AllocError>
        ensures { IfOk result (λ found. found ≡ kinds.now) }
    {
        let room = room_for(alloc, kinds)?;
        Ok(Kinds { alloc, room })
    }

    /// The same kinds, of which copies are written once, where there are more than two.
    pub fn into_shared(self) -> Result<Kinds, AllocError>
        ensures { IfOk result (λ kinds. kinds ≡ self) }
    {
        let Kinds { alloc, room } = self;
        let room = room.into_shared(alloc)?;
        Ok(Kinds { alloc, room })
    }

    /// The same kinds once more. Shared ones are not copied.
    pub fn copied(&self) -> Result<Kinds, AllocError>
        ensures { IfOk result (λ kinds. kinds ≡ self.now) }
    {
        let alloc = self.alloc;
        let room = match &self.room {
            Room::Shared(kinds) => Room::Shared(kinds.share()?),
            room => room_for(alloc, kept(room))?,
        };
        Ok(Kinds { alloc, room })
    }

    pub fn as_slice(&self) -> &[ValueKind]
        ensures { result.now ≡ self.now }
    {
        kept(&self.room)
    }

    pub fn len(&self) -> usize
        ensures { result ≡ length self.now }
    {
        self.as_slice().len()
    }

    pub fn push(&mut self, kind: ValueKind) -> Result<(), AllocError>
        ensures ok { OnOk result (self.new ≡ self.old ++ kind ∷ []) }
        ensures err { OnErr result (self.new ≡ self.old) }
    {
        let alloc = self.alloc;
        push_into(alloc, &mut self.room, kind)
    }

    /// Puts a kind behind the others, if it is not yet there.
    pub(crate) fn add(&mut self, kind: ValueKind) -> Result<(), AllocError>
        ensures { OnOk result (self.new ≡ spec.with_kind self.old kind) }
    {
        let alloc = self.alloc;
        add_to(alloc, &mut self.room, kind)
    }
}
