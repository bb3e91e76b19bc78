//! What was found in a schema for some instances, kept for those that follow.

use crate::alike::{are_alike, are_same};
use crate::dictionary::Dictionary;
use crate::hints::Hints;
use crate::layout::Layout;
use plain_data::Text;
use rp_content::Entities;
use std::alloc::{AllocError, Global};
use std::marker::Model;

/// How many spellings of names are kept at most.
const SPELLINGS: usize = 4096;

/// How many leaves are kept at most.
const LEAVES: usize = 4096;

/// How many combinations of entities are kept at most.
const COMBINATIONS: usize = 1024;

/// How many entities and attributes all that is kept may have.
const ROOM: usize = 1 << 20;

/// A name as it is spelled somewhere, with the entity of this name.
#[derive(Drop)]
pub struct Spelling {
    pub text: Text,
    pub entity: usize,
}

/// An entity, with what an instance of it and of all above it has values of.
#[derive(Drop)]
pub struct KeptLeaf<'s> {
    pub entity: usize,
    pub layout: Layout<'s>,
}

/// The letter at a place; 0 beyond the last.
fn letter(name: &[u8], place: usize) -> usize {
    match name.get(place) {
        Some(letter) => *letter as usize,
        None => 0,
    }
}

/// Where a spelling may be kept: a number below `SPELLINGS`, by some of its letters. Another one that is kept there costs time
/// alone.
fn hint_of(name: &[u8]) -> usize {
    let count = name.len();
    let letters = [count / 2, count.wrapping_sub(2), 0];
    let mut packed = count;
    for place in letters {
        packed = packed.wrapping_mul(256).wrapping_add(letter(name, place));
    }
    // The upper bits of the product are of all letters.
    (packed.wrapping_mul(0x9E37_79B9_7F4A_7C15) >> 52) % SPELLINGS
}

/// Where what is known of some entities may be kept: a number below `COMBINATIONS`.
fn hint_of_all(entities: &[usize]) -> usize {
    let mut hash = entities.len();
    for entity in entities {
        hash = hash.wrapping_mul(33).wrapping_add(*entity);
    }
    hash % COMBINATIONS
}

/// How many entities and attributes a layout has.
fn size_of(layout: &Layout<'_>) -> usize {
    let mut size = layout.entities.len();
    for slots in layout.slots.as_slice() {
        size = size.wrapping_add(slots.len());
    }
    size
}

/// A schema with what was found in it for some instances of a file or of requests, for those that follow: at most 4,096
/// spellings of names, 4,096 leaves and 1,024 combinations, which have no more than 1,048,576 entities and attributes.
///
/// Nothing tells what is kept: it costs time alone where it isn't.
pub struct Layouts<'s> {
    schema: &'s Dictionary<'s>,
    spellings: Vec<Spelling>,
    leaves: Vec<KeptLeaf<'s>>,
    combinations: Vec<Layout<'s>>,
    // Where one stands of these, by some letters of the name, by the entity, and by all entities.
    spelling_hints: Hints,
    leaf_hints: Hints,
    combination_hints: Hints,
    /// How many entities and attributes may still be kept.
    room: usize,
}

impl<'s> Drop for Layouts<'s> {
    fn drop(self) {
        let Layouts {
            schema: _,
            spellings,
            leaves,
            combinations,
            spelling_hints,
            leaf_hints,
            combination_hints,
            room: _,
        } = self;
        drop(spellings);
        drop(leaves);
        drop(combinations);
        drop(spelling_hints);
        drop(leaf_hints);
        drop(combination_hints);
    }
}

impl<'s> Model for Layouts<'s> {
    ghost use Rattle.std.specs.Prelude.{length};
    ghost use Rattle.ex_schemas.specs.Schemas.{Checked};
    ghost use Rattle.ex_layouts.specs.Kept as kept;

    ghost Value = { Checked };

    ghost view = { λ l. l.schema.now };

    ghost invariant = { λ l. record {
      spellings : kept.AreNamed l.schema.now l.spellings.items;
      leaves : kept.AreLeaves l.schema.now l.leaves.items;
      combinations : kept.AreCombinations l.schema.now l.combinations.items;
      few : kept.AreFew (length l.spellings.items) (length l.leaves.items) (length l.combinations.items);
    } };

    ghost use Rattle.std.specs.Coded.{codes};
    ghost use Rattle.ex_named.specs.contracts.expression.NamedDataType as data_type;
    ghost use Rattle.ex_named.specs.contracts.expression.NamedExpression as expression;
    ghost use Rattle.ex_named.specs.contracts.statement.NamedStatement as statement;
    ghost use Rattle.ex_named.specs.contracts.declaration.NamedSupertype as supertype;

    ghost coded = { Prim.hlevel (codes, data_type.the_row.coded, expression.the_row.coded, statement.the_row.coded, supertype.the_row.coded) };
}

impl<'s> Layouts<'s> {
    ghost use Rattle.std.specs.Prelude.{◌≡◌, Some, IfOk, IfSome};
    ghost use Rattle.ex_layouts.specs.Entities.{entity_spelled};
    ghost use Rattle.ex_layouts.specs.Layouts as spec;

    /// Nothing is found yet.
    pub fn of(alloc: Global, schema: &'s Dictionary<'s>) -> Result<Layouts<'s>, AllocError>
        ensures { IfOk result (λ l. l ≡ schema.now) }
    {
        let spelling_hints = Hints::new(alloc, SPELLINGS)?;
        let leaf_hints = Hints::new(alloc, schema.entities().len())?;
        let combination_hints = Hints::new(alloc, COMBINATIONS)?;
        Ok(Layouts {
            schema,
            spellings: Vec::new(alloc),
            leaves: Vec::new(alloc),
            combinations: Vec::new(alloc),
            spelling_hints,
            leaf_hints,
            combination_hints,
            room: ROOM,
        })
    }

    /// The schema that they are of.
    pub fn dictionary(&self) -> &'s Dictionary<'s>
        ensures { result.now ≡ self.now }
    {
        self.schema
    }

    /// The entity of this name, in either case, if the spelling is kept.
    pub fn known_entity(&self, name: &[u8]) -> Option<usize>
        ensures { IfSome result (λ entity. entity_spelled self.now name.now ≡ Some entity) }
    {
        match self.spellings.get(self.spelling_hints.place(hint_of(name))) {
            Some(known) if are_alike(known.text.as_bytes(), name) => Some(known.entity),
            _ => None,
        }
    }

    /// Keeps a spelling with its entity, unless another one is kept in its place.
    fn keep_spelling(&mut self, alloc: Global, name: &str, entity: usize) -> Result<(), AllocError>
        requires { entity_spelled self.old name.now ≡ Some entity }
        ensures { self.new ≡ self.old }
    {
        let hint = hint_of(name.as_bytes());
        let place = self.spellings.len();
        if place < SPELLINGS && self.spelling_hints.is_free(hint) {
            let text = Text::from_str(alloc, name)?;
            self.spellings.push(Spelling { text, entity })?;
            self.spelling_hints.put(hint, place);
        }
        Ok(())
    }

    /// The entity of this name, in either case. The spelling is kept, if there is room.
    #[inline(never)]
    pub fn entity_spelled(&mut self, alloc: Global, name: &str) -> Result<Option<usize>, AllocError>
        ensures same { self.new ≡ self.old }
        ensures entity { IfOk result (λ entity. entity ≡ entity_spelled self.old name.now) }
    {
        let found = self.schema.entity_spelled(alloc, name)?;
        if let Some(entity) = found {
            self.keep_spelling(alloc, name, entity)?;
        }
        Ok(found)
    }

    /// What an instance of an entity and of all above it has values of, if it is kept.
    pub fn leaf(&self, entity: usize) -> Option<&Layout<'s>>
        ensures { IfSome result (λ layout. layout.now ≡ spec.of_leaf self.now entity) }
    {
        match self.leaves.get(self.leaf_hints.place(entity)) {
            Some(leaf) if leaf.entity == entity => Some(&leaf.layout),
            _ => None,
        }
    }

    /// What an instance of these entities has values of, whose records stand in this order, if it is kept.
    pub fn several(&self, entities: &[usize]) -> Option<&Layout<'s>>
        ensures layout { IfSome result (λ layout. layout.now ≡ spec.of_several self.now entities.now) }
        ensures read { IfSome result (λ layout. spec.AreRead self.now layout.now) }
    {
        let hint = hint_of_all(entities);
        match self.combinations.get(self.combination_hints.place(hint)) {
            Some(layout) if are_same(layout.entities.as_slice(), entities) => Some(layout),
            _ => None,
        }
    }

    /// What an instance of these entities has values of, if it is kept.
    pub fn known(&self, entities: &Entities) -> Option<&Layout<'s>>
        ensures { IfSome result (λ layout. layout.now ≡ spec.layout self.now entities.now) }
    {
        match entities {
            Entities::Leaf(entity) => self.leaf(*entity),
            Entities::Several(all) => self.several(all.as_slice()),
        }
    }

    /// Keeps what an instance of an entity and of all above it has values of, unless there is no room.
    pub fn keep_leaf(&mut self, entity: usize, layout: Layout<'s>) -> Result<(), AllocError>
        requires { layout ≡ spec.of_leaf self.old entity }
        ensures { self.new ≡ self.old }
    {
        let place = self.leaves.len();
        let size = size_of(&layout);
        if place < LEAVES && size <= self.room {
            self.room = self.room.wrapping_sub(size);
            self.leaves.push(KeptLeaf { entity, layout })?;
            self.leaf_hints.put(entity, place);
        }
        Ok(())
    }

    /// Keeps what an instance of some entities has values of, unless there is no room or another one is kept in its place.
    pub fn keep_several(&mut self, layout: Layout<'s>) -> Result<(), AllocError>
        requires { layout ≡ spec.of_several self.old layout.entities }
        ensures { self.new ≡ self.old }
    {
        let hint = hint_of_all(layout.entities.as_slice());
        let place = self.combinations.len();
        let size = size_of(&layout);
        if place < COMBINATIONS && self.combination_hints.is_free(hint) && size <= self.room {
            self.room = self.room.wrapping_sub(size);
            self.combinations.push(layout)?;
            self.combination_hints.put(hint, place);
        }
        Ok(())
    }

    /// Keeps what an instance of these entities has values of, as the two above do.
    pub fn keep(&mut self, entities: &Entities, layout: Layout<'s>) -> Result<(), AllocError>
        requires { layout ≡ spec.layout self.old entities.now }
        ensures { self.new ≡ self.old }
    {
        match entities {
            Entities::Leaf(entity) => self.keep_leaf(*entity, layout),
            Entities::Several(_) => self.keep_several(layout),
        }
    }
}
