//! The entities of instances. Those above an entity are found once for all of its instances.

use ex_layouts::Dictionary;
use plain_data::Items;
use rp_content::Entities;
use std::alloc::{AllocError, Global};
use std::marker::Model;

/// Where nothing stands.
const NOWHERE: usize = usize::MAX;

/// An entity, with those above it and itself in the order in which the values of its instances stand.
#[derive(Drop)]
pub(crate) struct Line {
    entity: usize,
    entities: Items<usize>,
}

/// A schema, with the entities above some of its entities. Contracts see it as the schema.
pub(crate) struct Lines<'d, 's> {
    schema: &'d Dictionary<'s>,
    lines: Vec<Line>,
    // Where the line of an entity stands of these. Nothing is proved of it: what stands there is compared.
    places: Vec<usize>,
}

impl<'d, 's> Drop for Lines<'d, 's> {
    fn drop(self) {
        let Lines {
            schema: _,
            lines,
            places,
        } = self;
        drop(lines);
        drop(places);
    }
}

impl<'d, 's> Model for Lines<'d, 's> {
    ghost use Rattle.ex_schemas.specs.Schemas.{Checked};
    ghost use Rattle.rp_group_domain.specs.Lines as spec;

    ghost Value = { Checked };

    ghost view = { λ l. l.schema.now };

    ghost invariant = { λ l. spec.AreLines l.schema.now l.lines.items };

    ghost use Rattle.std.specs.Coded.{codes};
    ghost use Rattle.ex_named.specs.contracts.expression.NamedDataType as data_type;
    ghost use Rattle.ex_named.specs.contracts.expression.NamedExpression as expression;
    ghost use Rattle.ex_named.specs.contracts.statement.NamedStatement as statement;
    ghost use Rattle.ex_named.specs.contracts.declaration.NamedSupertype as supertype;

    ghost coded = { Prim.hlevel (codes, data_type.the_row.coded, expression.the_row.coded, statement.the_row.coded, supertype.the_row.coded) };
}

impl<'d, 's> Lines<'d, 's> {
    ghost use Rattle.std.specs.Prelude.{◌≡◌, IfOk, IfSome};
    ghost use Rattle.ex_layouts.specs.Entities as layouts;

    /// Nothing is found yet.
    pub(crate) fn of(alloc: Global, schema: &'d Dictionary<'s>) -> Result<Lines<'d, 's>, AllocError>
        ensures { IfOk result (λ lines. lines ≡ schema.now) }
    {
        let count = schema.entities().len();
        let mut places = Vec::with_capacity(alloc, count)?;
        places.resize(count, NOWHERE)?;
        Ok(Lines {
            schema,
            lines: Vec::new(alloc),
            places,
        })
    }

    /// The line of an entity, if it was found.
    fn known(&self, entity: usize) -> Option<&[usize]>
        ensures { IfSome result (λ line. line.now ≡ layouts.line_of self.now entity) }
    {
        let place = *self.places.get(entity)?;
        match self.lines.get(place) {
            Some(line) if line.entity == entity => Some(line.entities.as_slice()),
            _ => None,
        }
    }

    /// Finds the line of an entity, and keeps it.
    fn find(&mut self, alloc: Global, entity: usize) -> Result<Items<usize>, AllocError>
        ensures same { self.new ≡ self.old }
        ensures line { IfOk result (λ line. line ≡ layouts.line_of self.old entity) }
    {
        let line = self.schema.line_of(alloc, entity)?.into_vec();
        if entity < self.places.len() {
            let entities = Items::from_slice(alloc, line.as_slice())?;
            self.places[entity] = self.lines.len();
            self.lines.push(Line { entity, entities })?;
        }
        Ok(Items::from_vec(line))
    }

    fn line(&mut self, alloc: Global, entity: usize) -> Result<Items<usize>, AllocError>
        ensures same { self.new ≡ self.old }
        ensures line { IfOk result (λ line. line ≡ layouts.line_of self.old entity) }
    {
        if let Some(line) = self.known(entity) {
            return Items::from_slice(alloc, line);
        }
        self.find(alloc, entity)
    }

    /// The entities of an instance, in the order in which its values stand.
    pub(crate) fn entities(
        &mut self,
        alloc: Global,
        entities: &Entities,
    ) -> Result<Items<usize>, AllocError>
        ensures same { self.new ≡ self.old }
        ensures entities { IfOk result (λ found. found ≡ layouts.entities_of self.old entities.now) }
    {
        match entities {
            Entities::Leaf(entity) => self.line(alloc, *entity),
            Entities::Several(all) => Items::from_slice(alloc, all.as_slice()),
        }
    }
}
