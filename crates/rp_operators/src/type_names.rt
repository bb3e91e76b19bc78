//! TYPEOF, which finds what it gives of instances of the same entities once.

ghost use Rattle.std.specs.Prelude.{◌≡◌, IfOk, IfSome};
ghost use Rattle.rp_operators.specs.Naming as spec;

use crate::naming::{Names, names_of, push_entities, value_names};
use plain_data::Items;
use rp_meaning::{Domain, Schema};
use rp_value::{AggregateKind, Value};
use std::alloc::{AllocError, Global};
use std::marker::Model;

/// Of how many entities an instance may be for its names to be kept.
const MOST_ENTITIES: usize = 32;
/// How many entities of the schema may be looked at for all names that are kept.
const MOST_LOOKS: usize = 1_000_000;
/// Where nothing is kept.
const NOWHERE: usize = usize::MAX;

/// The names of the types of an instance of some entities.
#[derive(Drop)]
struct Row {
    entities: Items<usize>,
    names: Value,
}

fn row_of(
    alloc: Global,
    names: &Names,
    schema: &Schema,
    entities: &[usize],
) -> Result<Row, AllocError>
    requires { names.now ≡ spec.names_of schema.now }
    ensures { IfOk result (λ row. row.names ≡ spec.entity_names schema.now row.entities) }
{
    let order = schema.entity_order.as_slice();
    let mut found = Items::new(alloc);
    push_entities(&mut found, &names.entities, entities, order)?;
    let names = Value::aggregate(alloc, AggregateKind::Set, 1, found)?;
    let entities = Items::from_slice(alloc, entities)?;
    Ok(Row { entities, names })
}

/// Gives a place to what is to be kept for these entities, if nothing is kept for any that end so.
fn is_placed(places: &mut Vec<usize>, entities: &[usize], place: usize) -> bool {
    match entities.last() {
        Some(last)
            if *last < places.len()
                && places[*last] == NOWHERE
                && entities.len() <= MOST_ENTITIES => {
            places[*last] = place;
            true
        }
        _ => false,
    }
}

/// The names of the first instances of a population that end with each entity.
fn rows_of<D: Domain>(
    alloc: Global,
    names: &Names,
    schema: &Schema,
    domain: &D,
    places: &mut Vec<usize>,
) -> Result<Items<Row>, AllocError>
    requires { names.now ≡ spec.names_of schema.now }
    ensures { IfOk result (λ rows. spec.AreKept schema.now rows) }
{
    let most = MOST_LOOKS / schema.entity_order.len().max(1);
    let mut rows = Items::new(alloc);
    for at in 0..domain.count() {
        if rows.len() >= most {
            break;
        }
        if let Some(instance) = domain.instance(at) {
            if is_placed(places, instance.entities, rows.len()) {
                rows.push(row_of(alloc, names, schema, instance.entities)?)?;
            }
        }
    }
    Ok(rows)
}

/// The names that are kept for these entities.
fn kept<'r>(
    rows: &'r Items<Row>,
    places: &[usize],
    schema: &Schema,
    entities: &[usize],
) -> Option<&'r Value>
    requires { spec.AreKept schema.now rows.now }
    ensures { IfSome result (λ names. names.now ≡ spec.entity_names schema.now entities.now) }
{
    let row = rows.get(*places.get(*entities.last()?)?)?;
    if row.entities.as_slice() == entities {
        Some(&row.names)
    } else {
        None
    }
}

/// The names of the types and entities of a schema as texts, which all that TYPEOF gives share, and what it gives of the
/// instances that are common.
#[derive(Drop)]
pub struct TypeNames<'s> {
    schema: &'s Schema,
    names: Names,
    rows: Items<Row>,
    // Where those stand that end with an entity. Nothing is proved of it: what stands there is compared.
    places: Vec<usize>,
}

impl<'s> Model for TypeNames<'s> {
    ghost use Rattle.std.specs.Coded.{codes};
    ghost use Rattle.std.specs.Prelude.{◌≡◌};
    ghost use Rattle.rp_meaning.specs.contracts.schema.Schema as declared;
    ghost use Rattle.rp_meaning.specs.declared.schema.Schema.{Schema};
    ghost use Rattle.rp_operators.specs.Naming.{AreKept, names_of};

    ghost Value = { Schema };

    ghost coded = { Prim.hlevel (codes, declared.the_row.coded) };

    ghost view = { λ n. n.schema.now };

    ghost invariant = { λ n. (n.names ≡ names_of n.schema.now) × AreKept n.schema.now n.rows };
}

impl<'s> TypeNames<'s> {
    ghost use Rattle.std.specs.Prelude.{◌≡◌, IfOk, IfSome};
    ghost use Rattle.rp_meaning.specs.Attributes.{aggregate};
    ghost use Rattle.rp_meaning.specs.TypeNames as meaning;
    ghost use Rattle.rp_value.specs.declared.value.AggregateKind.TheVariants as k;

    /// It looks once at each instance of a population, for those that are common.
    pub fn new<D: Domain>(
        alloc: Global,
        schema: &'s Schema,
        domain: &D,
    ) -> Result<TypeNames<'s>, AllocError>
        ensures { IfOk result (λ names. names ≡ schema.now) }
    {
        let names = names_of(alloc, schema)?;
        let mut places = Vec::new(alloc);
        places.resize(schema.entities.len(), NOWHERE)?;
        let rows = rows_of(alloc, &names, schema, domain, &mut places)?;
        Ok(TypeNames {
            schema,
            names,
            rows,
            places,
        })
    }

    /// What is kept for a value that is an instance.
    fn kept<D: Domain>(&self, domain: &D, value: &Value) -> Option<&Value>
        ensures { IfSome result (λ names. names.now ≡ aggregate k.Set (meaning.texts self.now (D.population domain.now) (meaning.type_names self.now (D.population domain.now) value.now))) }
    {
        match value {
            Value::Inst(place) => {
                let instance = domain.instance(*place as usize)?;
                kept(&self.rows, &self.places, self.schema, instance.entities)
            }
            _ => None,
        }
    }

    /// TYPEOF: the names of the types of a value.
    pub fn of<D: Domain>(
        &self,
        alloc: Global,
        domain: &D,
        value: &Value,
    ) -> Result<Value, AllocError>
        ensures { IfOk result (λ x. x ≡ aggregate k.Set (meaning.texts self.now (D.population domain.now) (meaning.type_names self.now (D.population domain.now) value.now))) }
    {
        match self.kept(domain, value) {
            Some(names) => names.copy(),
            None => value_names(alloc, &self.names, self.schema, domain, value),
        }
    }
}
