//! The values of attributes as they are read. What is read in place of a text is found once where many instances have it.

ghost use Rattle.std.specs.Prelude.{◌≡◌, IfOk, IsTrue};
ghost use Rattle.std.specs.Option.{unwrap_or};
ghost use Rattle.rp_meaning.specs.Reading as spec;
ghost use Rattle.rp_domain.specs.Rows.{read_value};

use crate::attributes::declaration;
use crate::places::Places;
use crate::references::leaves;
use crate::sameness::is_same;
use ex_named::AttributePlace;
use plain_data::Items;
use rp_meaning::Schema;
use rp_operators::{given, present};
use rp_value::Value;
use std::alloc::{AllocError, Global};
use std::marker::Model;

/// A text that an attribute has, and what is read in place of it.
struct ReadText {
    attribute: AttributePlace,
    written: Value,
    read: Value,
}

impl Drop for ReadText {
    fn drop(self) {
        let ReadText {
            attribute: _,
            written,
            read,
        } = self;
        drop(written);
        drop(read);
    }
}

/// A schema and how many instances a population has, with what was found for some texts. Nothing tells for which.
pub(crate) struct Readings<'s> {
    schema: &'s Schema,
    count: usize,
    texts: Items<ReadText>,
    // Where one stands of these, by the entity that declares the attribute. Nothing is proved of it: what stands there is compared.
    places: Places,
}

impl<'s> Drop for Readings<'s> {
    fn drop(self) {
        let Readings {
            schema: _,
            count: _,
            texts,
            places,
        } = self;
        drop(texts);
        drop(places);
    }
}

impl<'s> Model for Readings<'s> {
    ghost use Rattle.std.specs.Prelude.{ℕ};
    ghost use Rattle.rp_meaning.specs.declared.schema.Schema.{Schema};
    ghost use Rattle.rp_domain.specs.Readings.{AreRead};
    ghost use Rattle.std.specs.Coded.{codes};
    ghost use Rattle.rp_meaning.specs.contracts.schema.Schema as declared;

    ghost Value = { Schema × ℕ };

    ghost coded = { Prim.hlevel (codes, declared.the_row.coded) };

    ghost view = { λ r. (r.schema.now, r.count) };

    ghost invariant = { λ r. AreRead r.schema.now r.count r.texts };
}

/// The value of an explicit attribute as it is read in a population of so many instances.
#[tactic(auto, unfolding(crate::specs::Rows::read_value))]
fn value_read(
    alloc: Global,
    schema: &Schema,
    count: usize,
    attribute: &AttributePlace,
    value: &Value,
) -> Result<Value, AllocError>
    ensures { IfOk result (λ x. read_value schema.now count attribute.now value.now ≡ x) }
{
    match declaration(schema, attribute) {
        None => Ok(Value::Indet),
        Some(declared) => {
            let types = schema.types.as_slice();
            let data_type = &declared.declaration.data_type;
            if leaves(value, count) {
                given(alloc, types, data_type, &present(value, alloc, count)?)
            } else {
                given(alloc, types, data_type, value)
            }
        }
    }
}

/// Whether it is this attribute's, and this value.
fn is_of(text: &ReadText, attribute: &AttributePlace, value: &Value) -> bool
    ensures { IsTrue result → (text.now.attribute ≡ attribute.now) × (text.now.written ≡ value.now) }
{
    text.attribute == *attribute && is_same(&text.written, value)
}

impl<'s> Readings<'s> {
    ghost use Rattle.std.specs.Prelude.{◌≡◌, IfOk, IfSome};
    ghost use Rattle.std.specs.Option.{unwrap_or};
    ghost use Rattle.rp_domain.specs.Rows.{read_value};

    pub(crate) fn new(alloc: Global, schema: &'s Schema, count: usize) -> Readings<'s>
        ensures { result ≡ (schema.now, count) }
    {
        Readings {
            schema,
            count,
            texts: Items::new(alloc),
            places: Places::new(alloc),
        }
    }

    /// What is read in place of a value of an attribute, if it was found.
    #[tactic(auto, using(crate::proofs::Texts::text_read))]
    fn known(&self, attribute: &AttributePlace, value: &Value) -> Option<&Value>
        ensures { IfSome result (λ x. read_value self.now.0 self.now.1 attribute.now value.now ≡ x.now) }
    {
        match self.texts.get(self.places.get(attribute.entity)) {
            Some(text) if is_of(text, attribute, value) => Some(&text.read),
            _ => None,
        }
    }

    /// Keeps what is read in place of a value of an attribute.
    #[tactic(auto, using(crate::proofs::Texts::one_more, crate::proofs::Texts::one_other))]
    fn keep(
        &mut self,
        attribute: &AttributePlace,
        value: &Value,
        read: &Value,
    ) -> Result<(), AllocError>
        requires { read_value self.old.0 self.old.1 attribute.now value.now ≡ read.now }
        ensures { self.new ≡ self.old }
    {
        let text = ReadText {
            attribute: *attribute,
            written: value.copy()?,
            read: read.copy()?,
        };
        let place = self.places.get(attribute.entity);
        if place < self.texts.len() {
            self.texts.set(place, text);
            return Ok(());
        }
        let count = self.schema.entities.len();
        self.places.set(attribute.entity, count, self.texts.len())?;
        self.texts.push(text)
    }

    /// What is read in place of the value of an attribute, if that is another one than is written, where it wasn't found before.
    fn find(
        &mut self,
        alloc: Global,
        attribute: &AttributePlace,
        value: &Value,
    ) -> Result<Option<Value>, AllocError>
        ensures same { self.new ≡ self.old }
        ensures other { IfOk result (λ other. read_value self.old.0 self.old.1 attribute.now value.now ≡ unwrap_or other value.now) }
    {
        let read = value_read(alloc, self.schema, self.count, attribute, value)?;
        if is_same(&read, value) {
            return Ok(None);
        }
        if let Value::Str(_) = value {
            self.keep(attribute, value, &read)?;
        }
        Ok(Some(read))
    }

    /// What is read in place of the value of an attribute, if that is another one than is written.
    pub(crate) fn other(
        &mut self,
        alloc: Global,
        attribute: &AttributePlace,
        value: &Value,
    ) -> Result<Option<Value>, AllocError>
        ensures same { self.new ≡ self.old }
        ensures other { IfOk result (λ other. read_value self.old.0 self.old.1 attribute.now value.now ≡ unwrap_or other value.now) }
    {
        if let Value::Str(_) = value {
            if let Some(read) = self.known(attribute, value) {
                return Ok(Some(read.copy()?));
            }
        }
        self.find(alloc, attribute, value)
    }
}
