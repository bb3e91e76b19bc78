//! What a schema declares.

ghost use Rattle.std.specs.Prelude.{◌≡◌, ◌∷◌, [], ◌++◌, IfOk, OnOk, OnErr, is_some};
ghost use Rattle.ex_named.specs.Outcomes.{Binds};
ghost use Rattle.ex_named.specs.Scopes as spec;
ghost use Rattle.ex_scopes.specs.Attributes.{meaning_if};
ghost use Rattle.ex_scopes.specs.Sorts.{admitted};

use crate::attributes::AttributeRows;
use crate::items::ItemRows;
use crate::lookup::{is_in, is_marked, or_undeclared};
use crate::scope::Scope;
use crate::sorts::Sorts;
use ancestors::Family;
use ex_named::{
    AttributeMeaning, AttributePlace, AttributeUse, Binding, Declared, EnumerationItem,
    NameFaultKind, NamedExpression, TypeName, refused,
};
use ex_tree::Name;
use name_tables::NameRows;
use plain_data::Items;
use std::alloc::{AllocError, Global};
use std::marker::Model;

/// What a schema declares, each list in the order of the text: its names with their meanings, the attributes that entities
/// declare, the items of enumerations, and of each type whether it is an enumeration.
#[derive(Drop)]
pub struct Declarations<'a> {
    names: NameRows<'a, Declared>,
    attributes: AttributeRows<'a>,
    items: ItemRows<'a>,
    enumerations: Vec<bool>,
}

impl<'a> Model for Declarations<'a> {
    ghost use Rattle.ex_named.specs.Scopes as spec;

    ghost Value = { spec.Declarations };

    ghost view = { λ d. record { names = d.names; attributes = d.attributes; items = d.items; enumerations = d.enumerations.items } };
}

impl<'a> Declarations<'a> {
    pub fn new(alloc: Global) -> Declarations<'a>
        ensures { result ≡ record { names = []; attributes = []; items = []; enumerations = [] } }
    {
        Declarations {
            names: NameRows::new(alloc),
            attributes: AttributeRows::new(alloc),
            items: ItemRows::new(alloc),
            enumerations: Vec::new(alloc),
        }
    }

    /// Puts a name of the schema's own scope behind the others.
    pub fn push_name(&mut self, name: &'a [u8], meaning: Declared) -> Result<(), AllocError>
        ensures ok { OnOk result (self.new ≡ record self.old { names = self.old.names ++ (name.now, meaning) ∷ [] }) }
        ensures err { OnErr result (self.new ≡ self.old) }
    {
        self.names.push(name, meaning)
    }

    /// Puts an attribute behind the others.
    pub fn push_attribute(
        &mut self,
        name: &'a [u8],
        place: AttributePlace,
    ) -> Result<(), AllocError>
        ensures ok { OnOk result (self.new ≡ record self.old { attributes = self.old.attributes ++ (name.now, place) ∷ [] }) }
        ensures err { OnErr result (self.new ≡ self.old) }
    {
        self.attributes.push(name, place)
    }

    /// Puts an item of an enumeration behind the others.
    pub fn push_item(&mut self, name: &'a [u8], item: EnumerationItem) -> Result<(), AllocError>
        ensures ok { OnOk result (self.new ≡ record self.old { items = self.old.items ++ (name.now, item) ∷ [] }) }
        ensures err { OnErr result (self.new ≡ self.old) }
    {
        self.items.push(name, item)
    }

    /// Says of one type more whether it is an enumeration.
    pub fn push_enumeration(&mut self, is_enumeration: bool) -> Result<(), AllocError>
        ensures ok { OnOk result (self.new ≡ record self.old { enumerations = self.old.enumerations ++ is_enumeration ∷ [] }) }
        ensures err { OnErr result (self.new ≡ self.old) }
    {
        self.enumerations.push(is_enumeration)?;
        Ok(())
    }

    /// What the schema declares by a name: the first, where it declares two.
    pub fn declares(&self, name: &[u8]) -> Option<Declared>
        ensures { result ≡ spec.declared self.now name.now }
    {
        match self.names.get(name) {
            [first, ..] => Some(*first),
            [] => None,
        }
    }

    /// The attributes of this name that a family declares.
    pub fn attributes_of(
        &self,
        alloc: Global,
        family: &Family<'_>,
        name: &[u8],
    ) -> Result<Vec<AttributePlace>, AllocError>
        ensures { IfOk result (λ found. found.items ≡ spec.attributes_of self.now family.now name.now) }
    {
        self.attributes.of_family(alloc, family, name)
    }

    /// What this name means in a family, if one of its declarations there is of these sorts.
    pub fn attribute(
        &self,
        alloc: Global,
        family: &Family<'_>,
        sorts: Sorts,
        name: &[u8],
    ) -> Result<Option<AttributeMeaning>, AllocError>
        ensures { IfOk result (λ found. found ≡ meaning_if (admitted sorts) (spec.attributes_of self.now family.now name.now)) }
    {
        self.attributes.meaning(alloc, family, sorts, name)
    }

    /// The type of this name.
    pub fn type_name(&self, name: &Name) -> Binding<TypeName>
        ensures { Binds result (spec.type_name self.now name.now) }
    {
        let found = match self.declares(name.text.as_bytes()) {
            Some(Declared::Entity(number)) => Some(TypeName::Entity(number)),
            Some(Declared::Type(number)) => Some(TypeName::Defined(number)),
            _ => None,
        };
        or_undeclared(name, found)
    }

    /// The entity of this name.
    pub fn entity(&self, name: &Name) -> Binding<usize>
        ensures { Binds result (spec.entity self.now name.now) }
    {
        let found = match self.declares(name.text.as_bytes()) {
            Some(Declared::Entity(number)) => Some(number),
            _ => None,
        };
        or_undeclared(name, found)
    }

    /// What a name alone means in an expression.
    pub fn name(&self, alloc: Global, scope: &Scope<'_>, name: &Name) -> Binding<NamedExpression>
        ensures { Binds result (spec.name self.now scope.now name.now) }
    {
        match self.value(alloc, scope, name)? {
            Some(found) => Ok(found),
            None => self.item(name),
        }
    }

    /// What `type.item` means, if no value has the first name.
    pub fn item_of(
        &self,
        alloc: Global,
        scope: &Scope<'_>,
        type_name: &Name,
        item: &Name,
    ) -> Binding<Option<NamedExpression>>
        ensures { Binds result (spec.item_of self.now scope.now type_name.now item.now) }
    {
        if self.has_value(alloc, scope, type_name)? {
            return Ok(None);
        }
        let Some(Declared::Type(number)) = self.declares(type_name.text.as_bytes()) else {
            return refused(NameFaultKind::Undeclared, type_name.at);
        };
        Ok(Some(self.enumeration_item(type_name, number, item)?))
    }

    /// The function of this name.
    pub fn function(&self, alloc: Global, scope: &Scope<'_>, name: &Name) -> Binding<usize>
        ensures { Binds result (spec.function self.now scope.now name.now) }
    {
        let text = name.text.as_bytes();
        let found = if scope.variable(text).is_some() || self.has_attribute(alloc, scope, text)? {
            None
        } else {
            match self.declares(text) {
                Some(Declared::Function(number)) => Some(number),
                _ => None,
            }
        };
        or_undeclared(name, found)
    }

    /// The value of this name: a variable, then an attribute, then what the schema declares.
    fn value(
        &self,
        alloc: Global,
        scope: &Scope<'_>,
        name: &Name,
    ) -> Result<Option<NamedExpression>, AllocError>
        ensures { IfOk result (λ found. found ≡ spec.value self.now scope.now name.now) }
    {
        let text = name.text.as_bytes();
        if let Some(slot) = scope.variable(text) {
            return Ok(Some(NamedExpression::Variable(slot)));
        }
        if let Some(meaning) = self.attribute_in(alloc, scope, text)? {
            let at = name.at;
            return Ok(Some(NamedExpression::Attribute(AttributeUse { at, meaning })));
        }
        Ok(self.declared_value(alloc, scope, name))
    }

    /// A constant, a function without arguments, or the instances of an entity that the rule is for.
    fn declared_value(
        &self,
        alloc: Global,
        scope: &Scope<'_>,
        name: &Name,
    ) -> Option<NamedExpression>
        ensures { result ≡ spec.and_then (spec.declared self.now name.now.text) (spec.declared_value self.now scope.now name.now.at) }
    {
        match self.declares(name.text.as_bytes()) {
            Some(Declared::Constant(number)) => Some(NamedExpression::Constant(number)),
            Some(Declared::Function(number)) => Some(NamedExpression::Call(
                number,
                name.at,
                Items::new(alloc),
            )),
            Some(Declared::Entity(number)) if is_in(scope.populations(), number) => Some(
                NamedExpression::Population(number),
            ),
            _ => None,
        }
    }

    /// Whether a value has this name.
    fn has_value(&self, alloc: Global, scope: &Scope<'_>, name: &Name) -> Result<bool, AllocError>
        ensures { IfOk result (λ has. has ≡ is_some (spec.value self.now scope.now name.now)) }
    {
        let text = name.text.as_bytes();
        if scope.variable(text).is_some() || self.has_attribute(alloc, scope, text)? {
            return Ok(true);
        }
        Ok(match self.declares(text) {
            Some(Declared::Constant(_) | Declared::Function(_)) => true,
            Some(Declared::Entity(number)) => is_in(scope.populations(), number),
            _ => false,
        })
    }

    /// Whether an attribute in scope has this name.
    #[tactic(auto, using(crate::proofs::Told::some_meaning))]
    fn has_attribute(
        &self,
        alloc: Global,
        scope: &Scope<'_>,
        name: &[u8],
    ) -> Result<bool, AllocError>
        ensures { IfOk result (λ has. has ≡ is_some (spec.first (spec.attributes_of self.now scope.now.family name.now))) }
    {
        Ok(self.attribute_in(alloc, scope, name)?.is_some())
    }

    /// What this name means as one of an attribute in scope.
    #[tactic(auto, using(crate::proofs::Told::any_meaning))]
    fn attribute_in(
        &self,
        alloc: Global,
        scope: &Scope<'_>,
        name: &[u8],
    ) -> Result<Option<AttributeMeaning>, AllocError>
        ensures { IfOk result (λ found. found ≡ spec.meaning_of (spec.attributes_of self.now scope.now.family name.now)) }
    {
        self.attribute(alloc, scope.family(), Sorts::Any, name)
    }

    /// The item of this name, where no value has it.
    fn item(&self, name: &Name) -> Binding<NamedExpression>
        ensures { Binds result (spec.value_or_item self.now None name.now) }
    {
        match self.items.get(name.text.as_bytes()) {
            [] => refused(NameFaultKind::Undeclared, name.at),
            [item] => Ok(NamedExpression::Item(*item)),
            _ => Ok(NamedExpression::AmbiguousItem(name.at)),
        }
    }

    /// The item of a type of this number, which has to be an enumeration.
    fn enumeration_item(
        &self,
        type_name: &Name,
        number: usize,
        item: &Name,
    ) -> Binding<NamedExpression>
        ensures { Binds result (spec.enumeration_item self.now type_name.now number item.now) }
    {
        if !is_marked(&self.enumerations, number) {
            return refused(NameFaultKind::Undeclared, type_name.at);
        }
        let found = self.items.of_type(number, item.text.as_bytes());
        or_undeclared(item, found.map(NamedExpression::Item))
    }
}
