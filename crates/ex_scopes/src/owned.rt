//! What a schema declares, with its names in memory of their own, so that the tree may go while they are looked up.

ghost use Rattle.std.specs.Prelude.{◌≡◌, ◌∷◌, [], ◌++◌, IfOk, OnOk};
ghost use Rattle.ex_named.specs.Scopes as spec;

use crate::declarations::Declarations;
use ex_named::{AttributePlace, Declared, EnumerationItem};
use ex_tree::Identifier;
use std::alloc::{AllocError, Global};
use std::marker::Model;

/// What a schema declares, each list in the order of the text: its names with their meanings, the attributes that entities
/// declare, the items of enumerations, and of each type whether it is an enumeration.
pub struct OwnedDeclarations {
    names: Vec<(Identifier, Declared)>,
    attributes: Vec<(Identifier, AttributePlace)>,
    items: Vec<(Identifier, EnumerationItem)>,
    enumerations: Vec<bool>,
}

impl Model for OwnedDeclarations {
    ghost use Rattle.ex_named.specs.Scopes as spec;

    ghost Value = { spec.Declarations };

    ghost view = { λ d. record { names = d.names.items; attributes = d.attributes.items; items = d.items.items; enumerations = d.enumerations.items } };
}

impl OwnedDeclarations {
    pub fn new(alloc: Global) -> OwnedDeclarations
        ensures { result ≡ record { names = []; attributes = []; items = []; enumerations = [] } }
    {
        OwnedDeclarations {
            names: Vec::new(alloc),
            attributes: Vec::new(alloc),
            items: Vec::new(alloc),
            enumerations: Vec::new(alloc),
        }
    }

    /// Puts a name of the schema's own scope behind the others.
    pub fn push_name(&mut self, name: Identifier, meaning: Declared) -> Result<(), AllocError>
        ensures { OnOk result (self.new ≡ record self.old { names = self.old.names ++ (name, meaning) ∷ [] }) }
    {
        self.names.push((name, meaning))?;
        Ok(())
    }

    /// Puts an attribute behind the others.
    pub fn push_attribute(
        &mut self,
        name: Identifier,
        place: AttributePlace,
    ) -> Result<(), AllocError>
        ensures { OnOk result (self.new ≡ record self.old { attributes = self.old.attributes ++ (name, place) ∷ [] }) }
    {
        self.attributes.push((name, place))?;
        Ok(())
    }

    /// Puts an item of an enumeration behind the others.
    pub fn push_item(&mut self, name: Identifier, item: EnumerationItem) -> Result<(), AllocError>
        ensures { OnOk result (self.new ≡ record self.old { items = self.old.items ++ (name, item) ∷ [] }) }
    {
        self.items.push((name, item))?;
        Ok(())
    }

    /// Puts whether a type is an enumeration behind the others.
    pub fn push_enumeration(&mut self, is_enumeration: bool) -> Result<(), AllocError>
        ensures { OnOk result (self.new ≡ record self.old { enumerations = self.old.enumerations ++ is_enumeration ∷ [] }) }
    {
        self.enumerations.push(is_enumeration)?;
        Ok(())
    }

    /// The same, in tables in which names are looked up.
    pub fn tables(&self, alloc: Global) -> Result<Declarations<'_>, AllocError>
        ensures { IfOk result (λ tables. tables ≡ self.now) }
    {
        let mut tables = Declarations::new(alloc);
        push_all_names(&mut tables, &self.names)?;
        push_all_attributes(&mut tables, &self.attributes)?;
        push_all_items(&mut tables, &self.items)?;
        push_all_enumerations(&mut tables, &self.enumerations)?;
        Ok(tables)
    }
}

fn push_all_names<'a>(
    tables: &mut Declarations<'a>,
    rows: &'a [(Identifier, Declared)],
) -> Result<(), AllocError>
    ensures { OnOk result (tables.new ≡ record tables.old { names = tables.old.names ++ rows.now }) }
{
    for (name, meaning) in rows {
        tables.push_name(name.as_bytes(), *meaning)?;
    }
    Ok(())
}

fn push_all_attributes<'a>(
    tables: &mut Declarations<'a>,
    rows: &'a [(Identifier, AttributePlace)],
) -> Result<(), AllocError>
    ensures { OnOk result (tables.new ≡ record tables.old { attributes = tables.old.attributes ++ rows.now }) }
{
    for (name, place) in rows {
        tables.push_attribute(name.as_bytes(), *place)?;
    }
    Ok(())
}

fn push_all_items<'a>(
    tables: &mut Declarations<'a>,
    rows: &'a [(Identifier, EnumerationItem)],
) -> Result<(), AllocError>
    ensures { OnOk result (tables.new ≡ record tables.old { items = tables.old.items ++ rows.now }) }
{
    for (name, item) in rows {
        tables.push_item(name.as_bytes(), *item)?;
    }
    Ok(())
}

fn push_all_enumerations(tables: &mut Declarations<'_>, marks: &[bool]) -> Result<(), AllocError>
    ensures { OnOk result (tables.new ≡ record tables.old { enumerations = tables.old.enumerations ++ marks.now }) }
{
    for is_enumeration in marks {
        tables.push_enumeration(*is_enumeration)?;
    }
    Ok(())
}

impl Drop for OwnedDeclarations {
    fn drop(self) {
        let OwnedDeclarations {
            names,
            attributes,
            items,
            enumerations,
        } = self;
        drop(names);
        drop(attributes);
        drop(items);
        drop(enumerations);
    }
}
