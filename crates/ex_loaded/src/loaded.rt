//! A compiled schema with its dictionary.

ghost use Rattle.std.specs.Prelude.{◌≡◌, IfOk};

use ex_compiled::Compiled;
use ex_layouts::Dictionary;
use ex_types::CheckedSchema;
use std::alloc::{AllocError, Global};
use std::marker::Model;

/// A compiled schema with its dictionary, which is found once for all instances.
pub struct LoadedSchema<'s> {
    compiled: &'s Compiled,
    dictionary: Dictionary<'s>,
}

impl<'s> Drop for LoadedSchema<'s> {
    fn drop(self) {
        let LoadedSchema {
            compiled: _,
            dictionary,
        } = self;
        drop(dictionary);
    }
}

impl<'s> Model for LoadedSchema<'s> {
    ghost use Rattle.std.specs.Prelude.{◌≡◌};
    ghost use Rattle.ex_schemas.specs.Schemas.{Checked};

    ghost Value = { Checked };

    ghost view = { λ l. l.compiled.now };

    ghost invariant = { λ l. l.dictionary ≡ l.compiled.now };

    ghost use Rattle.std.specs.Coded.{codes};
    ghost use Rattle.ex_types.specs.contracts.schema.CheckedSchema as checked;

    ghost coded = { Prim.hlevel (codes, checked.the_row.coded) };
}

/// The dictionary of the schema.
fn dictionary_of<'s>(alloc: Global, compiled: &'s Compiled) -> Result<Dictionary<'s>, AllocError>
    ensures { IfOk result (λ dictionary. dictionary ≡ compiled.now) }
{
    let checked = compiled.checked();
    let resolved = checked.resolved();
    compiled.proved();
    resolved.proved();
    Dictionary::of(
        alloc,
        resolved.named(),
        resolved.supertypes(),
        checked.warnings(),
        compiled.constraints(),
        checked.entity_order(),
    )
}

impl<'s> LoadedSchema<'s> {
    ghost use Rattle.std.specs.Prelude.{◌≡◌, IfOk};

    /// The schema with what is found in it once.
    pub fn of(alloc: Global, compiled: &'s Compiled) -> Result<LoadedSchema<'s>, AllocError>
        ensures { IfOk result (λ loaded. loaded ≡ compiled.now) }
    {
        let dictionary = dictionary_of(alloc, compiled)?;
        Ok(LoadedSchema {
            compiled,
            dictionary,
        })
    }

    /// Each schema with what is found in it once.
    pub fn all(alloc: Global, schemas: &'s [Compiled]) -> Result<Vec<LoadedSchema<'s>>, AllocError>
        ensures { IfOk result (λ loaded. loaded.items ≡ schemas.now) }
    {
        let mut loaded = Vec::with_capacity(alloc, schemas.len())?;
        for schema in schemas {
            loaded.push(LoadedSchema::of(alloc, schema)?)?;
        }
        Ok(loaded)
    }

    /// The schema, as it was checked.
    pub fn checked(&self) -> &'s CheckedSchema
        ensures { result.now ≡ self.now }
    {
        self.compiled.checked()
    }

    /// What instances ask of it.
    pub fn dictionary(&self) -> &Dictionary<'s>
        ensures { result.now ≡ self.now }
    {
        &self.dictionary
    }
}
