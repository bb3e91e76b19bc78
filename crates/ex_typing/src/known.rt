//! What a schema's declarations say of kinds.

ghost use Rattle.std.specs.Prelude.{◌≡◌, [], slice_get, slice_index_or, option_copied, IfOk, IfSome};
ghost use Rattle.ex_kinds.specs.Types.{plain};
ghost use Rattle.ex_attributes.specs.Attributes.{found_after, found_nothing};

use ex_attributes::{Attributes, Found, Kept, KeptAmong, keep, keep_among};
use ex_kinds::{Kinds, Types, ValueKind, alternative};
use plain_data::Rows;
use std::alloc::{AllocError, Global};
use std::marker::Model;

/// What the parameters of a function take, in order, and what it gives.
#[derive(Drop)]
pub struct Signature {
    pub parameters: Rows<Kinds>,
    pub result: Kinds,
}

/// So many kinds are looked through each time.
const FEW: usize = 16;
/// Of so many lists of kinds what is found of a name is kept.
const MOST_AMONG: usize = 16;

/// What a schema's declarations say of kinds: of its defined types, attributes, constants and functions, each in the order
/// of the schema.
pub struct Known {
    types: Types,
    attributes: Attributes,
    constants: Rows<Kinds>,
    functions: Rows<Signature>,
    /// What is found of some names in each type, so that it isn't looked for each time.
    kept: Vec<Kept>,
    /// What is found of names among the many kinds that attributes of such types may be of.
    among: Vec<KeptAmong>,
}

impl Drop for Known {
    fn drop(self) {
        let Known {
            types,
            attributes,
            constants,
            functions,
            kept,
            among,
        } = self;
        drop(types);
        drop(attributes);
        drop(constants);
        drop(functions);
        drop(kept);
        drop(among);
    }
}

impl Model for Known {
    ghost use Rattle.ex_typing.specs.Expressions as spec;

    ghost Value = { spec.Known };

    ghost view = { λ k. record { types = k.types; attributes = k.attributes; constants = k.constants; functions = k.functions } };

    ghost use Rattle.std.specs.List.{All};
    ghost use Rattle.ex_attributes.specs.Kept.{IsKept, IsKeptAmong};

    ghost invariant = { λ k. All (λ kept. IsKept k.types k.attributes kept) k.kept.items × All (IsKeptAmong k.types k.attributes) k.among.items };
}

impl Known {
    pub fn new(
        alloc: Global,
        types: Types,
        attributes: Attributes,
        constants: Rows<Kinds>,
        functions: Rows<Signature>,
    ) -> Known
        ensures { result ≡ record { types = types; attributes = attributes; constants = constants; functions = functions } }
    {
        Known {
            types,
            attributes,
            constants,
            functions,
            kept: Vec::new(alloc),
            among: Vec::new(alloc),
        }
    }

    /// Keeps what is found of a name in each type, if all types that have it have it alike.
    pub fn keep(&mut self, alloc: Global, name: &str) -> Result<(), AllocError>
        ensures { self.new ≡ self.old }
    {
        if let Some(kept) = keep(alloc, &self.types, &self.attributes, name)? {
            self.kept.push(kept)?;
        }
        Ok(())
    }

    /// The kinds that an attribute of this name may be of, as far as that is kept.
    fn kinds_behind(&self, alloc: Global, name: &str) -> Result<Vec<Kinds>, AllocError> {
        let mut lists = Vec::new(alloc);
        for kept in &self.kept {
            if kept.is_of(name) {
                lists.push(kept.found.kinds.copied()?)?;
            }
        }
        for kept in &self.among {
            if kept.name.as_str() == name {
                lists.push(kept.found.kinds.copied()?)?;
            }
        }
        Ok(lists)
    }

    /// Keeps what is found of a name among kinds, if they are many.
    fn keep_among(&mut self, alloc: Global, kinds: &Kinds, name: &str) -> Result<(), AllocError>
        ensures { self.new ≡ self.old }
    {
        if kinds.len() < FEW || self.among.len() >= MOST_AMONG {
            return Ok(());
        }
        if self.found_among(kinds.as_slice(), name)?.is_some() {
            return Ok(());
        }
        let kinds = kinds.copied()?;
        let kept = keep_among(alloc, &self.types, &self.attributes, kinds, name)?;
        self.among.push(kept)?;
        Ok(())
    }

    /// Keeps what is found of a name in what an attribute of the first name may be, as far as that is kept and is of many kinds.
    pub fn keep_behind(&mut self, alloc: Global, first: &str, name: &str) -> Result<(), AllocError>
        ensures { self.new ≡ self.old }
    {
        let lists = self.kinds_behind(alloc, first)?;
        for kinds in &lists {
            self.keep_among(alloc, kinds, name)?;
        }
        Ok(())
    }

    /// What is found of a name among many kinds, if that is kept.
    fn found_among(&self, kinds: &[ValueKind], name: &str) -> Result<Option<Found>, AllocError>
        ensures { IfOk result (λ told. IfSome told (λ found. found ≡ found_after self.now.attributes name.now found_nothing (plain self.now.types kinds.now))) }
    {
        if kinds.len() < FEW {
            return Ok(None);
        }
        for kept in &self.among {
            if kept.was_found_of(name, kinds) {
                return Ok(Some(kept.found.copied()?));
            }
        }
        Ok(None)
    }

    /// What is found of a name among these kinds, if that is kept.
    pub(crate) fn found(
        &self,
        alloc: Global,
        kinds: &[ValueKind],
        name: &str,
    ) -> Result<Option<Found>, AllocError>
        ensures { IfOk result (λ told. IfSome told (λ found. found ≡ found_after self.now.attributes name.now found_nothing (plain self.now.types kinds.now))) }
    {
        let [kind] = kinds else {
            return self.found_among(kinds, name);
        };
        let Some(number) = alternative(*kind) else {
            return Ok(None);
        };
        for kept in &self.kept {
            if kept.is_of(name) {
                return Ok(Some(kept.found_in(alloc, number)?));
            }
        }
        Ok(None)
    }

    /// The defined types.
    pub fn types(&self) -> &Types
        ensures { result.now ≡ self.now.types }
    {
        &self.types
    }

    /// The attributes of its entities.
    pub fn attributes(&self) -> &Attributes
        ensures { result.now ≡ self.now.attributes }
    {
        &self.attributes
    }

    /// What the constant of this number may be.
    pub fn constant(&self, number: usize) -> &[ValueKind]
        ensures { result.now ≡ slice_index_or self.now.constants number [] }
    {
        kinds_at(self.constants.as_slice(), number)
    }

    /// What the function of this number takes and gives.
    pub fn function(&self, number: usize) -> Option<&Signature>
        ensures { option_copied result ≡ slice_get self.now.functions number }
    {
        self.functions.as_slice().get(number)
    }
}

/// The kinds in this place of a list; none beyond its end.
pub(crate) fn kinds_at(list: &[Kinds], place: usize) -> &[ValueKind]
    ensures { result.now ≡ slice_index_or list.now place [] }
{
    match list.get(place) {
        Some(kinds) => kinds.as_slice(),
        None => &[],
    }
}
