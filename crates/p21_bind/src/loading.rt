//! A whole file, each instance of which is bound as soon as it is read.

ghost use Rattle.std.specs.Prelude.{◌≡◌, Some, IfOk, IfSome, Ok};
ghost use Rattle.p21_grammar.specs.File.{file_of};
ghost use Rattle.p21_bind.specs.OnePass as spec;

use crate::file::one;
use ex_layouts::{Dictionary, Layouts};
use p21_mappings::{AnyName, put_references_of, whole};
use p21_read::{Visitor, is_of_schema, read_visited};
use p21_tree::{Header, Instance as SpelledInstance};
use plain_data::Failure;
use rp_content::{Content, Instance};
use std::alloc::{AllocError, Global};

/// What the instances of a file are that were read so far, as if each name that they refer to were defined.
pub struct Loading<'s> {
    layouts: Layouts<'s>,
    names: Vec<u64>,
    /// The names that they refer to.
    references: Vec<u64>,
    instances: Vec<Instance>,
}

impl<'s> Drop for Loading<'s> {
    fn drop(self) {
        let Loading {
            layouts,
            names,
            references,
            instances,
        } = self;
        drop(layouts);
        drop(names);
        drop(references);
        drop(instances);
    }
}

impl<'s> Visitor for Loading<'s> {
    ghost becomes = { spec.Becomes };

    fn visit(&mut self, alloc: Global, instance: &SpelledInstance<'_>) -> Result<bool, AllocError> {
        match one(alloc, &mut self.layouts, &AnyName, false, instance) {
            Ok(found) => {
                self.instances.push(found)?;
                self.names.push(instance.name)?;
                put_references_of(&mut self.references, &instance.mapping)?;
                Ok(true)
            }
            Err(Failure::Fault(_)) => Ok(false),
            Err(Failure::NoMemory) => Err(AllocError),
        }
    }
}

impl<'s> Loading<'s> {
    ghost use Rattle.std.specs.Prelude.{◌≡◌, ◌++◌, ◌==◌, [], true, false, map, IfOk, IfSome};
    ghost use Rattle.std.specs.List.{list_all};
    ghost use Rattle.plain_data.specs.Numbers.{is_among};
    ghost use Rattle.p21_instances.specs.Instances.{has_twice};
    ghost use Rattle.rp_content.specs.Names.{instance_name};
    ghost use Rattle.p21_mappings.specs.Contents as contents;

    /// Nothing yet. `bytes` is the length of the file: as most instances take 32 bytes and more, and a reference with what
    /// stands around it 16, the lists seldom grow, and of the room that is left over no page is touched.
    fn new(
        alloc: Global,
        schema: &'s Dictionary<'s>,
        bytes: usize,
    ) -> Result<Loading<'s>, AllocError>
        ensures layouts { IfOk result (λ l. l.layouts ≡ schema.now) }
        ensures names { IfOk result (λ l. l.names.items ≡ []) }
        ensures references { IfOk result (λ l. l.references.items ≡ []) }
        ensures instances { IfOk result (λ l. l.instances.items ≡ []) }
    {
        Ok(Loading {
            layouts: Layouts::of(alloc, schema)?,
            names: Vec::with_capacity(alloc, bytes / 32)?,
            references: Vec::with_capacity(alloc, bytes / 16)?,
            instances: Vec::with_capacity(alloc, bytes / 32)?,
        })
    }

    /// What a model holds that a file of this header and of what was loaded is put into, if no name stands twice and each
    /// reference is to one of them or is linked.
    fn into_content(
        self,
        alloc: Global,
        linked: &[u64],
        header: &Header<'_>,
    ) -> Result<Option<Content>, AllocError>
        requires { self.names.items ≡ map instance_name self.instances.items }
        ensures content { IfOk result (λ found. IfSome found (λ content. content ≡ contents.content header.now self.entry.instances.items)) }
        ensures once { IfOk result (λ found. IfSome found (λ content. has_twice (λ m n. m == n) self.entry.names.items ≡ false)) }
        ensures defined { IfOk result (λ found. IfSome found (λ content. list_all (is_among (self.entry.names.items ++ linked.now)) self.entry.references.items ≡ true)) }
    {
        let Loading {
            layouts,
            names,
            references,
            instances,
        } = self;
        drop(layouts);
        whole(alloc, names, references, instances, linked, header)
    }
}

/// What a model holds that the file is put into which a text spells, read in one pass and without its tree. The instances
/// may refer to one another and to the names that are linked. Nothing where the file has a fault, is not of the schema of
/// this name, or has a faulty instance: then `read_raw` and `bind` tell more.
///
/// # Errors
///
/// Want of memory.
pub fn load<'s>(
    alloc: Global,
    schema: &'s Dictionary<'s>,
    name: &[u8],
    linked: &[u64],
    text: &[u8],
) -> Result<Option<Content>, AllocError>
    ensures { IfOk result (λ found. IfSome found (λ content. spec.loaded schema.now name.now linked.now (file_of text.now) ≡ Some content)) }
{
    let mut loading = Loading::new(alloc, schema, text.len())?;
    let Some(raw) = read_visited(alloc, text, &mut loading)? else {
        return Ok(None);
    };
    if !is_of_schema(alloc, &raw, name)? {
        return Ok(None);
    }
    loading.into_content(alloc, linked, &raw.header)
}
