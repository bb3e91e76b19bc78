//! The declarations of a schema, moved out of its lists, so that each may go by itself.

ghost use Rattle.std.specs.Prelude.{◌≡◌, [], IfOk, OnOk};
ghost use Rattle.std.specs.List.{cons_option, filter_map};
ghost use Rattle.ex_declarations.specs.Declared as spec;

use crate::queue::Queue;
use ex_tree::{Declaration, Entity, Function, Rule, TypeDeclaration};
use plain_data::Items;
use std::alloc::{AllocError, Global};

/// The declarations of a schema by their sorts, each sort in the order of the text.
#[derive(Drop)]
pub(crate) struct Sorted {
    pub(crate) entities: Queue<Entity>,
    pub(crate) functions: Queue<Function>,
    pub(crate) rules: Queue<Rule>,
    pub(crate) types: Queue<TypeDeclaration>,
}

impl Sorted {
    fn new(alloc: Global) -> Sorted
        ensures entities { result.entities ≡ [] }
        ensures functions { result.functions ≡ [] }
        ensures rules { result.rules ≡ [] }
        ensures types { result.types ≡ [] }
    {
        Sorted {
            entities: Queue::new(alloc),
            functions: Queue::new(alloc),
            rules: Queue::new(alloc),
            types: Queue::new(alloc),
        }
    }

    /// Puts a declaration before the others of its sort.
    fn put_first(&mut self, declaration: Declaration) -> Result<(), AllocError>
        ensures entities { OnOk result (self.new.entities ≡ cons_option (spec.entity_of declaration) self.old.entities) }
        ensures functions { OnOk result (self.new.functions ≡ cons_option (spec.function_of declaration) self.old.functions) }
        ensures rules { OnOk result (self.new.rules ≡ cons_option (spec.rule_of declaration) self.old.rules) }
        ensures types { OnOk result (self.new.types ≡ cons_option (spec.type_of declaration) self.old.types) }
    {
        match declaration {
            Declaration::Entity(entity) => self.entities.put_first(entity)?,
            Declaration::Function(function) => self.functions.put_first(function)?,
            Declaration::Rule(rule) => self.rules.put_first(rule)?,
            Declaration::Type(declared) => self.types.put_first(declared)?,
        }
        Ok(())
    }
}

/// The declarations by their sorts, moved.
pub(crate) fn sort_declarations(
    alloc: Global,
    declarations: Items<Declaration>,
) -> Result<Sorted, AllocError>
    ensures entities { IfOk result (λ s. s.entities ≡ filter_map spec.entity_of declarations) }
    ensures functions { IfOk result (λ s. s.functions ≡ filter_map spec.function_of declarations) }
    ensures rules { IfOk result (λ s. s.rules ≡ filter_map spec.rule_of declarations) }
    ensures types { IfOk result (λ s. s.types ≡ filter_map spec.type_of declarations) }
{
    let mut left = declarations;
    let mut sorted = Sorted::new(alloc);
    // They come from the end.
    while let Some(declaration) = left.pop() {
        sorted.put_first(declaration)?;
    }
    Ok(sorted)
}

/// The items of a list in their order, moved.
pub(crate) fn in_order<T: Drop>(alloc: Global, items: Items<T>) -> Result<Queue<T>, AllocError>
    ensures { IfOk result (λ all. all ≡ items) }
{
    let mut left = items;
    let mut found = Queue::new(alloc);
    // They come from the end.
    while let Some(item) = left.pop() {
        found.put_first(item)?;
    }
    Ok(found)
}
