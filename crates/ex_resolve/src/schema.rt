//! The whole schema.

ghost use Rattle.std.specs.Prelude.{◌≡◌, map, IfOk};
ghost use Rattle.std.specs.List.{filter_map};
ghost use Rattle.ex_named.specs.Outcomes.{Binds, Outcome, both as both_of, each, given};
ghost use Rattle.ex_bind_algorithms.specs.Algorithms as algorithms_spec;
ghost use Rattle.ex_bind_entities.specs.Entities as entities_spec;
ghost use Rattle.ex_declarations.specs.Declared as declared;
ghost use Rattle.ex_resolve.specs.Schemas as spec;

use crate::named::Named;
use crate::queue::Queue;
use crate::sorts::{Sorted, in_order, sort_declarations};
use crate::{identifiers, parts};
use ex_declarations::{
    declarations, declared_names, entities, once, supertype_graph, type_graph, types,
};
use ex_named::{
    Binding, NamedConstant, NamedEntity, NamedFunction, NamedRule, NamedSchema, NamedType, both,
};
use ex_scopes::Declarations;
use ex_tree::{
    Constant, Declaration, Entity, Function, Name, Rule, Schema, StringToken, TypeDeclaration,
};
use plain_data::{Failure, Items, Rows};
use std::alloc::{AllocError, Global};

type Classes = (Items<NamedType>, Items<NamedEntity>);

type Algorithms = (Items<NamedFunction>, Items<NamedRule>);

type SchemaParts = (Items<NamedConstant>, (Classes, Algorithms));

/// The schema with its names bound. Else the fault of least offset: a name that means nothing where it stands or
/// something of another sort, one that its scope declares twice, an entity or a type in a cycle, an attribute that the
/// entity hasn't. Each declaration of the tree goes once it is bound.
pub fn resolve(alloc: Global, schema: Schema) -> Binding<Named>
    ensures { Binds result (spec.resolved schema) }
{
    let declared = declarations(alloc, &schema)?;
    let tables = declared.tables(alloc)?;
    named(alloc, &tables, schema)
}

/// The schema with its names bound, by what it declares.
#[tactic(auto, unfolding(crate::specs::Schemas::resolved))]
fn named(alloc: Global, declarations: &Declarations<'_>, schema: Schema) -> Binding<Named>
    requires { declarations.now ≡ declared.declarations schema }
    ensures { Binds result (spec.resolved schema) }
{
    let supertypes = supertypes(alloc, declarations, &schema)?;
    let held = held(alloc, declarations, &schema)?;
    let found = named_schema(
        alloc,
        declarations,
        supertypes.as_slice(),
        held.as_slice(),
        schema,
    )?;
    identifiers::proved(&found);
    Ok(Named::new(found, supertypes))
}

/// Of each entity the entities that SUBTYPE OF lists.
fn supertypes(
    alloc: Global,
    declarations: &Declarations<'_>,
    schema: &Schema,
) -> Result<Rows<Rows<usize>>, AllocError>
    ensures { IfOk result (λ graph. graph ≡ declared.supertype_graph declarations.now (declared.entities schema.now)) }
{
    let entities = entities(alloc, schema)?;
    supertype_graph(alloc, declarations, &entities)
}

/// Of each type the types that it holds other than through an entity.
fn held(
    alloc: Global,
    declarations: &Declarations<'_>,
    schema: &Schema,
) -> Result<Rows<Rows<usize>>, AllocError>
    ensures { IfOk result (λ graph. graph ≡ declared.type_graph declarations.now (declared.types schema.now)) }
{
    let types = types(alloc, schema)?;
    type_graph(alloc, declarations, &types)
}

/// Whether the schema declares each name once.
fn names_once(alloc: Global, schema: &Schema) -> Binding<()>
    ensures { Binds result (declared.once (map (λ r. r.0) (declared.declared_names schema.now))) }
{
    let names = declared_names(alloc, schema)?;
    once(alloc, &names)
}

/// The types and the entities.
#[tactic(auto, using(crate::proofs::Numbers::held_length, crate::proofs::Numbers::above_length))]
fn classes(
    alloc: Global,
    declarations: &Declarations<'_>,
    supertypes: &[Rows<usize>],
    held: &[Rows<usize>],
    entities: Queue<Entity>,
    types: Queue<TypeDeclaration>,
) -> Binding<Classes>
    requires above { supertypes.now ≡ declared.supertype_graph declarations.now entities }
    requires held { held.now ≡ declared.type_graph declarations.now types }
    ensures { Binds result (both_of (spec.types_of declarations.now types) (spec.entities_of declarations.now entities)) }
{
    let types = parts::types(alloc, declarations, held, types);
    let entities = parts::entities(alloc, declarations, supertypes, entities);
    both(types, entities)
}

/// The functions and the rules.
fn algorithms(
    alloc: Global,
    declarations: &Declarations<'_>,
    functions: Queue<Function>,
    rules: Queue<Rule>,
) -> Binding<Algorithms>
    ensures { Binds result (both_of (each (algorithms_spec.named_function declarations.now) functions) (each (algorithms_spec.named_rule declarations.now) rules)) }
{
    let functions = parts::functions(alloc, declarations, functions);
    let rules = parts::rules(alloc, declarations, rules);
    both(functions, rules)
}

/// All declarations of a schema. All are bound before the least of their faults is told.
fn all_bound(
    alloc: Global,
    declarations: &Declarations<'_>,
    supertypes: &[Rows<usize>],
    held: &[Rows<usize>],
    constants: Items<Constant>,
    trees: Items<Declaration>,
) -> Binding<SchemaParts>
    requires above { supertypes.now ≡ declared.supertype_graph declarations.now (filter_map declared.entity_of trees) }
    requires held { held.now ≡ declared.type_graph declarations.now (filter_map declared.type_of trees) }
    ensures { Binds result (spec.all_bound declarations.now constants trees) }
{
    let constants = in_order(alloc, constants)?;
    let sorted = sort_declarations(alloc, trees)?;
    let Sorted {
        entities,
        functions,
        rules,
        types,
    } = sorted;
    let constants = parts::constants(alloc, declarations, constants);
    let classes = classes(alloc, declarations, supertypes, held, entities, types);
    let algorithms = algorithms(alloc, declarations, functions, rules);
    both(constants, both(classes, algorithms))
}

#[tactic(auto, unfolding(crate::specs::Schemas::named_schema))]
fn named_schema(
    alloc: Global,
    declarations: &Declarations<'_>,
    supertypes: &[Rows<usize>],
    held: &[Rows<usize>],
    schema: Schema,
) -> Binding<NamedSchema>
    requires declared { declarations.now ≡ declared.declarations schema }
    requires above { supertypes.now ≡ declared.supertype_graph declarations.now (declared.entities schema) }
    requires held { held.now ≡ declared.type_graph declarations.now (declared.types schema) }
    ensures { Binds result (spec.named_schema schema) }
{
    let names = names_once(alloc, &schema);
    let Schema {
        name,
        constants,
        declarations: trees,
        strings,
    } = schema;
    let all = all_bound(alloc, declarations, supertypes, held, constants, trees);
    let parts = both(names, all);
    made(name, strings, parts)
}

/// The schema of these parts.
fn made(
    name: Name,
    strings: Items<StringToken>,
    parts: Binding<((), SchemaParts)>,
) -> Binding<NamedSchema>
    ensures { (o : Outcome (Unit {0} × spec.SchemaParts)) → Binds parts o → Binds result (given (λ p. record { name = name; constants = p.1.0; types = p.1.1.0.0; entities = p.1.1.0.1; functions = p.1.1.1.0; rules = p.1.1.1.1; strings = strings }) o) }
{
    match parts {
        Ok(((), (constants, ((types, entities), (functions, rules))))) => Ok(NamedSchema {
            name,
            constants,
            types,
            entities,
            functions,
            rules,
            strings,
        }),
        Err(failure) => Err(failure),
    }
}
