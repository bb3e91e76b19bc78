//! The whole schema.

ghost use Rattle.std.specs.Prelude.{◌≡◌, map, IfOk};
ghost use Rattle.plain_data.specs.Numbers.{numbered};
ghost use Rattle.rp_meaning.specs.Compiled as compiled;

use crate::algorithms::{functions, rules};
use crate::declared::{declared, graph_of};
use crate::defined_types::defined_types;
use crate::entities::entities;
use crate::expressions::constants;
use ex_types::CheckedSchema;
use plain_data::Items;
use rp_code::NamedRole;
use rp_compile_names::{entity_order, rederived_rows, roles, rule_order, type_order};
use rp_compile_trees::{Declared, both};
use rp_meaning::{DefinedType, Entity, Function, Given, GlobalRule, Schema};
use std::alloc::{AllocError, Global};

/// What is compiled of declarations: of defined types, entities, constants, functions and rules.
type Compiled = (
    (Items<DefinedType>, (Items<Entity>, Items<Given>)),
    (Items<Function>, Items<GlobalRule>),
);

/// The roles of a schema's explicit attributes.
fn roles_of(alloc: Global, schema: &CheckedSchema) -> Result<Items<NamedRole>, AllocError>
    ensures { IfOk result (λ found. found ≡ compiled.roles schema.now.named.schema) }
{
    let graph = graph_of(alloc, schema)?;
    roles(alloc, schema.name(), schema.entities(), &graph)
}

/// The entities, by what the schema declares, in the order of their names.
fn entities_of(
    alloc: Global,
    schema: &CheckedSchema,
    declared: &Declared<'_>,
    order: &[usize],
) -> Result<Items<Entity>, AllocError>
    requires declared { declared.now ≡ compiled.declared schema.now.named.schema }
    requires order { order.now ≡ compiled.entity_order schema.now.named.schema }
    ensures { IfOk result (λ found. found ≡ numbered (compiled.entity schema.now.named.schema) schema.now.named.schema.entities) }
{
    let graph = graph_of(alloc, schema)?;
    let rederived = rederived_rows(alloc, schema.entities(), &graph, order)?;
    entities(
        alloc,
        declared,
        schema.name(),
        &rederived,
        schema.entities(),
    )
}

/// Defined types, entities and constants.
fn data_of(
    alloc: Global,
    schema: &CheckedSchema,
    declared: &Declared<'_>,
    order: &[usize],
) -> Result<(Items<DefinedType>, (Items<Entity>, Items<Given>)), AllocError>
    requires declared { declared.now ≡ compiled.declared schema.now.named.schema }
    requires order { order.now ≡ compiled.entity_order schema.now.named.schema }
    ensures types { IfOk result (λ found. found.0 ≡ numbered (compiled.defined_type schema.now.named.schema) schema.now.named.schema.types) }
    ensures entities { IfOk result (λ found. found.1.0 ≡ numbered (compiled.entity schema.now.named.schema) schema.now.named.schema.entities) }
    ensures constants { IfOk result (λ found. found.1.1 ≡ map (compiled.constant schema.now.named.schema) schema.now.named.schema.constants) }
{
    let types = defined_types(alloc, declared, schema.name(), schema.types())?;
    let (entities, constants) = both(
        entities_of(alloc, schema, declared, order),
        constants(alloc, declared, schema.constants()),
    )?;
    Ok((types, (entities, constants)))
}

/// Functions and rules.
fn algorithms_of(
    alloc: Global,
    schema: &CheckedSchema,
    declared: &Declared<'_>,
) -> Result<(Items<Function>, Items<GlobalRule>), AllocError>
    requires { declared.now ≡ compiled.declared schema.now.named.schema }
    ensures functions { IfOk result (λ found. found.0 ≡ map (compiled.function schema.now.named.schema) schema.now.named.schema.functions) }
    ensures rules { IfOk result (λ found. found.1 ≡ map (compiled.rule schema.now.named.schema) schema.now.named.schema.rules) }
{
    let functions = functions(alloc, declared, schema.functions())?;
    let rules = rules(alloc, declared, schema.rules())?;
    Ok((functions, rules))
}

/// All declarations of a schema of these roles, whose entities stand in this order by their names.
fn declarations_of(
    alloc: Global,
    schema: &CheckedSchema,
    roles: &[NamedRole],
    order: &[usize],
) -> Result<Compiled, AllocError>
    requires roles { roles.now ≡ compiled.roles schema.now.named.schema }
    requires order { order.now ≡ compiled.entity_order schema.now.named.schema }
    ensures types { IfOk result (λ found. found.0.0 ≡ numbered (compiled.defined_type schema.now.named.schema) schema.now.named.schema.types) }
    ensures entities { IfOk result (λ found. found.0.1.0 ≡ numbered (compiled.entity schema.now.named.schema) schema.now.named.schema.entities) }
    ensures constants { IfOk result (λ found. found.0.1.1 ≡ map (compiled.constant schema.now.named.schema) schema.now.named.schema.constants) }
    ensures functions { IfOk result (λ found. found.1.0 ≡ map (compiled.function schema.now.named.schema) schema.now.named.schema.functions) }
    ensures rules { IfOk result (λ found. found.1.1 ≡ map (compiled.rule schema.now.named.schema) schema.now.named.schema.rules) }
{
    let declared = declared(alloc, schema, roles, order)?;
    both(
        data_of(alloc, schema, &declared, order),
        algorithms_of(alloc, schema, &declared),
    )
}

/// What evaluation looks at of a schema that was checked.
#[tactic(auto, unfolding(rp_meaning::specs::Compiled::compiled))]
pub fn compile(alloc: Global, checked: &CheckedSchema) -> Result<Schema, AllocError>
    ensures { IfOk result (λ schema. schema ≡ compiled.compiled checked.now) }
{
    let (entity_order, roles) = both(
        entity_order(alloc, checked.entities()),
        roles_of(alloc, checked),
    )?;
    let declarations = declarations_of(alloc, checked, roles.as_slice(), entity_order.as_slice());
    let orders = both(
        type_order(alloc, checked.types()),
        rule_order(alloc, checked.rules()),
    );
    let ((type_order, rule_order), (data, algorithms)) = both(orders, declarations)?;
    let (types, (entities, constants)) = data;
    let (functions, rules) = algorithms;
    Ok(Schema {
        types,
        entities,
        constants,
        functions,
        rules,
        roles,
        type_order,
        entity_order,
        rule_order,
    })
}
