//! Attributes that an entity declares again, each once.

ghost use Rattle.std.specs.Prelude.{◌≡◌, Ok, [], ◌++◌, ◌==◌, map, if◌then◌else◌, IfOk, OnOk};
ghost use Rattle.std.specs.List.{flat_map, list_any};
ghost use Rattle.plain_data.specs.Numbers.{is_among};
ghost use Rattle.ex_named.specs.declared.declaration.NamedRedeclaration.{NamedRedeclaration};
ghost use Rattle.ex_named.specs.declared.fault.NameFaultKind.TheVariants.{DeclaredTwice};
ghost use Rattle.ex_named.specs.Outcomes.{Binds, Outcome};
ghost use Rattle.ex_named.specs.Outcomes as outcomes;
ghost use Rattle.ex_named.specs.Scopes.{attributes_of};
ghost use Rattle.graphs.specs.Graphs.{family};
ghost use Rattle.ex_bind_entities.specs.Entities as spec;
ghost use Rattle.ex_bind_entities.specs.Inherited as parts;

use crate::families::EntityContext;
use crate::redeclarations::redeclaration;
use ancestors::Family;
use ex_named::{Binding, Gathered, NameFaultKind, NamedRedeclaration, refused};
use ex_scopes::Sorts;
use ex_tree::{AttributeDeclaration, EntityBody, ExplicitAttribute, Name, QualifiedAttribute};
use name_tables::NameRows;
use plain_data::Failure;
use std::alloc::{AllocError, Global};

/// Puts the attribute behind others, if it is declared again.
fn push_inherited<'a>(
    inherited: &mut Vec<(Sorts, &'a QualifiedAttribute)>,
    sorts: Sorts,
    declaration: &'a AttributeDeclaration,
) -> Result<(), AllocError>
    ensures { OnOk result (parts.read inherited.new.items ≡ parts.read inherited.old.items ++ parts.inherited_by sorts declaration.now) }
{
    if let AttributeDeclaration::Qualified(attribute) = declaration {
        inherited.push((sorts, attribute))?;
    }
    Ok(())
}

/// Puts the explicit attributes that are declared again behind others.
fn push_explicit<'a>(
    inherited: &mut Vec<(Sorts, &'a QualifiedAttribute)>,
    explicit: &'a ExplicitAttribute,
) -> Result<(), AllocError>
    ensures { OnOk result (parts.read inherited.new.items ≡ parts.read inherited.old.items ++ flat_map (parts.inherited_by Sorts.Explicit) explicit.now.attributes) }
{
    for declaration in explicit.attributes.as_slice() {
        push_inherited(inherited, Sorts::Explicit, declaration)?;
    }
    Ok(())
}

/// The attributes that an entity declares again, in order.
fn inherited_attributes<'a>(
    alloc: Global,
    body: &'a EntityBody,
) -> Result<Vec<(Sorts, &'a QualifiedAttribute)>, AllocError>
    ensures { IfOk result (λ found. parts.read found.items ≡ parts.inherited_of body.now) }
{
    let mut found = Vec::new(alloc);
    for explicit in body.explicit.as_slice() {
        push_explicit(&mut found, explicit)?;
    }
    for derived in body.derived.as_slice() {
        push_inherited(&mut found, Sorts::ExplicitOrDerived, &derived.attribute)?;
    }
    Ok(found)
}

/// The entities that declare an attribute of this name in the family of an entity.
fn declaring_in(
    alloc: Global,
    context: &EntityContext<'_, '_, '_>,
    entity: usize,
    name: &Name,
) -> Result<Vec<usize>, AllocError>
    ensures { IfOk result (λ entities. entities.items ≡ map (λ p. p.entity) (attributes_of context.now.declarations.now (family context.now.supertypes.now entity) name.now.text)) }
{
    let family = Family::of(context.supertypes, entity);
    let places = context
        .declarations
        .attributes_of(alloc, &family, name.text.as_bytes())?;
    places.iter().map(|place| place.entity).collect(alloc)
}

/// The entities that declare the attribute of this name, if it is one that can be declared again.
fn declaring(
    alloc: Global,
    context: &EntityContext<'_, '_, '_>,
    name: &Name,
    found: Binding<NamedRedeclaration>,
) -> Result<Vec<usize>, AllocError>
    ensures { (o : Outcome NamedRedeclaration) → Binds found o → IfOk result (λ entities. entities.items ≡ spec.entities_meant context.now.declarations.now context.now.supertypes.now name.now o) }
{
    match found {
        Ok(found) => declaring_in(alloc, context, found.entity, name),
        Err(Failure::Fault(_)) => Ok(Vec::new(alloc)),
        Err(Failure::NoMemory) => Err(AllocError),
    }
}

/// Whether the number is one of these.
fn is_one_of(numbers: &[usize], number: usize) -> bool
    ensures { result ≡ is_among numbers.now number }
{
    numbers.iter().any(|other| *other == number)
}

/// Whether one of the numbers is among the others.
fn is_any_among(others: &[usize], numbers: &[usize]) -> bool
    ensures { result ≡ list_any (λ e. is_among others.now e) numbers.now }
{
    numbers.iter().any(|number| is_one_of(others, *number))
}

/// Puts each number beside this name.
fn push_all<'a>(
    before: &mut NameRows<'a, usize>,
    name: &'a Name,
    numbers: &[usize],
) -> Result<(), AllocError>
    ensures { OnOk result (before.new ≡ before.old ++ map (λ e. (name.now.text, e)) numbers.now) }
{
    for number in numbers {
        before.push(name.text.as_bytes(), *number)?;
    }
    Ok(())
}

/// Whether an attribute was declared again before. From now on it was.
#[tactic(auto, unfolding(crate::specs::Inherited::declaring))]
fn is_repeated<'a>(
    alloc: Global,
    context: &EntityContext<'_, '_, '_>,
    before: &mut NameRows<'a, usize>,
    sorts: Sorts,
    inherited: &'a QualifiedAttribute,
) -> Result<bool, AllocError>
    ensures told { IfOk result (λ repeated. repeated ≡ spec.stands_before context.now.declarations.now context.now.supertypes.now before.old (parts.redeclared_of context.now.declarations.now context.now.supertypes.now context.now.entity (sorts, inherited.now))) }
    ensures put { OnOk result (before.new ≡ before.old ++ map (λ e. (inherited.now.attribute.text, e)) (parts.declaring context.now.declarations.now context.now.supertypes.now context.now.entity sorts inherited.now)) }
{
    let name = &inherited.attribute;
    let found = redeclaration(alloc, context, sorts, inherited);
    let entities = declaring(alloc, context, name, found)?;
    let repeated = is_any_among(before.get(name.text.as_bytes()), &entities);
    push_all(before, name, &entities)?;
    Ok(repeated)
}

/// The first byte of a name, unless it is declared before.
fn unless_repeated(repeated: bool, name: &Name) -> Binding<usize>
    ensures { Binds result (if repeated then outcomes.refused DeclaredTwice name.now.at else Ok name.now.at) }
{
    if repeated {
        return refused(NameFaultKind::DeclaredTwice, name.at);
    }
    Ok(name.at)
}

/// Whether none of these attributes stands twice; else the fault lies at the second.
#[tactic(auto, using(crate::proofs::Again::told_and_one))]
fn all_once(
    alloc: Global,
    context: &EntityContext<'_, '_, '_>,
    list: &[(Sorts, &QualifiedAttribute)],
) -> Binding<()>
    ensures { Binds result (spec.once_redeclared_after context.now.declarations.now context.now.supertypes.now [] (Ok (tt {0})) (map (parts.redeclared_of context.now.declarations.now context.now.supertypes.now context.now.entity) (parts.read list.now))) }
{
    let mut before = NameRows::new(alloc);
    let mut found = Gathered::new(alloc, list.len())?;
    for (sorts, inherited) in list {
        let repeated = is_repeated(alloc, context, &mut before, *sorts, inherited)?;
        found.push(unless_repeated(repeated, &inherited.attribute))?;
    }
    found.finish()?;
    Ok(())
}

/// Whether no attribute is declared again twice.
pub fn once_redeclared(
    alloc: Global,
    context: &EntityContext<'_, '_, '_>,
    body: &EntityBody,
) -> Binding<()>
    ensures { Binds result (spec.once_redeclared context.now.declarations.now context.now.supertypes.now context.now.entity body.now) }
{
    let list = inherited_attributes(alloc, body)?;
    all_once(alloc, context, &list)
}
