//! Defined types.

ghost use Rattle.std.specs.Prelude.{◌≡◌, ℕ, List, [], true};
ghost use Rattle.ex_named.specs.Outcomes.{Binds, each};
ghost use Rattle.ex_named.specs.Scopes as scopes;
ghost use Rattle.ex_bind.specs.Rules.{scope_of};
ghost use Rattle.graphs.specs.Graphs.{is_ancestor};
ghost use Rattle.ex_bind_entities.specs.Entities as spec;
ghost use Rattle.ex_bind_entities.specs.Wholes as parts;

use crate::entities::not_cyclic;
use crate::scope_names::{labels_once, names_once, no_variables};
use ancestors::Family;
use ex_bind::{copy_name, copy_names, data_type, domain_rules};
use ex_named::{
    Binding, Declared, Gathered, NameFaultKind, NamedDataType, NamedDomainRule, NamedType,
    NamedUnderlying, TypeName, both, refused,
};
use ex_scopes::{Declarations, Scope};
use ex_tree::{DataType, Name, TypeDeclaration, UnderlyingType};
use name_tables::SortedNames;
use plain_data::Items;
use std::alloc::Global;
use std::collections::BTreeSet;

/// The defined type of this name: no entity can be renamed.
fn renamed(declarations: &Declarations<'_>, name: &Name) -> Binding<NamedDataType>
    ensures { Binds result (spec.renamed declarations.now [] name.now) }
{
    match declarations.declares(name.text.as_bytes()) {
        Some(Declared::Type(number)) => Ok(NamedDataType::Named(TypeName::Defined(number))),
        _ => refused(NameFaultKind::Undeclared, name.at),
    }
}

fn underlying_data(
    alloc: Global,
    declarations: &Declarations<'_>,
    tree: &DataType,
) -> Binding<NamedDataType>
    ensures { Binds result (spec.underlying_data declarations.now [] tree.now) }
{
    match tree {
        DataType::Named(name) => renamed(declarations, name),
        _ => data_type(alloc, declarations, tree),
    }
}

/// The types of these names, in order.
fn selected(
    alloc: Global,
    declarations: &Declarations<'_>,
    names: &[Name],
) -> Binding<Items<TypeName>>
    ensures { Binds result (each (scopes.type_name declarations.now) names.now) }
{
    let mut found = Gathered::new(alloc, names.len())?;
    for name in names {
        found.push(declarations.type_name(name))?;
    }
    found.finish()
}

#[tactic(auto, unfolding(crate::specs::Entities::underlying))]
fn underlying(
    alloc: Global,
    declarations: &Declarations<'_>,
    tree: &UnderlyingType,
) -> Binding<NamedUnderlying>
    ensures { Binds result (spec.underlying declarations.now [] tree.now) }
{
    match tree {
        UnderlyingType::Enumeration(names) => {
            names_once(alloc, names.as_slice())?;
            Ok(NamedUnderlying::Enumeration(copy_names(alloc, names.as_slice())?))
        },
        UnderlyingType::Select(names) => {
            let names = selected(alloc, declarations, names.as_slice())?;
            Ok(NamedUnderlying::Select(names))
        },
        UnderlyingType::Data(tree) => {
            let tree = underlying_data(alloc, declarations, tree)?;
            Ok(NamedUnderlying::Data(tree))
        },
    }
}

/// Whether a type doesn't hold itself, and each label of it stands once.
#[tactic(auto, unfolding(crate::specs::Wholes::type_names))]
fn type_names(alloc: Global, is_cyclic: bool, type_declaration: &TypeDeclaration) -> Binding<()>
    ensures { Binds result (parts.type_names is_cyclic type_declaration.now) }
{
    let not_cyclic = not_cyclic(NameFaultKind::CyclicType, is_cyclic, &type_declaration.name);
    let labels = labels_once(alloc, type_declaration.domain_rules.as_slice());
    both(not_cyclic, labels)?;
    Ok(())
}

/// What a type is made of.
#[tactic(auto, unfolding(crate::specs::Wholes::type_parts))]
fn type_parts(
    alloc: Global,
    declarations: &Declarations<'_>,
    scope: &Scope<'_>,
    type_declaration: &TypeDeclaration,
) -> Binding<(NamedUnderlying, Items<NamedDomainRule>)>
    requires { scope.now ≡ scope_of true [] }
    ensures { Binds result (parts.type_parts declarations.now type_declaration.now) }
{
    let rules = type_declaration.domain_rules.as_slice();
    let underlying = underlying(alloc, declarations, &type_declaration.underlying);
    let domain_rules = domain_rules(alloc, declarations, scope, rules);
    both(underlying, domain_rules)
}

fn type_in(
    alloc: Global,
    declarations: &Declarations<'_>,
    scope: &Scope<'_>,
    number: usize,
    is_cyclic: bool,
    type_declaration: &TypeDeclaration,
) -> Binding<NamedType>
    requires { scope.now ≡ scope_of true [] }
    ensures { (held : List (List ℕ)) → is_cyclic ≡ is_ancestor held number number → Binds result (spec.named_type declarations.now [] held number type_declaration.now) }
{
    let name = copy_name(alloc, &type_declaration.name)?;
    let names = type_names(alloc, is_cyclic, type_declaration);
    let parts = type_parts(alloc, declarations, scope, type_declaration);
    let ((), (underlying, domain_rules)) = both(names, parts)?;
    Ok(NamedType {
        name,
        underlying,
        domain_rules,
    })
}

/// Where the rules of a type stand.
fn type_over(
    alloc: Global,
    declarations: &Declarations<'_>,
    no_variables: &SortedNames<'_>,
    number: usize,
    is_cyclic: bool,
    type_declaration: &TypeDeclaration,
) -> Binding<NamedType>
    requires { no_variables.now ≡ [] }
    ensures { (held : List (List ℕ)) → is_cyclic ≡ is_ancestor held number number → Binds result (spec.named_type declarations.now [] held number type_declaration.now) }
{
    let nobody = Family::nobody();
    let none = BTreeSet::new(alloc);
    let scope = Scope::new(alloc, no_variables, true, &nobody, &none);
    type_in(
        alloc,
        declarations,
        &scope,
        number,
        is_cyclic,
        type_declaration,
    )
}

/// A defined type with its names bound. It is cyclic, if it holds itself other than through an entity.
pub fn named_type(
    alloc: Global,
    declarations: &Declarations<'_>,
    number: usize,
    is_cyclic: bool,
    type_declaration: &TypeDeclaration,
) -> Binding<NamedType>
    ensures { (held : List (List ℕ)) → is_cyclic ≡ is_ancestor held number number → Binds result (spec.named_type declarations.now [] held number type_declaration.now) }
{
    let no_variables = no_variables(alloc)?;
    type_over(
        alloc,
        declarations,
        &no_variables,
        number,
        is_cyclic,
        type_declaration,
    )
}
