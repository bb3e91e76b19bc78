//! The names of an entity's own scope.

ghost use Rattle.std.specs.Prelude.{◌≡◌, [], ◌++◌, map, IfOk, OnOk};
ghost use Rattle.std.specs.List.{filter_map, flat_map};
ghost use Rattle.ex_bind.specs.Rules.{labels};
ghost use Rattle.ex_declarations.specs.Declared as declared;
ghost use Rattle.ex_named.specs.Outcomes.{Binds};

use ex_declarations::once;
use ex_named::Binding;
use ex_tree::{
    AttributeDeclaration, DerivedAttribute, DomainRule, EntityBody, ExplicitAttribute,
    InverseAttribute, Name, UniqueRule,
};
use name_tables::{NameTable, SortedNames};
use std::alloc::{AllocError, Global};

/// Puts the names that attributes are declared by behind others. One that is declared again has none of its own.
fn push_own<'a>(
    names: &mut Vec<&'a Name>,
    declarations: &'a [AttributeDeclaration],
) -> Result<(), AllocError>
    ensures { OnOk result (map (λ n. n.now) names.new.items ≡ map (λ n. n.now) names.old.items ++ filter_map declared.own_name declarations.now) }
{
    for declaration in declarations {
        if let AttributeDeclaration::Own(name) = declaration {
            names.push(name)?;
        }
    }
    Ok(())
}

fn push_explicit<'a>(
    names: &mut Vec<&'a Name>,
    list: &'a [ExplicitAttribute],
) -> Result<(), AllocError>
    ensures { OnOk result (map (λ n. n.now) names.new.items ≡ map (λ n. n.now) names.old.items ++ flat_map (λ x. filter_map declared.own_name x.attributes) list.now) }
{
    for explicit in list {
        push_own(names, explicit.attributes.as_slice())?;
    }
    Ok(())
}

fn push_derived<'a>(
    names: &mut Vec<&'a Name>,
    list: &'a [DerivedAttribute],
) -> Result<(), AllocError>
    ensures { OnOk result (map (λ n. n.now) names.new.items ≡ map (λ n. n.now) names.old.items ++ filter_map (λ x. declared.own_name x.attribute) list.now) }
{
    for derived in list {
        if let AttributeDeclaration::Own(name) = &derived.attribute {
            names.push(name)?;
        }
    }
    Ok(())
}

fn push_inverse<'a>(
    names: &mut Vec<&'a Name>,
    list: &'a [InverseAttribute],
) -> Result<(), AllocError>
    ensures { OnOk result (map (λ n. n.now) names.new.items ≡ map (λ n. n.now) names.old.items ++ map (λ x. x.name) list.now) }
{
    for inverse in list {
        names.push(&inverse.name)?;
    }
    Ok(())
}

fn push_unique_labels<'a>(
    names: &mut Vec<&'a Name>,
    rules: &'a [UniqueRule],
) -> Result<(), AllocError>
    ensures { OnOk result (map (λ n. n.now) names.new.items ≡ map (λ n. n.now) names.old.items ++ labels (λ r. r.label) rules.now) }
{
    for rule in rules {
        if let Some(label) = &rule.label {
            names.push(label)?;
        }
    }
    Ok(())
}

fn push_labels<'a>(names: &mut Vec<&'a Name>, rules: &'a [DomainRule]) -> Result<(), AllocError>
    ensures { OnOk result (map (λ n. n.now) names.new.items ≡ map (λ n. n.now) names.old.items ++ labels (λ r. r.label) rules.now) }
{
    for rule in rules {
        if let Some(label) = &rule.label {
            names.push(label)?;
        }
    }
    Ok(())
}

/// The names that an entity declares, in the order of the text.
pub fn scope_names<'a>(alloc: Global, body: &'a EntityBody) -> Result<Vec<&'a Name>, AllocError>
    ensures { IfOk result (λ names. map (λ n. n.now) names.items ≡ declared.explicit_names body.now ++ declared.derived_names body.now ++ declared.inverse_names body.now ++ labels (λ r. r.label) body.now.unique_rules ++ labels (λ r. r.label) body.now.domain_rules) }
{
    let mut names = Vec::new(alloc);
    push_explicit(&mut names, body.explicit.as_slice())?;
    push_derived(&mut names, body.derived.as_slice())?;
    push_inverse(&mut names, body.inverse.as_slice())?;
    push_unique_labels(&mut names, body.unique_rules.as_slice())?;
    push_labels(&mut names, body.domain_rules.as_slice())?;
    Ok(names)
}

/// The frame of no parameters and no locals.
pub fn no_variables<'a>(alloc: Global) -> Result<SortedNames<'a>, AllocError>
    ensures { IfOk result (λ frame. frame ≡ []) }
{
    SortedNames::new(alloc, NameTable::new(alloc))
}

/// Whether no label of a WHERE clause stands twice.
pub fn labels_once(alloc: Global, rules: &[DomainRule]) -> Binding<()>
    ensures { Binds result (declared.once (labels (λ r. r.label) rules.now)) }
{
    let mut names = Vec::new(alloc);
    push_labels(&mut names, rules)?;
    once(alloc, &names)
}

/// Whether none of the names stands twice.
pub fn names_once(alloc: Global, names: &[Name]) -> Binding<()>
    ensures { Binds result (declared.once names.now) }
{
    let mut list = Vec::with_capacity(alloc, names.len())?;
    for name in names {
        list.push(name)?;
    }
    once(alloc, &list)
}
