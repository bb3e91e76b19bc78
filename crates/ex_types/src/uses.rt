//! Names of attributes that mean two.

ghost use Rattle.std.specs.Prelude.{◌≡◌};
ghost use Rattle.ex_types.specs.Declarations as spec;

use ex_kinds::{TypeFault, TypeFaultKind, either, fault_at};
use ex_named::{AttributeMeaning, AttributeUse, NamedAttribute};

/// The fault of a name that means two attributes.
pub fn ambiguous(name: &AttributeUse) -> Option<TypeFault>
    ensures { result ≡ spec.ambiguous name.now }
{
    match name.meaning {
        AttributeMeaning::One(_) => None,
        AttributeMeaning::Several => fault_at(TypeFaultKind::Ambiguous, name.at),
    }
}

/// The fault that is told of names of attributes.
pub fn all_ambiguous(names: &[AttributeUse]) -> Option<TypeFault>
    ensures { result ≡ spec.told spec.ambiguous names.now }
{
    let mut found = None;
    for name in names {
        found = either(found, ambiguous(name));
    }
    found
}

/// The fault of an attribute that is redeclared.
pub fn attribute(attribute: &NamedAttribute) -> Option<TypeFault>
    ensures { result ≡ spec.attribute attribute.now }
{
    match attribute {
        NamedAttribute::Own(_) => None,
        NamedAttribute::Redeclared(redeclaration) => ambiguous(&redeclaration.attribute),
    }
}

/// The fault that is told of attributes that are declared together.
pub fn attributes(list: &[NamedAttribute]) -> Option<TypeFault>
    ensures { result ≡ spec.told spec.attribute list.now }
{
    let mut found = None;
    for each in list {
        found = either(found, attribute(each));
    }
    found
}

/// Where a fault of the attribute's value lies.
pub fn place_of(attribute: &NamedAttribute) -> usize
    ensures { result ≡ spec.place_of attribute.now }
{
    match attribute {
        NamedAttribute::Own(name) => name.at,
        NamedAttribute::Redeclared(redeclaration) => redeclaration.attribute.at,
    }
}
