//! The first fault of a text.

ghost use Rattle.std.specs.Prelude.{◌≡◌};
ghost use Rattle.ex_check.specs.Check as spec;

use ex_named::{NameFault, NameFaultKind};
use ex_subtypes::{SubtypeFault, SubtypeFaultKind};
use ex_tree::{LexFault, LexFaultKind, ParseFault, ParseFaultKind};
use ex_types::{TypeFault, TypeFaultKind};

/// The first fault of a text that is no schema: of its tokens, else of its syntax, else of its names, else of its types,
/// else of its supertype expressions.
#[derive(Clone, Copy, PartialEq, Eq)]
pub enum SchemaFault {
    Lexical(LexFault),
    Syntactic(ParseFault),
    Naming(NameFault),
    Typing(TypeFault),
    Constraining(SubtypeFault),
}

impl SchemaFault {
    /// The name of the fault's kind.
    pub fn name(self) -> &'static str
        ensures { result.now ≡ spec.name self }
    {
        match self {
            SchemaFault::Lexical(fault) => lexical_name(fault.kind),
            SchemaFault::Syntactic(fault) => syntactic_name(fault.kind),
            SchemaFault::Naming(fault) => naming_name(fault.kind),
            SchemaFault::Typing(fault) => typing_name(fault.kind),
            SchemaFault::Constraining(fault) => constraining_name(fault.kind),
        }
    }

    /// The byte at which the fault lies.
    pub fn at(self) -> usize
        ensures { result ≡ spec.place self }
    {
        match self {
            SchemaFault::Lexical(fault) => fault.at,
            SchemaFault::Syntactic(fault) => fault.at,
            SchemaFault::Naming(fault) => fault.at,
            SchemaFault::Typing(fault) => fault.at,
            SchemaFault::Constraining(fault) => fault.at,
        }
    }
}

fn lexical_name(kind: LexFaultKind) -> &'static str
    ensures { result.now ≡ spec.lexical_name kind }
{
    match kind {
        LexFaultKind::Token => "Token",
        LexFaultKind::OpenString => "OpenString",
        LexFaultKind::OpenRemark => "OpenRemark",
        LexFaultKind::BadEncoded => "BadEncoded",
        LexFaultKind::TooBig => "TooBig",
    }
}

fn syntactic_name(kind: ParseFaultKind) -> &'static str
    ensures { result.now ≡ spec.syntactic_name kind }
{
    match kind {
        ParseFaultKind::Syntax => "Syntax",
        ParseFaultKind::TooDeep => "TooDeep",
        ParseFaultKind::OutOfProfile(_) => "OutOfProfile",
    }
}

fn naming_name(kind: NameFaultKind) -> &'static str
    ensures { result.now ≡ spec.naming_name kind }
{
    match kind {
        NameFaultKind::Undeclared => "Undeclared",
        NameFaultKind::DeclaredTwice => "DeclaredTwice",
        NameFaultKind::CyclicSubtype => "CyclicSubtype",
        NameFaultKind::CyclicType => "CyclicType",
        NameFaultKind::NotAnAttribute => "NotAnAttribute",
    }
}

fn typing_name(kind: TypeFaultKind) -> &'static str
    ensures { result.now ≡ spec.typing_name kind }
{
    match kind {
        TypeFaultKind::RealArithmetic => "RealArithmetic",
        TypeFaultKind::EntityComparison => "EntityComparison",
        TypeFaultKind::Operand => "Operand",
        TypeFaultKind::Arguments => "Arguments",
        TypeFaultKind::Assign => "Assign",
        TypeFaultKind::Qualifier => "Qualifier",
        TypeFaultKind::Ambiguous => "Ambiguous",
    }
}

fn constraining_name(kind: SubtypeFaultKind) -> &'static str
    ensures { result.now ≡ spec.constraining_name kind }
{
    match kind {
        SubtypeFaultKind::NamedTwice => "NamedTwice",
        SubtypeFaultKind::NotDirectSubtype => "NotDirectSubtype",
    }
}
