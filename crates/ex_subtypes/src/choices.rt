//! What a set of entities takes of a supertype expression.

ghost use Rattle.std.specs.Prelude.{◌≡◌, ◌<◌, ◌^◌};
ghost use Rattle.ex_subtypes.specs.Legal as legal;
ghost use Rattle.ex_subtypes.specs.Nodes as spec;

/// What a set takes of an expression.
#[derive(Clone, Copy)]
pub enum Choice {
    /// None of the entities that it names.
    Nothing,
    /// One of its combinations.
    Combination,
    /// Some of the entities, which are no combination.
    Neither,
}

/// How expressions are joined.
#[derive(Clone, Copy)]
pub enum Connective {
    OneOf,
    And,
    AndOr,
}

/// Whether it is some of the entities, which are no combination.
pub fn is_neither(choice: Choice) -> bool
    ensures { result ≡ legal.is_neither choice }
{
    matches!(choice, Choice::Neither)
}

/// The number of parts of which a combination is taken, with one part more.
pub fn with_part(count: usize, choice: Choice) -> usize
    requires { count < 2 ^ 63 }
    ensures { result ≡ spec.with_part count choice }
{
    match choice {
        Choice::Combination => count + 1,
        Choice::Nothing | Choice::Neither => count,
    }
}

/// What is taken of parts that are joined, where it is a combination of so many of them and nothing of the others.
pub fn by_count(way: Connective, count: usize, parts: usize) -> Choice
    ensures { result ≡ spec.by_count way count parts }
{
    if count == 0 {
        return Choice::Nothing;
    }
    match way {
        Connective::OneOf if 1 < count => Choice::Neither,
        Connective::And if count < parts => Choice::Neither,
        _ => Choice::Combination,
    }
}
