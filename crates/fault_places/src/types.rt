//! Types, as people are told what is taken of them: bounds and widths are no matter of it.
use ex_layouts::Dictionary;
use ex_named::{NamedDataType, NamedUnderlying, TypeName};
use ex_tree::SimpleType;
use std::alloc::AllocError;

/// The name of a type or an entity.
fn name_of<'s>(schema: &Dictionary<'s>, name: TypeName) -> &'s str {
    match name {
        TypeName::Entity(number) => entity_name(schema, number),
        TypeName::Defined(number) => match schema.types().get(number) {
            Some(declared) => declared.name.text.as_str(),
            None => "?",
        },
    }
}

/// The name of the entity of a number.
pub(crate) fn entity_name<'s>(schema: &Dictionary<'s>, number: usize) -> &'s str {
    match schema.entities().get(number) {
        Some(entity) => entity.name.text.as_str(),
        None => "?",
    }
}

/// Puts a word behind others, with a comma between.
pub(crate) fn push_listed(out: &mut String, is_first: bool, word: &str) -> Result<(), AllocError> {
    if !is_first {
        out.push_str(", ")?;
    }
    out.push_str(word)
}

fn word_of(simple: SimpleType) -> &'static str {
    match simple {
        SimpleType::Binary(_) => "BINARY",
        SimpleType::String(_) => "STRING",
        SimpleType::Boolean => "BOOLEAN",
        SimpleType::Integer => "INTEGER",
        SimpleType::Logical => "LOGICAL",
        SimpleType::Number => "NUMBER",
        SimpleType::Real => "REAL",
    }
}

/// The type of the elements, where it is an aggregate, with the word before it; else the words that tell the type.
enum Words<'s> {
    Of(&'static str, &'s NamedDataType),
    Whole(&'s str),
}

fn words_of<'s>(data_type: &'s NamedDataType, schema: &Dictionary<'s>) -> Words<'s> {
    match data_type {
        NamedDataType::Simple(simple) => Words::Whole(word_of(*simple)),
        NamedDataType::Named(name) => Words::Whole(name_of(schema, *name)),
        NamedDataType::Aggregate(_) | NamedDataType::Generic => Words::Whole("GENERIC"),
        NamedDataType::Array {
            bounds: _,
            optional: _,
            unique: _,
            element,
        } => Words::Of("ARRAY OF ", element.get()),
        NamedDataType::List {
            bounds: _,
            unique: _,
            element,
        } => Words::Of("LIST OF ", element.get()),
        NamedDataType::Bag { bounds: _, element } => Words::Of("BAG OF ", element.get()),
        NamedDataType::Set { bounds: _, element } => Words::Of("SET OF ", element.get()),
    }
}

/// How many types are told of which one is in another, or one another's name.
const MOST: usize = 8;

/// Puts a type behind words.
pub(crate) fn push_type<'s>(
    out: &mut String,
    data_type: &'s NamedDataType,
    schema: &Dictionary<'s>,
) -> Result<(), AllocError> {
    let mut data_type = data_type;
    for _ in 0..MOST {
        match words_of(data_type, schema) {
            Words::Whole(words) => return out.push_str(words),
            Words::Of(words, element) => {
                out.push_str(words)?;
                data_type = element;
            }
        }
    }
    out.push_str("..")
}

/// Puts what a defined type is behind words.
fn push_underlying<'s>(
    out: &mut String,
    underlying: &'s NamedUnderlying,
    schema: &Dictionary<'s>,
) -> Result<(), AllocError> {
    match underlying {
        NamedUnderlying::Data(data_type) => return push_type(out, data_type, schema),
        NamedUnderlying::Enumeration(items) => {
            out.push_str("ENUMERATION OF (")?;
            for (place, item) in items.as_slice().iter().enumerate() {
                push_listed(out, place == 0, item.text.as_str())?;
            }
        }
        NamedUnderlying::Select(items) => {
            out.push_str("SELECT (")?;
            for (place, item) in items.as_slice().iter().enumerate() {
                push_listed(out, place == 0, name_of(schema, *item))?;
            }
        }
    }
    out.push(')')
}

/// Puts sentences behind words: what a defined type is, and if that is another name, what that is.
pub(crate) fn push_behind_names<'s>(
    out: &mut String,
    data_type: &'s NamedDataType,
    schema: &Dictionary<'s>,
) -> Result<(), AllocError> {
    let mut next = data_type;
    for _ in 0..MOST {
        let NamedDataType::Named(TypeName::Defined(number)) = next else {
            return Ok(());
        };
        let Some(declared) = schema.types().get(*number) else {
            return Ok(());
        };
        out.push('\n')?;
        out.push_str(declared.name.text.as_str())?;
        out.push_str(" is ")?;
        push_underlying(out, &declared.underlying, schema)?;
        let NamedUnderlying::Data(data_type) = &declared.underlying else {
            return Ok(());
        };
        next = data_type;
    }
    Ok(())
}
