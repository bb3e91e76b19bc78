//! A file whose instances are shown one after the other, and not kept.

ghost use Rattle.std.specs.Prelude.{◌≡◌, ◌++◌, ◌∷◌, List, [], true, IfOk, IfSome};
ghost use Rattle.text_forms.specs.Forms.{repeat};
ghost use Rattle.p21_lexemes.specs.Tokens.{sees};
ghost use Rattle.p21_lexemes.specs.declared.token.TokenKind.TheVariants as k;
ghost use Rattle.p21_tree.specs.declared.instance.Instance as tree;
ghost use Rattle.p21_grammar.specs.Grammar as grammar;
ghost use Rattle.p21_grammar.specs.File.{data_section, file, file_of};
ghost use Rattle.p21_grammar.specs.Visited as spec;

use crate::grammar::{Read, instance};
use crate::header::{Head, header_section, line};
use crate::source::Source;
use crate::whole::{file_end, mark, section};
use p21_lexemes::{TokenKind, Tokens};
use p21_tree::{Instance, Raw, Section};
use plain_data::{Failure, Rows};
use std::alloc::{AllocError, Global};
use std::mem;

/// What the instances of a file are shown to, in their order.
pub trait Visitor {
    /// Whether the first becomes the second where these instances are shown to it.
    ghost becomes: { Self → List tree.Instance → Self → Type 0 };

    /// Looks at the next instance: whether it wants to see more.
    fn visit(&mut self, alloc: Global, instance: &Instance<'_>) -> Result<bool, AllocError>
        ensures { IfOk result (λ goes_on. (first : Self) → (xs : List tree.Instance) → goes_on ≡ true → becomes first xs self.old → becomes first (xs ++ instance.now ∷ []) self.new) };
}

/// Shows the instances that come next; nothing where they aren't all wanted.
fn show_all<V: Visitor>(alloc: Global, source: &mut Source<'_>, visitor: &mut V) -> Read<Option<()>>
    ensures { (first : V) → (xs : List tree.Instance) → V.becomes first xs visitor.old → IfOk result (λ shown. IfSome shown (λ rest. spec.Shown (V.becomes first) spec.of_instances rest source.new visitor.new (repeat (sees k.Name) grammar.instance xs source.old))) }
{
    'instances: while source.tokens.sees(TokenKind::Name) {
        let next = instance(alloc, source)?;
        if !visitor.visit(alloc, &next)? {
            return Ok(None);
        }
        source.leave_instance(next)?;
    }
    Ok(Some(()))
}

/// Shows the instances of a data section, and gives its names.
#[tactic(auto, unfolding(crate::specs::File::data_section, crate::specs::Grammar::instances))]
fn show_section<'t, V: Visitor>(
    alloc: Global,
    tokens: &mut Tokens<'t>,
    visitor: &mut V,
) -> Read<Option<Option<Section<'t>>>>
    ensures { (first : V) → V.becomes first [] visitor.old → IfOk result (λ shown. IfSome shown (λ section. spec.Shown (V.becomes first) spec.of_body section tokens.new visitor.new (data_section tokens.old))) }
{
    tokens.expect_word(b"DATA")?;
    let section = section(tokens)?;
    tokens.expect(TokenKind::Semicolon)?;
    let mut source = Source::new(alloc, mem::replace(tokens, Tokens::new(b"")));
    let Some(_) = show_all(alloc, &mut source, visitor)? else {
        return Ok(None);
    };
    *tokens = source.into_tokens();
    line(tokens, b"ENDSEC")?;
    Ok(Some(section))
}

#[tactic(auto, unfolding(crate::specs::File::file))]
fn show_file<'t, V: Visitor>(
    alloc: Global,
    tokens: &mut Tokens<'t>,
    visitor: &mut V,
) -> Read<Option<Raw<'t>>>
    ensures { (first : V) → V.becomes first [] visitor.old → IfOk result (λ shown. IfSome shown (λ rest. spec.Shown (V.becomes first) spec.of_file rest tokens.new visitor.new (file tokens.old))) }
{
    mark(tokens, TokenKind::FileStart)?;
    let Head { header, schema } = header_section(alloc, tokens)?;
    let Some(section) = show_section(alloc, tokens, visitor)? else {
        return Ok(None);
    };
    file_end(tokens)?;
    Ok(Some(Raw {
        header,
        schema,
        section,
        instances: Rows::new(alloc),
    }))
}

/// The file that a text spells, without its instances, which are shown to the visitor in their order. Nothing where the file
/// has a fault, of which `read_raw` tells, or where the visitor wanted to see no more.
///
/// # Errors
///
/// Want of memory.
pub fn read_visited<'t, V: Visitor>(
    alloc: Global,
    text: &'t [u8],
    visitor: &mut V,
) -> Result<Option<Raw<'t>>, AllocError>
    ensures { (first : V) → V.becomes first [] visitor.old → IfOk result (λ shown. IfSome shown (λ rest. spec.ShownAll (V.becomes first) rest visitor.new (file_of text.now))) }
{
    let mut tokens = Tokens::of_file(text);
    match show_file(alloc, &mut tokens, visitor) {
        Ok(shown) => Ok(shown),
        Err(Failure::Fault(_)) => Ok(None),
        Err(Failure::NoMemory) => Err(AllocError),
    }
}
