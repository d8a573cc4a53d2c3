// Classes.

ghost use Rattle.std.specs.Prelude.{List};
ghost use Rattle.apex_lexer.specs.declared.token.Token.{Token};
ghost use Rattle.token_grammar.specs.Notation.{Give};
ghost use Rattle.token_grammar.specs.Readings.{Told};
ghost use Rattle.apex_parse_unit.specs.Classes as grammar;

use crate::members::members;
use crate::modifiers::class_modifiers;
use crate::named::unit_name;
use crate::part::ClassHead;
use apex_lexer::{Keyword, Sign, Token};
use apex_list::{Boxed, Items};
use apex_syntax::{ClassModifier, ClassTree, MemberTree, Word};
use apex_text::Span;
use std::alloc::Global;
use token_grammar::{
    Names, Stop, boxed, is_sign, is_word, name, open_sign, pass_sign, pass_word, span_of,
};

// The name behind `extends`, where that is written.
fn parent(alloc: Global, tokens: &[Token], at: usize) -> Result<(Option<Word>, usize), Stop>
    ensures { Told tokens.now grammar.parent at result }
{
    if is_word(tokens, at, Keyword::Extends) {
        let behind = pass_word(tokens, at, Keyword::Extends)?;
        let (word, end) = name(alloc, tokens, behind, Names::InCode)?;
        Ok((Some(word), end))
    } else {
        Ok((None, at))
    }
}

fn comma_name(alloc: Global, tokens: &[Token], at: usize) -> Result<(Word, usize), Stop>
    ensures { Told tokens.now grammar.comma_name at result }
{
    let behind = pass_sign(tokens, at, Sign::Comma)?;
    name(alloc, tokens, behind, Names::InCode)
}

// The names behind a first one.
fn more_names(
    alloc: Global,
    tokens: &[Token],
    at: usize,
    first: Word,
) -> Result<(Items<Word>, usize), Stop>
    ensures { Told tokens.now (grammar.more_names first) at result }
{
    let mut names = Items::new(alloc);
    names.push(first)?;
    let mut end = at;
    'names: while is_sign(tokens, end, Sign::Comma) {
        let (next, after) = comma_name(alloc, tokens, end)?;
        names.push(next)?;
        end = after;
    }
    Ok((names, end))
}

fn names(alloc: Global, tokens: &[Token], at: usize) -> Result<(Items<Word>, usize), Stop>
    ensures { Told tokens.now grammar.names at result }
{
    let (first, behind) = name(alloc, tokens, at, Names::InCode)?;
    more_names(alloc, tokens, behind, first)
}

// The names behind `implements`, where that is written.
fn interfaces(alloc: Global, tokens: &[Token], at: usize) -> Result<(Items<Word>, usize), Stop>
    ensures { Told tokens.now grammar.interfaces at result }
{
    if is_word(tokens, at, Keyword::Implements) {
        let behind = pass_word(tokens, at, Keyword::Implements)?;
        names(alloc, tokens, behind)
    } else {
        Ok((Items::new(alloc), at))
    }
}

// A name, its parent and its interfaces.
fn named_head(
    alloc: Global,
    tokens: &[Token],
    at: usize,
    modifiers: Items<ClassModifier>,
) -> Result<(ClassHead, usize), Stop>
    ensures { Told tokens.now (grammar.named_head modifiers) at result }
{
    let (name, behind) = unit_name(alloc, tokens, at)?;
    let (parent, behind) = parent(alloc, tokens, behind)?;
    let (interfaces, end) = interfaces(alloc, tokens, behind)?;
    Ok((
        ClassHead {
            modifiers,
            name,
            parent,
            interfaces,
        },
        end,
    ))
}

fn class_head(alloc: Global, tokens: &[Token], at: usize) -> Result<(ClassHead, usize), Stop>
    ensures { Told tokens.now grammar.class_head at result }
{
    let (modifiers, behind) = class_modifiers(alloc, tokens, at)?;
    let behind = pass_word(tokens, behind, Keyword::Class)?;
    named_head(alloc, tokens, behind, modifiers)
}

fn class_body(
    alloc: Global,
    tokens: &[Token],
    at: usize,
    room: usize,
) -> Result<(Items<MemberTree>, usize), Stop>
    ensures { Told tokens.now (grammar.class_body room) at result }
{
    let (inside, behind) = open_sign(tokens, at, Sign::OpenBrace, room)?;
    let (members, behind) = members(alloc, tokens, behind, inside)?;
    let end = pass_sign(tokens, behind, Sign::CloseBrace)?;
    Ok((members, end))
}

// A class that ends here, in a box.
fn made(
    alloc: Global,
    span: Span,
    head: ClassHead,
    members: Items<MemberTree>,
    end: usize,
) -> Result<(Boxed<ClassTree>, usize), Stop>
    ensures { (tokens : List Token) → Told tokens (Give (grammar.class_tree span head members)) end result }
{
    let tree = ClassTree {
        span,
        modifiers: head.modifiers,
        name: head.name.word,
        written: head.name.written,
        parent: head.parent,
        interfaces: head.interfaces,
        members,
    };
    boxed(alloc, tree, end)
}

/// A class.
pub fn class(
    alloc: Global,
    tokens: &[Token],
    at: usize,
    room: usize,
) -> Result<(Boxed<ClassTree>, usize), Stop>
    ensures { Told tokens.now (grammar.class room) at result }
{
    let (head, behind) = class_head(alloc, tokens, at)?;
    let (members, end) = class_body(alloc, tokens, behind, room)?;
    let span = span_of(tokens, at, end);
    made(alloc, span, head, members, end)
}
