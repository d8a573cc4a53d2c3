// Interfaces.

ghost use Rattle.std.specs.Prelude.{List};
ghost use Rattle.apex_lexer.specs.declared.token.Token.{Token};
ghost use Rattle.token_grammar.specs.Notation.{Give};
ghost use Rattle.token_grammar.specs.Readings.{Told};
ghost use Rattle.apex_parse_unit.specs.Classes as grammar;

use crate::members::is_result;
use crate::modifiers::some_access;
use crate::named::unit_name;
use crate::params::{params, result_tree};
use crate::part::InterfaceHead;
use apex_lexer::{Keyword, Sign, Token};
use apex_list::{Boxed, Items};
use apex_syntax::{InterfaceTree, SignatureTree};
use apex_text::Span;
use std::alloc::Global;
use token_grammar::{Names, Stop, boxed, name, open_sign, pass_sign, pass_word, span_of};

fn interface_head(
    alloc: Global,
    tokens: &[Token],
    at: usize,
) -> Result<(InterfaceHead, usize), Stop>
    ensures { Told tokens.now grammar.interface_head at result }
{
    let (modifier, behind) = some_access(tokens, at)?;
    let behind = pass_word(tokens, behind, Keyword::Interface)?;
    let (name, end) = unit_name(alloc, tokens, behind)?;
    Ok((InterfaceHead { modifier, name }, end))
}

// A method without a body.
fn signature(
    alloc: Global,
    tokens: &[Token],
    at: usize,
    room: usize,
) -> Result<(Boxed<SignatureTree>, usize), Stop>
    ensures { Told tokens.now (grammar.signature room) at result }
{
    let (answer, behind) = result_tree(alloc, tokens, at, room)?;
    let (name, behind) = name(alloc, tokens, behind, Names::InCode)?;
    let (params, behind) = params(alloc, tokens, behind, room)?;
    let end = pass_sign(tokens, behind, Sign::Semicolon)?;
    let span = span_of(tokens, at, end);
    let tree = SignatureTree {
        span,
        result: answer.into_value(),
        name,
        params,
    };
    boxed(alloc, tree, end)
}

fn signatures(
    alloc: Global,
    tokens: &[Token],
    at: usize,
    room: usize,
) -> Result<(Items<SignatureTree>, usize), Stop>
    ensures { Told tokens.now (grammar.signatures room) at result }
{
    let mut all = Items::new(alloc);
    let mut end = at;
    'all: while is_result(tokens, end) {
        let (next, after) = signature(alloc, tokens, end, room)?;
        all.push(next.into_value())?;
        end = after;
    }
    Ok((all, end))
}

fn interface_body(
    alloc: Global,
    tokens: &[Token],
    at: usize,
    room: usize,
) -> Result<(Items<SignatureTree>, usize), Stop>
    ensures { Told tokens.now (grammar.interface_body room) at result }
{
    let (inside, behind) = open_sign(tokens, at, Sign::OpenBrace, room)?;
    let (methods, behind) = signatures(alloc, tokens, behind, inside)?;
    let end = pass_sign(tokens, behind, Sign::CloseBrace)?;
    Ok((methods, end))
}

// An interface that ends here, in a box.
fn made(
    alloc: Global,
    span: Span,
    head: InterfaceHead,
    methods: Items<SignatureTree>,
    end: usize,
) -> Result<(Boxed<InterfaceTree>, usize), Stop>
    ensures { (tokens : List Token) → Told tokens (Give (grammar.interface_tree span head methods)) end result }
{
    let tree = InterfaceTree {
        span,
        modifier: head.modifier,
        name: head.name.word,
        written: head.name.written,
        methods,
    };
    boxed(alloc, tree, end)
}

/// An interface.
pub fn interface(
    alloc: Global,
    tokens: &[Token],
    at: usize,
    room: usize,
) -> Result<(Boxed<InterfaceTree>, usize), Stop>
    ensures { Told tokens.now (grammar.interface room) at result }
{
    let (head, behind) = interface_head(alloc, tokens, at)?;
    let (methods, end) = interface_body(alloc, tokens, behind, room)?;
    let span = span_of(tokens, at, end);
    made(alloc, span, head, methods, end)
}
