// Modifiers of members, classes and interfaces.

ghost use Rattle.std.specs.Prelude.{◌≡◌, MatchBool};
ghost use Rattle.token_grammar.specs.Notation as notation;
ghost use Rattle.token_grammar.specs.Notation.{seen};
ghost use Rattle.token_grammar.specs.Readings.{Told};
ghost use Rattle.token_grammar.specs.Tokens.{optional};
ghost use Rattle.apex_parse_unit.specs.Members as members;
ghost use Rattle.apex_parse_unit.specs.Classes as classes;

use apex_lexer::{Keyword, Token, TokenKind};
use apex_list::Items;
use apex_syntax::{ClassModifier, ClassWord, MemberModifier, MemberWord};
use std::alloc::Global;
use token_grammar::{ParseWord, Stop, kind_at, pass_word, span_of, token_at};

/// What a modifier of a member says.
pub fn member_kind(kind: TokenKind) -> Option<MemberWord>
    ensures { result ≡ members.member_kind kind }
{
    match kind {
        TokenKind::Keyword(word) => match word {
            Keyword::Public => Some(MemberWord::Public),
            Keyword::Global => Some(MemberWord::Global),
            Keyword::Private => Some(MemberWord::Private),
            Keyword::Protected => Some(MemberWord::Protected),
            Keyword::Static => Some(MemberWord::Static),
            Keyword::Final => Some(MemberWord::Final),
            Keyword::Virtual => Some(MemberWord::Virtual),
            Keyword::Abstract => Some(MemberWord::Abstract),
            Keyword::Override => Some(MemberWord::Override),
            _ => None,
        },
        _ => None,
    }
}

fn member_word(tokens: &[Token], at: usize) -> Result<(MemberWord, usize), Stop>
    ensures { Told tokens.now (notation.Take members.member_word_of) at result }
{
    if let Some(token) = token_at(tokens, at) {
        if let Some(word) = member_kind(token.kind) {
            return Ok((word, at + 1));
        }
    }
    Err(Stop::At(ParseWord::Expected, at))
}

fn is_modifier(tokens: &[Token], at: usize) -> bool
    ensures { MatchBool result (members.next_some members.member_kind (seen tokens.now) at) (members.next_some members.member_kind (seen tokens.now) at → ⊥) }
{
    match member_kind(kind_at(tokens, at)) {
        Some(_) => true,
        None => false,
    }
}

fn modifier(tokens: &[Token], at: usize) -> Result<(MemberModifier, usize), Stop>
    ensures { Told tokens.now members.modifier at result }
{
    let (word, end) = member_word(tokens, at)?;
    let span = span_of(tokens, at, end);
    Ok((MemberModifier { span, word }, end))
}

/// The modifiers of a member.
pub fn modifiers(
    alloc: Global,
    tokens: &[Token],
    at: usize,
) -> Result<(Items<MemberModifier>, usize), Stop>
    ensures { Told tokens.now members.modifiers at result }
{
    let mut all = Items::new(alloc);
    let mut end = at;
    'all: while is_modifier(tokens, end) {
        let (next, after) = modifier(tokens, end)?;
        all.push(next)?;
        end = after;
    }
    Ok((all, end))
}

fn sharing_kind(kind: TokenKind) -> Option<ClassWord>
    ensures { result ≡ classes.sharing_kind kind }
{
    match kind {
        TokenKind::Keyword(word) => match word {
            Keyword::With => Some(ClassWord::WithSharing),
            Keyword::Without => Some(ClassWord::WithoutSharing),
            Keyword::Inherited => Some(ClassWord::InheritedSharing),
            _ => None,
        },
        _ => None,
    }
}

fn class_kind(kind: TokenKind) -> Option<ClassWord>
    ensures { result ≡ classes.class_kind kind }
{
    match kind {
        TokenKind::Keyword(word) => match word {
            Keyword::Public => Some(ClassWord::Public),
            Keyword::Global => Some(ClassWord::Global),
            Keyword::Private => Some(ClassWord::Private),
            Keyword::Virtual => Some(ClassWord::Virtual),
            Keyword::Abstract => Some(ClassWord::Abstract),
            _ => sharing_kind(kind),
        },
        _ => None,
    }
}

fn sharing_word(tokens: &[Token], at: usize) -> Result<(ClassWord, usize), Stop>
    ensures { Told tokens.now (notation.Take classes.sharing_of) at result }
{
    if let Some(token) = token_at(tokens, at) {
        if let Some(word) = sharing_kind(token.kind) {
            return Ok((word, at + 1));
        }
    }
    Err(Stop::At(ParseWord::Expected, at))
}

// A sharing keyword: two words.
fn sharing(tokens: &[Token], at: usize) -> Result<(ClassWord, usize), Stop>
    ensures { Told tokens.now classes.sharing at result }
{
    let (word, behind) = sharing_word(tokens, at)?;
    let end = pass_word(tokens, behind, Keyword::Sharing)?;
    Ok((word, end))
}

fn is_sharing(tokens: &[Token], at: usize) -> bool
    ensures { MatchBool result (members.next_some classes.sharing_kind (seen tokens.now) at) (members.next_some classes.sharing_kind (seen tokens.now) at → ⊥) }
{
    match sharing_kind(kind_at(tokens, at)) {
        Some(_) => true,
        None => false,
    }
}

fn one_word(tokens: &[Token], at: usize) -> Result<(ClassWord, usize), Stop>
    ensures { Told tokens.now (notation.Take classes.class_word_of) at result }
{
    if let Some(token) = token_at(tokens, at) {
        if let Some(word) = class_kind(token.kind) {
            return Ok((word, at + 1));
        }
    }
    Err(Stop::At(ParseWord::Expected, at))
}

fn class_word(tokens: &[Token], at: usize) -> Result<(ClassWord, usize), Stop>
    ensures { Told tokens.now classes.class_word at result }
{
    if is_sharing(tokens, at) {
        sharing(tokens, at)
    } else {
        one_word(tokens, at)
    }
}

fn is_class_modifier(tokens: &[Token], at: usize) -> bool
    ensures { MatchBool result (members.next_some classes.class_kind (seen tokens.now) at) (members.next_some classes.class_kind (seen tokens.now) at → ⊥) }
{
    match class_kind(kind_at(tokens, at)) {
        Some(_) => true,
        None => false,
    }
}

fn class_modifier(tokens: &[Token], at: usize) -> Result<(ClassModifier, usize), Stop>
    ensures { Told tokens.now classes.class_modifier at result }
{
    let (word, end) = class_word(tokens, at)?;
    let span = span_of(tokens, at, end);
    Ok((ClassModifier { span, word }, end))
}

/// The modifiers of a class.
pub fn class_modifiers(
    alloc: Global,
    tokens: &[Token],
    at: usize,
) -> Result<(Items<ClassModifier>, usize), Stop>
    ensures { Told tokens.now classes.class_modifiers at result }
{
    let mut all = Items::new(alloc);
    let mut end = at;
    'all: while is_class_modifier(tokens, end) {
        let (next, after) = class_modifier(tokens, end)?;
        all.push(next)?;
        end = after;
    }
    Ok((all, end))
}

fn access_kind(kind: TokenKind) -> Option<ClassWord>
    ensures { result ≡ classes.access_kind kind }
{
    match kind {
        TokenKind::Keyword(word) => match word {
            Keyword::Public => Some(ClassWord::Public),
            Keyword::Global => Some(ClassWord::Global),
            _ => None,
        },
        _ => None,
    }
}

fn is_access(tokens: &[Token], at: usize) -> bool
    ensures { MatchBool result (members.next_some classes.access_kind (seen tokens.now) at) (members.next_some classes.access_kind (seen tokens.now) at → ⊥) }
{
    match access_kind(kind_at(tokens, at)) {
        Some(_) => true,
        None => false,
    }
}

fn access_word(tokens: &[Token], at: usize) -> Result<(ClassWord, usize), Stop>
    ensures { Told tokens.now (notation.Take classes.access_of) at result }
{
    if let Some(token) = token_at(tokens, at) {
        if let Some(word) = access_kind(token.kind) {
            return Ok((word, at + 1));
        }
    }
    Err(Stop::At(ParseWord::Expected, at))
}

fn access(tokens: &[Token], at: usize) -> Result<(ClassModifier, usize), Stop>
    ensures { Told tokens.now classes.access at result }
{
    let (word, end) = access_word(tokens, at)?;
    let span = span_of(tokens, at, end);
    Ok((ClassModifier { span, word }, end))
}

/// `public` or `global` before an interface, where that is written.
pub fn some_access(tokens: &[Token], at: usize) -> Result<(Option<ClassModifier>, usize), Stop>
    ensures { Told tokens.now (optional (members.next_some classes.access_kind) classes.access) at result }
{
    if is_access(tokens, at) {
        let (modifier, end) = access(tokens, at)?;
        Ok((Some(modifier), end))
    } else {
        Ok((None, at))
    }
}
