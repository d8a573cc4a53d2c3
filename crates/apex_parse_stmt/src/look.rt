// What tells a statement by its first tokens.

ghost use Rattle.std.specs.Prelude.{◌≡◌, true, IfOk, MatchBool};
ghost use Rattle.token_grammar.specs.declared.read.Names.TheVariants as names;
ghost use Rattle.token_grammar.specs.Notation as notation;
ghost use Rattle.token_grammar.specs.Notation.{seen};
ghost use Rattle.token_grammar.specs.Tokens as shared;
ghost use Rattle.apex_parse_leaf.specs.Leaves as leaves;
ghost use Rattle.apex_parse_stmt.specs.Stmts as grammar;

use apex_lexer::{Keyword, Sign, Token, TokenKind};
use apex_parse_leaf::type_end;
use std::alloc::{AllocError, Global};
use token_grammar::{Names, is_name, is_sign, is_word, kind_at};

fn nested_word(kind: TokenKind) -> bool
    ensures { result ≡ grammar.is_nested kind }
{
    match kind {
        TokenKind::Keyword(word) => match word {
            Keyword::If | Keyword::While | Keyword::Do | Keyword::For | Keyword::Try => true,
            _ => false,
        },
        _ => false,
    }
}

fn jump_word(kind: TokenKind) -> bool
    ensures { result ≡ grammar.is_jump kind }
{
    match kind {
        TokenKind::Keyword(word) => match word {
            Keyword::Return | Keyword::Break | Keyword::Continue | Keyword::Throw => true,
            _ => false,
        },
        _ => false,
    }
}

fn dml_word(kind: TokenKind) -> bool
    ensures { result ≡ grammar.is_dml kind }
{
    match kind {
        TokenKind::Keyword(word) => match word {
            Keyword::Insert | Keyword::Update | Keyword::Delete | Keyword::Upsert => true,
            _ => false,
        },
        _ => false,
    }
}

fn prefix_sign(kind: TokenKind) -> bool
    ensures { result ≡ leaves.is_prefix kind }
{
    match kind {
        TokenKind::Sign(sign) => match sign {
            Sign::Not | Sign::Minus | Sign::Increment | Sign::Decrement => true,
            _ => false,
        },
        _ => false,
    }
}

fn expr_word(word: Keyword) -> bool
    ensures { result ≡ grammar.expr_word word }
{
    match word {
        Keyword::This
        | Keyword::Super
        | Keyword::New
        | Keyword::True
        | Keyword::False
        | Keyword::Null => true,
        _ => false,
    }
}

fn expr_token(kind: TokenKind) -> bool
    ensures { result ≡ grammar.expr_token kind }
{
    match kind {
        TokenKind::Integer(_) | TokenKind::Long(_) | TokenKind::Decimal(_) | TokenKind::Quoted =>
            true,
        TokenKind::Keyword(word) => expr_word(word),
        TokenKind::Sign(sign) => match sign {
            Sign::OpenParen | Sign::OpenBracket => true,
            _ => false,
        },
        _ => false,
    }
}

fn stmt_sign(kind: TokenKind) -> bool
    ensures { result ≡ grammar.stmt_sign kind }
{
    match kind {
        TokenKind::Sign(sign) => match sign {
            Sign::OpenBrace | Sign::Semicolon => true,
            _ => false,
        },
        _ => false,
    }
}

fn begins_expr(kind: TokenKind) -> bool
    ensures { result ≡ grammar.begins_expr kind }
{
    is_name(Names::InCode, kind) || prefix_sign(kind) || expr_token(kind)
}

fn begins_stmt(kind: TokenKind) -> bool
    ensures { result ≡ grammar.begins_stmt kind }
{
    stmt_sign(kind) || nested_word(kind) || jump_word(kind) || dml_word(kind) || begins_expr(kind)
}

/// Whether a statement may begin here.
pub fn is_stmt(tokens: &[Token], at: usize) -> bool
    ensures { MatchBool result (grammar.next_stmt (seen tokens.now) at) (grammar.next_stmt (seen tokens.now) at → ⊥) }
{
    begins_stmt(kind_at(tokens, at))
}

/// Whether a name stands here.
pub fn is_named(tokens: &[Token], at: usize) -> bool
    ensures { MatchBool result (shared.is_name names.InCode (notation.kind_at (seen tokens.now) at) ≡ true) (shared.is_name names.InCode (notation.kind_at (seen tokens.now) at) ≡ true → ⊥) }
{
    is_name(Names::InCode, kind_at(tokens, at))
}

/// Whether a type of any depth and a name stand here.
pub fn is_declared(alloc: Global, tokens: &[Token], at: usize) -> Result<bool, AllocError>
    ensures { IfOk result (λ found. MatchBool found (grammar.next_declared (seen tokens.now) at) (grammar.next_declared (seen tokens.now) at → ⊥)) }
{
    match type_end(alloc, tokens, at)? {
        Some(end) => Ok(is_named(tokens, end)),
        None => Ok(false),
    }
}

/// Whether the word here begins a statement that has statements in it.
pub fn is_nested(tokens: &[Token], at: usize) -> bool
    ensures { MatchBool result (grammar.next_of grammar.is_nested (seen tokens.now) at) (grammar.next_of grammar.is_nested (seen tokens.now) at → ⊥) }
{
    nested_word(kind_at(tokens, at))
}

/// Whether the word here begins a statement that goes on elsewhere.
pub fn is_jump(tokens: &[Token], at: usize) -> bool
    ensures { MatchBool result (grammar.next_of grammar.is_jump (seen tokens.now) at) (grammar.next_of grammar.is_jump (seen tokens.now) at → ⊥) }
{
    jump_word(kind_at(tokens, at))
}

/// Whether the word here begins a statement that changes records.
pub fn is_dml(tokens: &[Token], at: usize) -> bool
    ensures { MatchBool result (grammar.next_of grammar.is_dml (seen tokens.now) at) (grammar.next_of grammar.is_dml (seen tokens.now) at → ⊥) }
{
    dml_word(kind_at(tokens, at))
}

/// Whether a word and a parenthesis stand here.
pub fn is_call(tokens: &[Token], at: usize, word: Keyword) -> bool
    ensures { MatchBool result (grammar.next_call word (seen tokens.now) at) (grammar.next_call word (seen tokens.now) at → ⊥) }
{
    is_word(tokens, at, word) && is_sign(tokens, at + 1, Sign::OpenParen)
}
