// Expressions and operators of one token, and what is asked of tokens.

ghost use Rattle.std.specs.Prelude.{◌≡◌, ◌<◌, Some, IfOk, IfErr, MatchBool};
ghost use Rattle.apex_syntax.specs.declared.expr.Expr.TheVariants.{Literal as LiteralTree};
ghost use Rattle.apex_syntax.specs.declared.expr.Literal.TheVariants.{Text as TextTree};
ghost use Rattle.token_grammar.specs.Literals.{literal_bytes};
ghost use Rattle.token_grammar.specs.Readings.{Told, IsNoMemory};
ghost use Rattle.apex_lexer.specs.Reading.{shown};
ghost use Rattle.token_grammar.specs.Notation.{seen};
ghost use Rattle.apex_parse_leaf.specs.Leaves as grammar;

use crate::level::Level;
use apex_lexer::{Keyword, Sign, Token, TokenKind};
use apex_list::Boxed;
use apex_syntax::{AssignOp, BinaryOp, Expr, Literal, NumberTree, PostfixPart, PrefixOp, StepOp};
use apex_text::Span;
use std::alloc::{AllocError, Global};
use token_grammar::{Names, ParseWord, Stop, is_name, is_sign, kind_at, literal_bytes, token_at};

fn made(alloc: Global, tree: Expr) -> Result<Option<Boxed<Expr>>, AllocError>
    ensures { IfOk result (λ made. made ≡ Some tree) }
{
    Ok(Some(Boxed::new(alloc, tree)?))
}

fn word_of(alloc: Global, span: Span, word: Keyword) -> Result<Option<Boxed<Expr>>, AllocError>
    ensures { IfOk result (λ made. made ≡ grammar.word_expr span word) }
{
    match word {
        Keyword::True => made(alloc, Expr::Literal(span, Literal::Bool(true))),
        Keyword::False => made(alloc, Expr::Literal(span, Literal::Bool(false))),
        Keyword::Null => made(alloc, Expr::Literal(span, Literal::Null)),
        Keyword::This => made(alloc, Expr::This(span)),
        Keyword::Super => made(alloc, Expr::Super(span)),
        _ => Ok(None),
    }
}

fn number(alloc: Global, span: Span, number: NumberTree) -> Result<Option<Boxed<Expr>>, AllocError>
    ensures { IfOk result (λ made. made ≡ grammar.number_expr span number) }
{
    made(alloc, Expr::Literal(span, Literal::Number(number)))
}

fn quoted(alloc: Global, span: Span, text: &[u8]) -> Result<Option<Boxed<Expr>>, AllocError>
    ensures { IfOk result (λ made. made ≡ Some (LiteralTree span (TextTree (literal_bytes text.now)))) }
{
    let bytes = literal_bytes(alloc, text)?;
    made(alloc, Expr::Literal(span, Literal::Text(bytes)))
}

// The expression that one token is.
fn simple_of(alloc: Global, token: &Token) -> Result<Option<Boxed<Expr>>, AllocError>
    ensures { IfOk result (λ made. made ≡ grammar.simple_of (shown token.now)) }
{
    let span = token.span;
    match token.kind {
        TokenKind::Integer(n) => number(alloc, span, NumberTree::Integer(n)),
        TokenKind::Long(n) => number(alloc, span, NumberTree::Long(n)),
        TokenKind::Decimal(n) => number(alloc, span, NumberTree::Decimal(n)),
        TokenKind::Quoted => quoted(alloc, span, token.text),
        TokenKind::Keyword(word) => word_of(alloc, span, word),
        _ => Ok(None),
    }
}

/// An expression of one token that is no name.
pub fn simple(alloc: Global, tokens: &[Token], at: usize) -> Result<(Boxed<Expr>, usize), Stop>
    ensures { Told tokens.now grammar.simple at result }
{
    if let Some(token) = token_at(tokens, at) {
        if let Some(expr) = simple_of(alloc, token)? {
            return Ok((expr, at + 1));
        }
    }
    Err(Stop::At(ParseWord::Expected, at))
}

/// Whether a parenthesis, a name and `=` stand here.
pub fn is_fields(tokens: &[Token], at: usize) -> bool
    ensures { MatchBool result (grammar.next_fields (seen tokens.now) at) (grammar.next_fields (seen tokens.now) at → ⊥) }
{
    is_sign(tokens, at, Sign::OpenParen)
        && is_name(Names::InCode, kind_at(tokens, at + 1))
        && is_sign(tokens, at + 2, Sign::Assign)
}

/// Whether what goes on with a primary expression stands here.
pub fn is_part(tokens: &[Token], at: usize) -> bool
    ensures { MatchBool result (grammar.next_part (seen tokens.now) at) (grammar.next_part (seen tokens.now) at → ⊥) }
{
    match kind_at(tokens, at) {
        TokenKind::Sign(sign) => match sign {
            Sign::Dot | Sign::OpenBracket => true,
            _ => false,
        },
        _ => false,
    }
}

fn step_of(span: Span, kind: TokenKind) -> Option<PostfixPart>
    ensures { result ≡ grammar.step_kind span kind }
{
    match kind {
        TokenKind::Sign(sign) => match sign {
            Sign::Increment => Some(PostfixPart::Step(span, StepOp::Increment)),
            Sign::Decrement => Some(PostfixPart::Step(span, StepOp::Decrement)),
            _ => None,
        },
        _ => None,
    }
}

/// Whether `++` or `--` stands here.
pub fn is_step(tokens: &[Token], at: usize) -> bool
    ensures { MatchBool result (grammar.next_step (seen tokens.now) at) (grammar.next_step (seen tokens.now) at → ⊥) }
{
    match kind_at(tokens, at) {
        TokenKind::Sign(sign) => match sign {
            Sign::Increment | Sign::Decrement => true,
            _ => false,
        },
        _ => false,
    }
}

/// `++` or `--`
pub fn step(tokens: &[Token], at: usize) -> Result<(PostfixPart, usize), Stop>
    ensures told { Told tokens.now grammar.step at result }
    ensures memory { IfErr result (λ stop. IsNoMemory stop → ⊥) }
{
    if let Some(token) = token_at(tokens, at) {
        if let Some(part) = step_of(token.span, token.kind) {
            return Ok((part, at + 1));
        }
    }
    Err(Stop::At(ParseWord::Expected, at))
}

fn prefix_of(kind: TokenKind) -> Option<PrefixOp>
    ensures { result ≡ grammar.prefix_kind kind }
{
    match kind {
        TokenKind::Sign(sign) => match sign {
            Sign::Not => Some(PrefixOp::Not),
            Sign::Minus => Some(PrefixOp::Minus),
            Sign::Increment => Some(PrefixOp::Increment),
            Sign::Decrement => Some(PrefixOp::Decrement),
            _ => None,
        },
        _ => None,
    }
}

/// Whether a prefix operator stands here.
pub fn is_prefix(tokens: &[Token], at: usize) -> bool
    ensures { MatchBool result (grammar.next_prefix (seen tokens.now) at) (grammar.next_prefix (seen tokens.now) at → ⊥) }
{
    match kind_at(tokens, at) {
        TokenKind::Sign(sign) => match sign {
            Sign::Not | Sign::Minus | Sign::Increment | Sign::Decrement => true,
            _ => false,
        },
        _ => false,
    }
}

fn prefix_op(tokens: &[Token], at: usize) -> Result<(PrefixOp, usize), Stop>
    ensures told { Told tokens.now grammar.prefix_op at result }
    ensures memory { IfErr result (λ stop. IsNoMemory stop → ⊥) }
{
    if let Some(token) = token_at(tokens, at) {
        if let Some(op) = prefix_of(token.kind) {
            return Ok((op, at + 1));
        }
    }
    Err(Stop::At(ParseWord::Expected, at))
}

/// A prefix operator, where `room` more forms may be open.
pub fn open_prefix(tokens: &[Token], at: usize, room: usize) -> Result<(PrefixOp, usize), Stop>
    ensures told { Told tokens.now (grammar.open_prefix room) at result }
    ensures room { IfOk result (λ _. 0 < room) }
    ensures memory { IfErr result (λ stop. IsNoMemory stop → ⊥) }
{
    let (op, behind) = prefix_op(tokens, at)?;
    if room == 0 {
        return Err(Stop::At(ParseWord::TooDeep, at));
    }
    Ok((op, behind))
}

fn assign_of(kind: TokenKind) -> Option<AssignOp>
    ensures { result ≡ grammar.assign_kind kind }
{
    match kind {
        TokenKind::Sign(sign) => match sign {
            Sign::Assign => Some(AssignOp::Assign),
            Sign::AddTo => Some(AssignOp::Add),
            Sign::SubtractFrom => Some(AssignOp::Subtract),
            Sign::MultiplyBy => Some(AssignOp::Multiply),
            Sign::DivideBy => Some(AssignOp::Divide),
            _ => None,
        },
        _ => None,
    }
}

/// Whether an operator that assigns stands here, behind what can be its target.
pub fn is_assign(tokens: &[Token], at: usize, target: bool) -> bool
    ensures { MatchBool result (grammar.next_assign target (seen tokens.now) at) (grammar.next_assign target (seen tokens.now) at → ⊥) }
{
    target && assign_of(kind_at(tokens, at)).is_some()
}

fn assign_op(tokens: &[Token], at: usize) -> Result<(AssignOp, usize), Stop>
    ensures told { Told tokens.now grammar.assign_op at result }
    ensures memory { IfErr result (λ stop. IsNoMemory stop → ⊥) }
{
    if let Some(token) = token_at(tokens, at) {
        if let Some(op) = assign_of(token.kind) {
            return Ok((op, at + 1));
        }
    }
    Err(Stop::At(ParseWord::Expected, at))
}

/// An operator that assigns, where `room` more forms may be open.
pub fn open_assign(tokens: &[Token], at: usize, room: usize) -> Result<(AssignOp, usize), Stop>
    ensures told { Told tokens.now (grammar.open_assign room) at result }
    ensures room { IfOk result (λ _. 0 < room) }
    ensures memory { IfErr result (λ stop. IsNoMemory stop → ⊥) }
{
    let (op, behind) = assign_op(tokens, at)?;
    if room == 0 {
        return Err(Stop::At(ParseWord::TooDeep, at));
    }
    Ok((op, behind))
}

fn sign_op(level: Level, sign: Sign) -> Option<BinaryOp>
    ensures { result ≡ grammar.sign_op level sign }
{
    match level {
        Level::Or => match sign {
            Sign::Or => Some(BinaryOp::Or),
            _ => None,
        },
        Level::And => match sign {
            Sign::And => Some(BinaryOp::And),
            _ => None,
        },
        Level::Equal => match sign {
            Sign::Equal => Some(BinaryOp::Equal),
            Sign::Differs => Some(BinaryOp::Differs),
            _ => None,
        },
        Level::Order => match sign {
            Sign::Less => Some(BinaryOp::Less),
            Sign::AtMost => Some(BinaryOp::AtMost),
            Sign::More => Some(BinaryOp::More),
            Sign::AtLeast => Some(BinaryOp::AtLeast),
            _ => None,
        },
        Level::Sum => match sign {
            Sign::Plus => Some(BinaryOp::Plus),
            Sign::Minus => Some(BinaryOp::Minus),
            _ => None,
        },
        Level::Product => match sign {
            Sign::Star => Some(BinaryOp::Times),
            Sign::Slash => Some(BinaryOp::Over),
            _ => None,
        },
    }
}

fn level_op(level: Level, kind: TokenKind) -> Option<BinaryOp>
    ensures { result ≡ grammar.level_op level kind }
{
    match kind {
        TokenKind::Sign(sign) => sign_op(level, sign),
        _ => None,
    }
}

/// Whether an operator of a level stands here.
pub fn is_op(tokens: &[Token], at: usize, level: Level) -> bool
    ensures { MatchBool result (grammar.next_op level (seen tokens.now) at) (grammar.next_op level (seen tokens.now) at → ⊥) }
{
    level_op(level, kind_at(tokens, at)).is_some()
}

/// An operator of a level.
pub fn op(tokens: &[Token], at: usize, level: Level) -> Result<(BinaryOp, usize), Stop>
    ensures told { Told tokens.now (grammar.op level) at result }
    ensures memory { IfErr result (λ stop. IsNoMemory stop → ⊥) }
{
    if let Some(token) = token_at(tokens, at) {
        if let Some(op) = level_op(level, token.kind) {
            return Ok((op, at + 1));
        }
    }
    Err(Stop::At(ParseWord::Expected, at))
}
