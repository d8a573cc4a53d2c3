// Operands without a binary operator. `expr`, `query` and `unary` read in a form that is opened.

ghost use Rattle.std.specs.Prelude.{List};
ghost use Rattle.apex_lexer.specs.declared.token.Token.{Token};
ghost use Rattle.token_grammar.specs.Notation.{Give};
ghost use Rattle.token_grammar.specs.Readings.{Told, ReadsBy};
ghost use Rattle.apex_parse_leaf.specs.Types as types;
ghost use Rattle.apex_parse_expr.specs.Exprs as grammar;

use crate::part::Part;
use crate::postfix::postfix;
use apex_lexer::{Sign, Token};
use apex_list::Boxed;
use apex_parse_leaf::{deeper_type, is_cast, is_prefix, open_prefix};
use apex_syntax::{Expr, QueryTree};
use std::alloc::Global;
use token_grammar::{Stop, open_sign, pass_sign, span_of};

// An operand in a form that is opened, where so many could be opened before that.
fn inner_unary<U: Fn(usize) -> Result<(Part, usize), Stop>>(
    tokens: &[Token],
    at: usize,
    room: usize,
    unary: &U,
) -> Result<(Part, usize), Stop>
    requires calls { U.IsAlwaysCallable unary.now }
    requires told { ReadsBy tokens.now (U.post unary.now) (grammar.deeper_unary room) }
    ensures { Told tokens.now (grammar.deeper_unary room) at result }
{
    let _ = tokens;
    let _ = room;
    unary(at)
}

// What can't be the target of an assignment.
fn closed(alloc: Global, tree: Expr, end: usize) -> Result<(Part, usize), Stop>
    ensures { (tokens : List Token) → Told tokens (Give (grammar.closed tree)) end result }
{
    let tree = Boxed::new(alloc, tree)?;
    Ok((
        Part {
            tree,
            target: false,
        },
        end,
    ))
}

// A prefix operator and an operand.
fn prefixed<U: Fn(usize) -> Result<(Part, usize), Stop>>(
    alloc: Global,
    tokens: &[Token],
    at: usize,
    room: usize,
    unary: &U,
) -> Result<(Part, usize), Stop>
    requires calls { U.IsAlwaysCallable unary.now }
    requires told { ReadsBy tokens.now (U.post unary.now) (grammar.deeper_unary room) }
    ensures { Told tokens.now (grammar.prefixed room (grammar.deeper_unary room)) at result }
{
    let (op, behind) = open_prefix(tokens, at, room)?;
    let (operand, end) = inner_unary(tokens, behind, room, unary)?;
    let span = span_of(tokens, at, end);
    closed(alloc, Expr::Prefix(span, op, operand.tree), end)
}

// A type in parentheses and an operand.
fn cast<U: Fn(usize) -> Result<(Part, usize), Stop>>(
    alloc: Global,
    tokens: &[Token],
    at: usize,
    room: usize,
    unary: &U,
) -> Result<(Part, usize), Stop>
    requires calls { U.IsAlwaysCallable unary.now }
    requires told { ReadsBy tokens.now (U.post unary.now) (grammar.deeper_unary room) }
    ensures { Told tokens.now (grammar.cast room (grammar.deeper_unary room) (types.deeper_type room)) at result }
{
    let (_, behind) = open_sign(tokens, at, Sign::OpenParen, room)?;
    let (kind, behind) = deeper_type(alloc, tokens, behind, room)?;
    let behind = pass_sign(tokens, behind, Sign::CloseParen)?;
    let (operand, end) = inner_unary(tokens, behind, room, unary)?;
    let span = span_of(tokens, at, end);
    closed(alloc, Expr::Cast(span, kind, operand.tree), end)
}

// A postfix expression, which can be the target of an assignment.
fn target<
    E: Fn(usize) -> Result<(Boxed<Expr>, usize), Stop>,
    Q: Fn(usize) -> Result<(Boxed<QueryTree>, usize), Stop>,
>(
    alloc: Global,
    tokens: &[Token],
    at: usize,
    room: usize,
    expr: &E,
    query: &Q,
) -> Result<(Part, usize), Stop>
    requires calls { E.IsAlwaysCallable expr.now }
    requires told { ReadsBy tokens.now (E.post expr.now) (grammar.deeper_expr room) }
    requires query_calls { Q.IsAlwaysCallable query.now }
    requires query_told { ReadsBy tokens.now (Q.post query.now) (grammar.deeper_query room) }
    ensures { Told tokens.now (grammar.target room (grammar.deeper_expr room) (grammar.deeper_query room) (types.type room)) at result }
{
    let (tree, end) = postfix(alloc, tokens, at, room, expr, query)?;
    Ok((Part { tree, target: true }, end))
}

/// An operand without a binary operator.
pub fn unary_with<
    E: Fn(usize) -> Result<(Boxed<Expr>, usize), Stop>,
    Q: Fn(usize) -> Result<(Boxed<QueryTree>, usize), Stop>,
    U: Fn(usize) -> Result<(Part, usize), Stop>,
>(
    alloc: Global,
    tokens: &[Token],
    at: usize,
    room: usize,
    expr: &E,
    query: &Q,
    unary: &U,
) -> Result<(Part, usize), Stop>
    requires calls { E.IsAlwaysCallable expr.now }
    requires told { ReadsBy tokens.now (E.post expr.now) (grammar.deeper_expr room) }
    requires query_calls { Q.IsAlwaysCallable query.now }
    requires query_told { ReadsBy tokens.now (Q.post query.now) (grammar.deeper_query room) }
    requires unary_calls { U.IsAlwaysCallable unary.now }
    requires unary_told { ReadsBy tokens.now (U.post unary.now) (grammar.deeper_unary room) }
    ensures { Told tokens.now (grammar.unary_with room (grammar.deeper_expr room) (grammar.deeper_query room) (grammar.deeper_unary room)) at result }
{
    if is_prefix(tokens, at) {
        return prefixed(alloc, tokens, at, room, unary);
    }
    let casts = is_cast(alloc, tokens, at)?;
    if casts {
        cast(alloc, tokens, at, room, unary)
    } else {
        target(alloc, tokens, at, room, expr, query)
    }
}
