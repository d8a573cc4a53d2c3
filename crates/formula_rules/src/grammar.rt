// Formulas, read from their tokens.

ghost use Rattle.std.specs.Prelude.{◌≡◌, ◌≤◌, ◌<◌, ◌+◌, ◌-◌, ◌∷◌, [], drop, length, true, false, None, MatchOption, MatchResult, IfOk, IfSome, OnSome};
ghost use Rattle.schema_names.specs.Names.{place_of};
ghost use Rattle.formula_rules.specs.declared.fault.RuleFault.TheVariants.{BadRule};
ghost use Rattle.formula_rules.specs.declared.token.Token.TheVariants as Token';
ghost use Rattle.formula_rules.specs.Grammar as grammar;
ghost use Rattle.formula_rules.specs.Readings as readings;
ghost use Rattle.formula_rules.specs.Readings.{Told};

use crate::fault::RuleFault;
use crate::token::Token;
use crate::words::{Function, function_of, truth_of};
use apex_list::{Boxed, Items};
use apex_num::NoMemory;
use apex_schema::{Rule, RuleOp, RuleTerm};
use apex_text::Name;
use schema_names::Places;
use std::alloc::Global;

// The token at a place; none behind the last.
fn token_at(tokens: &[Token], at: usize) -> Option<&Token>
    ensures at { MatchOption result (drop at tokens.now ≡ []) (λ token. drop at tokens.now ≡ token.now ∷ drop (at + 1) tokens.now) }
    ensures within { OnSome result (at < length tokens.now) }
{
    tokens.get(at)
}

// The place behind a `)`.
fn behind_close(tokens: &[Token], at: usize) -> Result<usize, RuleFault>
    ensures at { MatchResult result (λ end. drop at tokens.now ≡ Token'.Close ∷ drop end tokens.now) (λ fault. (fault ≡ BadRule) × (readings.is_closed (drop at tokens.now) ≡ false)) }
    ensures on { IfOk result (λ end. (at < end) × (end ≤ length tokens.now)) }
{
    match token_at(tokens, at) {
        Some(Token::Close) => Ok(at + 1),
        _ => Err(RuleFault::BadRule),
    }
}

// The place behind a comma, where one stands.
fn behind_comma(tokens: &[Token], at: usize) -> Option<usize>
    ensures at { MatchOption result (readings.is_comma (drop at tokens.now) ≡ false) (λ end. drop at tokens.now ≡ Token'.Comma ∷ drop end tokens.now) }
    ensures on { IfSome result (λ end. (at < end) × (end ≤ length tokens.now)) }
{
    match token_at(tokens, at) {
        Some(Token::Comma) => Some(at + 1),
        _ => None,
    }
}

// The comparison at a place, and the place behind it.
fn op_at(tokens: &[Token], at: usize) -> Result<(RuleOp, usize), RuleFault>
    ensures at { MatchResult result (λ r. drop at tokens.now ≡ Token'.Op r.0 ∷ drop r.1 tokens.now) (λ fault. (fault ≡ BadRule) × (readings.op_of (drop at tokens.now) ≡ None)) }
    ensures on { IfOk result (λ r. (at < r.1) × (r.1 ≤ length tokens.now)) }
{
    match token_at(tokens, at) {
        Some(Token::Op(op)) => Ok((*op, at + 1)),
        _ => Err(RuleFault::BadRule),
    }
}

// The place behind a `(`, where one stands.
fn behind_open(tokens: &[Token], at: usize) -> Option<usize>
    ensures at { MatchOption result (readings.is_unopened (drop at tokens.now) ≡ true) (λ end. drop at tokens.now ≡ Token'.Open ∷ drop end tokens.now) }
    ensures on { IfSome result (λ end. (at < end) × (end ≤ length tokens.now)) }
{
    match token_at(tokens, at) {
        Some(Token::Open) => Some(at + 1),
        _ => None,
    }
}

// The function whose word and `(` stand at a place, and the place behind them.
fn called_at(tokens: &[Token], at: usize) -> Option<(Function, usize)>
    ensures at { MatchOption result (readings.called (drop at tokens.now) ≡ None) (λ r. readings.Opens tokens.now at r.0 r.1) }
    ensures on { IfSome result (λ r. (at < r.1) × (r.1 ≤ length tokens.now)) }
{
    match token_at(tokens, at) {
        Some(Token::Word(word)) => match (function_of(word), behind_open(tokens, at + 1)) {
            (Some(function), Some(inside)) => Some((function, inside)),
            _ => None,
        },
        _ => None,
    }
}

// ---- one token

fn named(fields: &Places, word: &Name) -> Option<usize>
    ensures { result ≡ grammar.unless_truth (grammar.truth_of word.now) (place_of fields.now.names.items word.now) }
{
    match truth_of(word) {
        Some(_) => None,
        None => fields.place(word),
    }
}

fn field_of(fields: &Places, token: &Token) -> Option<usize>
    ensures { result ≡ grammar.field_of fields.now.names.items token.now }
{
    match token {
        Token::Word(word) => named(fields, word),
        _ => None,
    }
}

fn word_term(fields: &Places, word: &Name) -> Option<RuleTerm>
    ensures { result ≡ grammar.term_of fields.now.names.items (Token'.Word word.now) }
{
    match truth_of(word) {
        Some(b) => Some(RuleTerm::Truth(b)),
        None => fields.place(word).map(RuleTerm::Field),
    }
}

fn term_of(fields: &Places, token: &Token) -> Result<Option<RuleTerm>, NoMemory>
    ensures { IfOk result (λ term. term ≡ grammar.term_of fields.now.names.items token.now) }
{
    Ok(match token {
        Token::Word(word) => word_term(fields, word),
        Token::Number(number) => Some(RuleTerm::Number(*number)),
        Token::Text(text) => Some(RuleTerm::Text(text.copy()?)),
        _ => None,
    })
}

// The field that stands at a place.
fn field(fields: &Places, tokens: &[Token], at: usize) -> Result<(usize, usize), RuleFault>
    ensures told { Told (grammar.One (grammar.field_of fields.now.names.items)) readings.is_unopened tokens.now at result }
    ensures on { IfOk result (λ r. (at < r.1) × (r.1 ≤ length tokens.now)) }
{
    match token_at(tokens, at) {
        Some(token) => match field_of(fields, token) {
            Some(field) => Ok((field, at + 1)),
            None => Err(RuleFault::BadRule),
        },
        None => Err(RuleFault::BadRule),
    }
}

// ---- terms

// A term of one token.
fn short_term(fields: &Places, tokens: &[Token], at: usize) -> Result<(RuleTerm, usize), RuleFault>
    ensures told { Told (grammar.One (grammar.term_of fields.now.names.items)) readings.is_unopened tokens.now at result }
    ensures on { IfOk result (λ r. (at < r.1) × (r.1 ≤ length tokens.now)) }
{
    match token_at(tokens, at) {
        Some(token) => match term_of(fields, token)? {
            Some(term) => Ok((term, at + 1)),
            None => Err(RuleFault::BadRule),
        },
        None => Err(RuleFault::BadRule),
    }
}

// What stands in the parentheses of PRIORVALUE and LEN.
fn measured(
    fields: &Places,
    tokens: &[Token],
    at: usize,
    function: Function,
) -> Result<(RuleTerm, usize), RuleFault>
    ensures told { Told (grammar.IsMeasure fields.now.names.items function) readings.is_closed tokens.now at result }
    ensures on { IfOk result (λ r. (at < r.1) × (r.1 ≤ length tokens.now)) }
{
    match function {
        Function::PriorValue => {
            let (n, end) = field(fields, tokens, at)?;
            Ok((RuleTerm::PriorValue(n), end))
        }
        Function::Len => {
            let (n, end) = field(fields, tokens, at)?;
            Ok((RuleTerm::Len(n), end))
        }
        _ => Err(RuleFault::BadRule),
    }
}

// A term whose function and parenthesis stand at a place.
fn measure(
    fields: &Places,
    tokens: &[Token],
    at: usize,
    function: Function,
    inside: usize,
) -> Result<(RuleTerm, usize), RuleFault>
    requires opens { readings.Opens tokens.now at function inside }
    requires on { (at < inside) × (inside ≤ length tokens.now) }
    ensures told { Told (grammar.Called (grammar.IsMeasure fields.now.names.items)) readings.is_unopened tokens.now at result }
    ensures on { IfOk result (λ r. (at < r.1) × (r.1 ≤ length tokens.now)) }
{
    let (term, end) = measured(fields, tokens, inside, function)?;
    let behind = behind_close(tokens, end)?;
    Ok((term, behind))
}

// A term, where `room` more parentheses may be open.
fn term(
    fields: &Places,
    tokens: &[Token],
    at: usize,
    room: usize,
) -> Result<(RuleTerm, usize), RuleFault>
    ensures told { Told (grammar.IsTerm fields.now.names.items room) readings.is_unopened tokens.now at result }
    ensures on { IfOk result (λ r. (at < r.1) × (r.1 ≤ length tokens.now)) }
{
    if room == 0 {
        return short_term(fields, tokens, at);
    }
    match called_at(tokens, at) {
        Some((function, inside)) => measure(fields, tokens, at, function, inside),
        None => short_term(fields, tokens, at),
    }
}

// A comparison of two terms.
fn comparison(
    alloc: Global,
    fields: &Places,
    tokens: &[Token],
    at: usize,
    room: usize,
) -> Result<(Boxed<Rule>, usize), RuleFault>
    ensures told { Told (grammar.IsComparison fields.now.names.items room) readings.is_unopened tokens.now at result }
    ensures on { IfOk result (λ r. (at < r.1) × (r.1 ≤ length tokens.now)) }
{
    let (left, middle) = term(fields, tokens, at, room)?;
    let (op, behind) = op_at(tokens, middle)?;
    let (right, end) = term(fields, tokens, behind, room)?;
    Ok((Boxed::new(alloc, Rule::Compare(left, op, right))?, end))
}

// ---- formulas

// A formula, where `room` more parentheses may be open.
#[cycle(formula)]
pub fn formula(
    alloc: Global,
    fields: &Places,
    tokens: &[Token],
    at: usize,
    room: usize,
) -> Result<(Boxed<Rule>, usize), RuleFault>
    ensures told { Told (grammar.IsFormulaWithin fields.now.names.items room) readings.is_unopened tokens.now at result }
    ensures on { IfOk result (λ r. (at < r.1) × (r.1 ≤ length tokens.now)) }
{
    if room == 0 {
        return comparison(alloc, fields, tokens, at, room);
    }
    match called_at(tokens, at) {
        Some((function, inside)) => {
            if function.is_of_formulas() {
                call(alloc, fields, tokens, at, room, function, inside)
            } else {
                comparison(alloc, fields, tokens, at, room)
            }
        }
        None => comparison(alloc, fields, tokens, at, room),
    }
}

// A formula whose function and parenthesis stand at a place.
#[cycle(formula)]
fn call(
    alloc: Global,
    fields: &Places,
    tokens: &[Token],
    at: usize,
    room: usize,
    function: Function,
    inside: usize,
) -> Result<(Boxed<Rule>, usize), RuleFault>
    requires room { 0 < room }
    requires opens { readings.Opens tokens.now at function inside }
    requires on { (at < inside) × (inside ≤ length tokens.now) }
    ensures told { Told (grammar.Called (grammar.IsInside fields.now.names.items (grammar.IsFormulaWithin fields.now.names.items (room - 1)))) readings.is_unopened tokens.now at result }
    ensures on { IfOk result (λ r. (at < r.1) × (r.1 ≤ length tokens.now)) }
{
    let (rule, end) = inside_of(alloc, fields, tokens, inside, room - 1, function)?;
    let behind = behind_close(tokens, end)?;
    Ok((rule, behind))
}

// What stands in the parentheses of a formula's function.
#[cycle(formula)]
fn inside_of(
    alloc: Global,
    fields: &Places,
    tokens: &[Token],
    at: usize,
    room: usize,
    function: Function,
) -> Result<(Boxed<Rule>, usize), RuleFault>
    requires { at ≤ length tokens.now }
    ensures told { Told (grammar.IsInside fields.now.names.items (grammar.IsFormulaWithin fields.now.names.items room) function) readings.is_closed tokens.now at result }
    ensures on { IfOk result (λ r. (at ≤ r.1) × (r.1 ≤ length tokens.now)) }
{
    match function {
        Function::And => {
            let (rules, end) = each(alloc, fields, tokens, at, room)?;
            Ok((Boxed::new(alloc, Rule::And(rules))?, end))
        }
        Function::Or => {
            let (rules, end) = each(alloc, fields, tokens, at, room)?;
            Ok((Boxed::new(alloc, Rule::Or(rules))?, end))
        }
        Function::Not => {
            let (inner, end) = formula(alloc, fields, tokens, at, room)?;
            Ok((Boxed::new(alloc, Rule::Not(inner))?, end))
        }
        Function::IsBlank => {
            let (n, end) = field(fields, tokens, at)?;
            Ok((Boxed::new(alloc, Rule::IsBlank(n))?, end))
        }
        Function::IsChanged => {
            let (n, end) = field(fields, tokens, at)?;
            Ok((Boxed::new(alloc, Rule::IsChanged(n))?, end))
        }
        Function::IsNew => Ok((Boxed::new(alloc, Rule::IsNew)?, at)),
        Function::PriorValue | Function::Len => Err(RuleFault::BadRule),
    }
}

// One or more formulas with commas between them.
#[cycle(formula)]
fn each(
    alloc: Global,
    fields: &Places,
    tokens: &[Token],
    at: usize,
    room: usize,
) -> Result<(Items<Rule>, usize), RuleFault>
    ensures told { Told (grammar.Each (grammar.IsFormulaWithin fields.now.names.items room)) readings.is_closed tokens.now at result }
    ensures on { IfOk result (λ r. (at < r.1) × (r.1 ≤ length tokens.now)) }
{
    let mut rules = Items::new(alloc);
    let (first, mut end) = formula(alloc, fields, tokens, at, room)?;
    rules.push(first.into_value())?;
    while let Some(behind) = behind_comma(tokens, end) {
        let (rule, next) = formula(alloc, fields, tokens, behind, room)?;
        rules.push(rule.into_value())?;
        end = next;
    }
    Ok((rules, end))
}
