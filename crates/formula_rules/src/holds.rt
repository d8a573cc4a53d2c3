// Whether a formula holds.

ghost use Rattle.std.specs.Prelude.{◌≡◌, ◌&&◌, ◌||◌, not};
ghost use Rattle.std.specs.List.{list_all, list_any};
ghost use Rattle.std.specs.Option.{option_copied};
ghost use Rattle.row_meaning.specs.Conds.{cell_of, or_null};
ghost use Rattle.row_meaning.specs.Cells.{is_null as null};
ghost use Rattle.row_meaning.specs.Rules.{rule_compares, is_blank as blank, prior as before, term_cell, rule_value};
ghost use Rattle.formula_rules.specs.Values.{shows};

use crate::value::{Value, same, scalars, seen, stand};
use apex_list::Items;
use apex_num::Cell;
use apex_rows::Row;
use apex_schema::{Rule, RuleOp, RuleTerm};
use std::cmp::Ordering;

// The cell of a field, if the row has it.
fn cell(row: &Row, field: usize) -> Option<&Cell>
    ensures { or_null (option_copied result) ≡ cell_of row.now field }
{
    row.cells.get(field)
}

// The row before; in an insert the new one.
fn prior<'a>(new: &'a Row, old: Option<&'a Row>) -> &'a Row
    ensures { result.now ≡ before new.now (option_copied old.entry) }
{
    match old {
        None => new,
        Some(row) => row,
    }
}

fn is_blank(value: &Value) -> bool
    ensures { result ≡ blank (shows value.now) }
{
    match value {
        Value::Null => true,
        Value::Text(text) => text.is_empty(),
        _ => false,
    }
}

fn is_null(value: &Value) -> bool
    ensures { result ≡ null (shows value.now) }
{
    match value {
        Value::Null => true,
        _ => false,
    }
}

fn compare(op: RuleOp, a: &Value, b: &Value) -> bool
    ensures { result ≡ rule_compares op (shows a.now) (shows b.now) }
{
    match op {
        RuleOp::Equal => !(is_null(a) || is_null(b)) && same(a, b),
        RuleOp::Differs => !same(a, b),
        RuleOp::Less => stand(a, b) == Some(Ordering::Less),
        RuleOp::AtMost => stand(a, b).is_some_and(|o| o != Ordering::Greater),
        RuleOp::More => stand(a, b) == Some(Ordering::Greater),
        RuleOp::AtLeast => stand(a, b).is_some_and(|o| o != Ordering::Less),
    }
}

// The value of a term.
fn term<'a>(term: &'a RuleTerm, new: &'a Row, old: Option<&'a Row>) -> Value<'a>
    ensures { shows result ≡ term_cell new.now (option_copied old.entry) term.now }
{
    match term {
        RuleTerm::Field(n) => seen(cell(new, *n)),
        RuleTerm::PriorValue(n) => seen(cell(prior(new, old), *n)),
        RuleTerm::Len(n) => Value::Num(1_000_000 * scalars(cell(new, *n)) as i128),
        RuleTerm::Number(d) => Value::Num(d.millionths()),
        RuleTerm::Text(text) => Value::Text(text.bytes()),
        RuleTerm::Truth(b) => Value::Truth(*b),
    }
}

/// Whether a rule holds of a record that is saved. `new` is the record as it would be saved; `old` is the row as it
/// was, none in an insert. A record of which a rule of its object holds is refused with that rule's message.
#[cycle(rule)]
pub fn rule_holds(rule: &Rule, new: &Row, old: Option<&Row>) -> bool
    ensures { result ≡ rule_value new.now (option_copied old.entry) rule.now }
{
    match rule {
        Rule::And(rules) => all_hold(rules, new, old),
        Rule::Or(rules) => one_holds(rules, new, old),
        Rule::Not(inner) => !rule_holds(inner.get(), new, old),
        Rule::IsBlank(n) => is_blank(&seen(cell(new, *n))),
        Rule::IsChanged(n) => !same(&seen(cell(prior(new, old), *n)), &seen(cell(new, *n))),
        Rule::IsNew => old.is_none(),
        Rule::Compare(a, op, b) => compare(*op, &term(a, new, old), &term(b, new, old)),
    }
}

#[cycle(rule)]
fn all_hold(rules: &Items<Rule>, new: &Row, old: Option<&Row>) -> bool
    ensures { result ≡ list_all (rule_value new.now (option_copied old.entry)) rules.now }
{
    for rule in rules.as_slice() {
        if !rule_holds(rule, new, old) {
            return false;
        }
    }
    true
}

#[cycle(rule)]
fn one_holds(rules: &Items<Rule>, new: &Row, old: Option<&Row>) -> bool
    ensures { result ≡ list_any (rule_value new.now (option_copied old.entry)) rules.now }
{
    for rule in rules.as_slice() {
        if rule_holds(rule, new, old) {
            return true;
        }
    }
    false
}
