// Whether the types of a formula go together.

ghost use Rattle.std.specs.Prelude.{◌≡◌};
ghost use Rattle.std.specs.List.{list_all};
ghost use Rattle.schema_plans.specs.Formulas as types;
ghost use Rattle.formula_rules.specs.Sorts.{shows, all_shows};

use apex_list::Items;
use apex_schema::{Field, FieldKind, Rule, RuleOp, RuleTerm};

/// The type of a term.
#[derive(Clone, Copy, PartialEq, Eq, Drop)]
pub enum Sort {
    Number,
    Text,
    Truth,
    Id,
    Day,
    Moment,
}

fn sort_of(kind: &FieldKind) -> Sort
    ensures { shows result ≡ types.sort_of kind.now }
{
    match kind {
        FieldKind::Id | FieldKind::Lookup(_) | FieldKind::MasterDetail(_) => Sort::Id,
        FieldKind::Text(_) => Sort::Text,
        FieldKind::Number | FieldKind::Rollup(_) => Sort::Number,
        FieldKind::Checkbox => Sort::Truth,
        FieldKind::Date => Sort::Day,
        FieldKind::Datetime => Sort::Moment,
    }
}

fn field_sort(fields: &[Field], field: usize) -> Option<Sort>
    ensures { all_shows result ≡ types.field_sort fields.now field }
{
    match fields.get(field) {
        Some(field) => Some(sort_of(&field.kind)),
        None => None,
    }
}

fn length_sort(sort: Option<Sort>) -> Option<Sort>
    ensures { all_shows result ≡ types.length_sort (all_shows sort) }
{
    match sort {
        Some(Sort::Text) => Some(Sort::Number),
        _ => None,
    }
}

fn term_sort(fields: &[Field], term: &RuleTerm) -> Option<Sort>
    ensures { all_shows result ≡ types.term_sort fields.now term.now }
{
    match term {
        RuleTerm::Field(n) | RuleTerm::PriorValue(n) => field_sort(fields, *n),
        RuleTerm::Len(n) => length_sort(field_sort(fields, *n)),
        RuleTerm::Number(_) => Some(Sort::Number),
        RuleTerm::Text(_) => Some(Sort::Text),
        RuleTerm::Truth(_) => Some(Sort::Truth),
    }
}

fn is_equality(op: RuleOp) -> bool
    ensures { result ≡ types.is_equality op }
{
    match op {
        RuleOp::Equal | RuleOp::Differs => true,
        _ => false,
    }
}

fn compares(op: RuleOp, a: Sort, b: Sort) -> bool
    ensures { result ≡ types.compares op (shows a) (shows b) }
{
    match (a, b) {
        (Sort::Number, Sort::Number) | (Sort::Day, Sort::Day) | (Sort::Moment, Sort::Moment) => {
            true
        }
        (Sort::Text, Sort::Text)
        | (Sort::Text, Sort::Id)
        | (Sort::Id, Sort::Text)
        | (Sort::Id, Sort::Id)
        | (Sort::Truth, Sort::Truth) => is_equality(op),
        _ => false,
    }
}

fn terms_fit(op: RuleOp, a: Option<Sort>, b: Option<Sort>) -> bool
    ensures { result ≡ types.terms_fit op (all_shows a) (all_shows b) }
{
    match (a, b) {
        (Some(a), Some(b)) => compares(op, a, b),
        _ => false,
    }
}

/// Whether a formula names fields that are there, and compares terms that go together.
#[cycle(fits)]
pub fn rule_fits(fields: &[Field], rule: &Rule) -> bool
    ensures { result ≡ types.rule_fits fields.now rule.now }
{
    match rule {
        Rule::And(rules) => all_fit(fields, rules),
        Rule::Or(rules) => all_fit(fields, rules),
        Rule::Not(inner) => rule_fits(fields, inner.get()),
        Rule::IsBlank(n) | Rule::IsChanged(n) => *n < fields.len(),
        Rule::IsNew => true,
        Rule::Compare(a, op, b) => terms_fit(*op, term_sort(fields, a), term_sort(fields, b)),
    }
}

#[cycle(fits)]
fn all_fit(fields: &[Field], rules: &Items<Rule>) -> bool
    ensures { result ≡ list_all (types.rule_fits fields.now) rules.now }
{
    for rule in rules.as_slice() {
        if !rule_fits(fields, rule) {
            return false;
        }
    }
    true
}
