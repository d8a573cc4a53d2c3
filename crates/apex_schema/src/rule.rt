// Formulas of validation rules.

ghost use Rattle.std.specs.Prelude.{◌≡◌, IfOk};

use apex_list::{Boxed, Items};
use apex_num::{Copied, Dec, NoMemory, Text};

/// A comparison of a formula.
#[derive(Clone, Copy, PartialEq, Eq, Drop)]
pub enum RuleOp {
    Equal,
    Differs,
    Less,
    AtMost,
    More,
    AtLeast,
}

/// A value in a formula. Fields are those of the rule's object, by number.
#[derive(Drop)]
pub enum RuleTerm {
    /// The new value of a field.
    Field(usize),
    /// PRIORVALUE: the old value of a field; in an insert the new one.
    PriorValue(usize),
    /// LEN: how many Unicode scalar values a text has; 0 for null.
    Len(usize),
    Number(Dec),
    Text(Text),
    /// TRUE or FALSE.
    Truth(bool),
}

/// A checked formula. A record is refused where the formula of one of its object's rules holds.
#[derive(Drop)]
pub enum Rule {
    And(Items<Rule>),
    Or(Items<Rule>),
    Not(Boxed<Rule>),
    /// ISBLANK: the field is null or an empty text.
    IsBlank(usize),
    /// ISCHANGED: the field differs from what it was; false in an insert.
    IsChanged(usize),
    /// ISNEW: the record is inserted.
    IsNew,
    Compare(RuleTerm, RuleOp, RuleTerm),
}

impl RuleTerm {
    /// An equal term.
    pub fn copy(&self) -> Result<RuleTerm, NoMemory>
        ensures { IfOk result (λ c. c ≡ self.now) }
    {
        Ok(match self {
            RuleTerm::Field(n) => RuleTerm::Field(*n),
            RuleTerm::PriorValue(n) => RuleTerm::PriorValue(*n),
            RuleTerm::Len(n) => RuleTerm::Len(*n),
            RuleTerm::Number(d) => RuleTerm::Number(*d),
            RuleTerm::Text(text) => RuleTerm::Text(text.copy()?),
            RuleTerm::Truth(b) => RuleTerm::Truth(*b),
        })
    }
}

fn copy_compare(left: &RuleTerm, op: RuleOp, right: &RuleTerm) -> Result<Rule, NoMemory>
    ensures { IfOk result (λ c. c ≡ Rule.Compare left.now op right.now) }
{
    Ok(Rule::Compare(left.copy()?, op, right.copy()?))
}

impl Rule {
    /// An equal formula.
    #[cycle(copy_rule)]
    pub fn copy(&self) -> Result<Rule, NoMemory>
        ensures { IfOk result (λ c. c ≡ self.now) }
    {
        match self {
            Rule::And(list) => Ok(Rule::And(copy_each(list)?)),
            Rule::Or(list) => Ok(Rule::Or(copy_each(list)?)),
            Rule::Not(inner) => {
                let copied = inner.get().copy()?;
                Ok(Rule::Not(Boxed::new(inner.allocator(), copied)?))
            }
            Rule::IsBlank(n) => Ok(Rule::IsBlank(*n)),
            Rule::IsChanged(n) => Ok(Rule::IsChanged(*n)),
            Rule::IsNew => Ok(Rule::IsNew),
            Rule::Compare(left, op, right) => copy_compare(left, *op, right),
        }
    }
}

#[cycle(copy_rule)]
fn copy_each(list: &Items<Rule>) -> Result<Items<Rule>, NoMemory>
    ensures { IfOk result (λ v. v ≡ list.now) }
{
    let mut done = Items::new(list.allocator());
    for rule in list.as_slice() {
        done.push(rule.copy()?)?;
    }
    Ok(done)
}

impl Copied for Rule {
    fn copied(&self) -> Result<Rule, NoMemory> {
        self.copy()
    }
}
