// The formulas of an object's rules.

ghost use Rattle.std.specs.Prelude.{◌≡◌, ◌<◌, length, IfOk, MatchResult};
ghost use Rattle.formula_rules.specs.Grammar.{field_names};
ghost use Rattle.tenant_schema.specs.Answers.{IsTold, AreOnly, NotRead, NotOfObject, FaultOf};
ghost use Rattle.tenant_schema.specs.Deployed as spec;

use apex_list::{Boxed, Items};
use apex_num::{NoMemory, Text};
use apex_schema::{Object, Rule};
use fault_words::{Fault, FaultWord};
use formula_rules::{RuleFault, field_places, read_rule_by};
use schema_names::Places;
use schema_plans::{ObjectPlan, RulePlan, SchemaFault};
use std::alloc::{AllocError, Global};

/// Why the rules of an object have no formulas.
#[derive(Clone, Copy, PartialEq, Eq, Drop)]
pub enum RulesFault {
    /// The rule at this place, the first whose text is no formula.
    Bad(usize),
    NoMemory,
}

impl From<AllocError> for RulesFault {
    ghost use Rattle.std.specs.Prelude.{◌≡◌};
    ghost use Rattle.tenant_schema.specs.declared.formulas.RulesFault.TheVariants.{NoMemory};

    ghost from_gives = { λ _ e. e ≡ NoMemory };

    fn from(_: AllocError) -> RulesFault {
        RulesFault::NoMemory
    }
}

// The formula of a rule.
fn formula(
    alloc: Global,
    fields: &Places,
    object: &Object,
    rule: &RulePlan,
) -> Result<Boxed<Rule>, RuleFault>
    requires { fields.now.names.items ≡ field_names object.now.fields }
    ensures { IsTold object.now rule.now result }
{
    read_rule_by(alloc, fields, object, rule.when.bytes())
}

// The formulas of these rules.
fn formulas(
    alloc: Global,
    fields: &Places,
    object: &Object,
    rules: &[RulePlan],
) -> Result<Items<Rule>, RulesFault>
    requires { fields.now.names.items ≡ field_names object.now.fields }
    ensures { MatchResult result (λ read. AreOnly object.now rules.now read) (λ fault. NotRead object.now rules.now fault) }
{
    let mut read = Items::new(alloc);
    'rules: for i in 0..rules.len() {
        match formula(alloc, fields, object, &rules[i]) {
            Ok(rule) => read.push(rule.into_value())?,
            Err(RuleFault::BadRule) => return Err(RulesFault::Bad(i)),
            Err(RuleFault::NoMemory) => return Err(RulesFault::NoMemory),
        }
    }
    Ok(read)
}

// The fault of a rule.
fn bad_rule(alloc: Global, object: &ObjectPlan, rule: &RulePlan) -> Result<Fault, NoMemory>
    ensures { IfOk result (λ fault. fault ≡ spec.bad_rule object.now rule.now) }
{
    let mut place = String::from_str(alloc, "schema ")?;
    place.push_str(object.name.as_str())?;
    place.push_str(".")?;
    place.push_str(rule.name.as_str())?;
    Ok(Fault {
        place: Text::from_string(alloc, place)?,
        word: FaultWord::BadRule,
    })
}

// The fault of the rule at a place.
fn rule_fault(alloc: Global, object: &ObjectPlan, at: usize) -> SchemaFault
    requires { at < length object.now.rules }
    ensures { FaultOf object.now at result }
{
    match bad_rule(alloc, object, &object.rules.as_slice()[at]) {
        Ok(fault) => SchemaFault::Wrong(fault),
        Err(_) => SchemaFault::NoMemory,
    }
}

/// The formulas of a planned object's rules, or the fault of the first whose text is none.
pub fn object_formulas(
    alloc: Global,
    plan: &ObjectPlan,
    object: &Object,
) -> Result<Vec<Rule>, SchemaFault>
    ensures { MatchResult result (λ rules. AreOnly object.now plan.now.rules rules.items) (λ fault. NotOfObject object.now plan.now fault) }
{
    let Ok(fields) = field_places(alloc, object.fields.as_slice()) else {
        return Err(SchemaFault::NoMemory);
    };
    match formulas(alloc, &fields, object, plan.rules.as_slice()) {
        Ok(rules) => Ok(rules.into_vec()),
        Err(RulesFault::Bad(at)) => Err(rule_fault(alloc, plan, at)),
        Err(RulesFault::NoMemory) => Err(SchemaFault::NoMemory),
    }
}
