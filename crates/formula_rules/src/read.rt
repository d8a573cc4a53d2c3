// Formulas from their texts.

ghost use Rattle.std.specs.Prelude.{◌≡◌, IfOk, IfErr};
ghost use Rattle.apex_schema.specs.declared.rule.Rule.{Rule as Rule'};
ghost use Rattle.formula_rules.specs.declared.fault.RuleFault.TheVariants.{BadRule};
ghost use Rattle.formula_rules.specs.Grammar.{field_names, IsFormula, IsFormulaWithin};
ghost use Rattle.formula_rules.specs.Readings.{IsWhole};

use crate::fault::RuleFault;
use crate::grammar::formula;
use crate::scan::tokens_of;
use crate::token::Token;
use crate::types::rule_fits;
use apex_list::Boxed;
use apex_num::NoMemory;
use apex_schema::{Field, Object, Rule};
use apex_text::Name;
use schema_names::Places;
use std::alloc::Global;

// How many parentheses may be open at once.
const ROOM: usize = 64;

/// The names of fields without their case, each with the number of the first field that has it: what `read_rule_by`
/// looks names up in.
pub fn field_places(alloc: Global, fields: &[Field]) -> Result<Places, NoMemory>
    ensures { IfOk result (λ places. places.names.items ≡ field_names fields.now) }
{
    let mut names = Vec::new(alloc);
    for field in fields {
        names.push(Name::of(alloc, field.name.bytes())?)?;
    }
    Places::of(alloc, names)
}

// The formula that these tokens are, all of them.
fn whole(alloc: Global, fields: &Places, tokens: &[Token]) -> Result<Boxed<Rule>, RuleFault>
    ensures { IsWhole (IsFormulaWithin fields.now.names.items 64) tokens.now result }
{
    let (rule, end) = formula(alloc, fields, tokens, 0, ROOM)?;
    if end < tokens.len() {
        return Err(RuleFault::BadRule);
    }
    Ok(rule)
}

/// What `read_rule` answers, for a caller that reads many formulas of one object: `fields` are the places of the names
/// of its fields, as `field_places` makes them.
pub fn read_rule_by(
    alloc: Global,
    fields: &Places,
    object: &Object,
    text: &[u8],
) -> Result<Boxed<Rule>, RuleFault>
    requires { fields.now.names.items ≡ field_names object.now.fields }
    ensures reads { IfOk result (λ rule. IsFormula object.now text.now rule) }
    ensures only { IfOk result (λ rule. (other : Rule') → IsFormula object.now text.now other → other ≡ rule) }
    ensures none { IfErr result (λ fault. fault ≡ BadRule → (rule : Rule') → IsFormula object.now text.now rule → ⊥) }
{
    let tokens = tokens_of(alloc, text)?;
    let rule = whole(alloc, fields, tokens.as_slice())?;
    if rule_fits(object.fields.as_slice(), rule.get()) {
        Ok(rule)
    } else {
        Err(RuleFault::BadRule)
    }
}

/// The formula of an object that a text is. Words and fields are told apart without case; a field is the object's
/// first of that name. `BadRule` exactly where the text is no formula: where it has other tokens, where they are put
/// together otherwise, where more than 64 parentheses are open at once, where a name is no field, or where types don't
/// go together. The grammar and the types are this project's own (docs/platform.md, "Validation rules").
pub fn read_rule(alloc: Global, object: &Object, text: &[u8]) -> Result<Rule, RuleFault>
    ensures reads { IfOk result (λ rule. IsFormula object.now text.now rule) }
    ensures only { IfOk result (λ rule. (other : Rule') → IsFormula object.now text.now other → other ≡ rule) }
    ensures none { IfErr result (λ fault. fault ≡ BadRule → (rule : Rule') → IsFormula object.now text.now rule → ⊥) }
{
    let fields = field_places(alloc, object.fields.as_slice())?;
    let rule = read_rule_by(alloc, &fields, object, text)?;
    Ok(rule.into_value())
}
