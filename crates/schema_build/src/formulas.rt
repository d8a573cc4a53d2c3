// A schema and its formulas.

ghost use Rattle.std.specs.Prelude.{◌≡◌, ◌<◌, length, map, IsTrue};
ghost use Rattle.schema_plans.specs.Formulas.{all_fit};
ghost use Rattle.schema_plans.specs.Validity as valid;

use apex_list::Items;
use apex_schema::{Object, Rule, Schema};

fn set_rules(object: &mut Object, rules: Vec<Rule>)
    ensures { object.new ≡ valid.with_formulas object.old rules.items }
{
    object.rules = Items::of(rules);
}

fn set_at(objects: &mut [Object], at: usize, rules: Vec<Rule>)
    requires { at < length objects.old }
    ensures { objects.new ≡ valid.set_formulas objects.old at rules.items }
{
    set_rules(&mut objects[at], rules);
}

fn set_each(objects: &mut [Object], rules: Vec<Vec<Rule>>)
    requires { length objects.old ≡ length rules.items }
    ensures { objects.new ≡ valid.with_each objects.old (map (λ list. list.items) rules.items) }
{
    let mut at = 0;
    for list in rules {
        set_at(objects, at, list);
        at += 1;
    }
}

/// The schema with these formulas, which takes no memory: a list for each object in their order, RowShare's empty
/// one included, and in it a formula for each rule of the object, each of that object.
pub fn with_rules(schema: Schema, rules: Vec<Vec<Rule>>) -> Schema
    requires { IsTrue (all_fit schema.objects (map (λ list. list.items) rules.items)) }
    ensures value { result ≡ valid.with_rules schema (map (λ list. list.items) rules.items) }
    ensures valid { valid.IsValid schema → valid.IsValid result }
{
    let Schema {
        roles,
        users,
        objects,
    } = schema;
    let mut objects = objects.into_vec();
    set_each(&mut objects, rules);
    Schema {
        roles,
        users,
        objects: Items::of(objects),
    }
}
