// Trees of texts.

ghost use Rattle.std.specs.Prelude.{◌≡◌, List, MatchResult};
ghost use Rattle.apex_lexer.specs.Reading.{Shown, HasTokens};
ghost use Rattle.apex_parse_stmt.specs.Units.{WholeUnit};
ghost use Rattle.token_grammar.specs.Notation.{seen};
ghost use Rattle.token_grammar.specs.Readings.{RefusedBy};
ghost use Rattle.tenant_units.specs.Faults.{IsTree, NoTree, OnlyTree, OnlyFault};
ghost use Rattle.tenant_units.specs.Trees as spec;

use crate::fault::UnitFault;
use crate::place::{fault_at, lex_word, parse_word};
use apex_lexer::{LexFault, Token, lex};
use apex_list::{Boxed, Items};
use apex_parse_unit::{UnitKind, anonymous_unit, class_unit, trigger_unit, unit_kind};
use apex_syntax::Unit;
use bundle_read::UnitPlan;
use std::alloc::Global;
use token_grammar::ParseFault;

/// What a text is.
#[derive(Clone, Copy, Debug, PartialEq, Eq, Drop)]
pub enum TextKind {
    /// A class, an interface or a trigger.
    Unit,
    /// The statements of an anonymous block.
    Block,
}

// The unit that tokens are.
fn unit_of(alloc: Global, tokens: &[Token]) -> Result<Boxed<Unit>, ParseFault>
    ensures { MatchResult result (WholeUnit tokens.now (spec.unit_rule (seen tokens.now))) (RefusedBy tokens.now (spec.unit_rule (seen tokens.now)) 0) }
{
    match unit_kind(tokens) {
        UnitKind::Trigger => trigger_unit(alloc, tokens),
        UnitKind::Class | UnitKind::Interface => class_unit(alloc, tokens),
    }
}

fn read(alloc: Global, kind: TextKind, tokens: &[Token]) -> Result<Boxed<Unit>, ParseFault>
    ensures { MatchResult result (WholeUnit tokens.now (spec.rule_of kind (seen tokens.now))) (RefusedBy tokens.now (spec.rule_of kind (seen tokens.now)) 0) }
{
    match kind {
        TextKind::Unit => unit_of(alloc, tokens),
        TextKind::Block => anonymous_unit(alloc, tokens),
    }
}

// The tree of a text that has these tokens and no others.
fn tree_from(
    alloc: Global,
    kind: TextKind,
    name: &str,
    text: &[u8],
    tokens: &[Token],
) -> Result<Boxed<Unit>, UnitFault>
    requires found { HasTokens text.now (seen tokens.now) }
    requires only { (other : List Shown) → HasTokens text.now other → other ≡ seen tokens.now }
    ensures tree { MatchResult result (IsTree (spec.rule_of kind) text.now) (NoTree (spec.rule_of kind) name.now text.now) }
    ensures only { MatchResult result (OnlyTree (spec.rule_of kind) name.now text.now) (OnlyFault (spec.rule_of kind) name.now text.now) }
{
    match read(alloc, kind, tokens) {
        Ok(tree) => Ok(tree),
        Err(ParseFault::Wrong(word, span)) => {
            Err(fault_at(alloc, name, text, span.from, parse_word(word)))
        }
        Err(ParseFault::NoMemory) => Err(UnitFault::NoMemory),
    }
}

fn tree_of(alloc: Global, kind: TextKind, name: &str, text: &[u8]) -> Result<Boxed<Unit>, UnitFault>
    ensures tree { MatchResult result (IsTree (spec.rule_of kind) text.now) (NoTree (spec.rule_of kind) name.now text.now) }
    ensures only { MatchResult result (OnlyTree (spec.rule_of kind) name.now text.now) (OnlyFault (spec.rule_of kind) name.now text.now) }
{
    match lex(alloc, text) {
        Ok(tokens) => tree_from(alloc, kind, name, text, &tokens),
        Err(LexFault::Wrong(word, span)) => {
            Err(fault_at(alloc, name, text, span.from, lex_word(word)))
        }
        Err(LexFault::NoMemory) => Err(UnitFault::NoMemory),
    }
}

// The tree of a unit.
fn unit_tree(alloc: Global, unit: &UnitPlan) -> Result<Boxed<Unit>, UnitFault>
    ensures tree { MatchResult result (spec.IsUnit unit.now.text) (NoTree spec.unit_rule unit.now.name unit.now.text) }
    ensures only { MatchResult result (OnlyTree spec.unit_rule unit.now.name unit.now.text) (OnlyFault spec.unit_rule unit.now.name unit.now.text) }
{
    tree_of(alloc, TextKind::Unit, unit.name.as_str(), unit.text.bytes())
}

/// The trees of units, each read as its kind says: as a trigger or an interface where that is the first of the words
/// `class`, `interface` and `trigger` in it, and as a class otherwise. The fault is that of the first unit that has no
/// tree, at the unit's name: the first fault of its tokens, wherever it stands, and where it has tokens the parser's.
pub fn unit_trees(alloc: Global, units: &[UnitPlan]) -> Result<Items<Unit>, UnitFault>
    ensures trees { MatchResult result (spec.AreUnits units.now) (spec.NoUnits units.now) }
    ensures only { MatchResult result (spec.OnlyUnits units.now) (spec.OnlyFirstFault units.now) }
{
    let mut trees = Items::new(alloc);
    'units: for i in 0..units.len() {
        let tree = unit_tree(alloc, &units[i])?;
        trees.push(tree.into_value())?;
    }
    Ok(trees)
}

/// The statements of an anonymous block; otherwise the first fault of its bytes, at the name `block`.
pub fn block_tree(alloc: Global, bytes: &[u8]) -> Result<Boxed<Unit>, UnitFault>
    ensures tree { MatchResult result (spec.IsBlock bytes.now) (NoTree spec.block_rule spec.block_name bytes.now) }
    ensures only { MatchResult result (OnlyTree spec.block_rule spec.block_name bytes.now) (OnlyFault spec.block_rule spec.block_name bytes.now) }
{
    tree_of(alloc, TextKind::Block, "block", bytes)
}
