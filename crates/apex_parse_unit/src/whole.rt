// Whole units.

ghost use Rattle.std.specs.Prelude.{◌≡◌, MatchResult, MatchBool};
ghost use Rattle.token_grammar.specs.Notation.{seen};
ghost use Rattle.token_grammar.specs.Readings.{Told, RefusedBy};
ghost use Rattle.apex_parse_stmt.specs.Units.{WholeUnit};
ghost use Rattle.apex_parse_unit.specs.Classes as grammar;
ghost use Rattle.apex_parse_unit.specs.Triggers as triggers;

use crate::classes::class;
use crate::interfaces::interface;
use crate::kind::{UnitKind, unit_kind};
use crate::triggers::trigger;
use apex_lexer::Token;
use apex_list::Boxed;
use apex_parse_stmt::pass_end;
use apex_syntax::Unit;
use std::alloc::Global;
use token_grammar::{ParseFault, Stop, boxed, fault_of};

// The most forms that may be open at once.
const MOST_OPEN: usize = 64;

fn class_whole(alloc: Global, tokens: &[Token], room: usize) -> Result<(Boxed<Unit>, usize), Stop>
    ensures { Told tokens.now (grammar.class_whole room) 0 result }
{
    let (tree, behind) = class(alloc, tokens, 0, room)?;
    let end = pass_end(tokens, behind)?;
    boxed(alloc, Unit::Class(tree.into_value()), end)
}

fn interface_whole(
    alloc: Global,
    tokens: &[Token],
    room: usize,
) -> Result<(Boxed<Unit>, usize), Stop>
    ensures { Told tokens.now (grammar.interface_whole room) 0 result }
{
    let (tree, behind) = interface(alloc, tokens, 0, room)?;
    let end = pass_end(tokens, behind)?;
    boxed(alloc, Unit::Interface(tree.into_value()), end)
}

fn trigger_whole(alloc: Global, tokens: &[Token], room: usize) -> Result<(Boxed<Unit>, usize), Stop>
    ensures { Told tokens.now (triggers.trigger_whole room) 0 result }
{
    let (tree, behind) = trigger(alloc, tokens, 0, room)?;
    let end = pass_end(tokens, behind)?;
    boxed(alloc, Unit::Trigger(tree.into_value()), end)
}

// Whether the first word that tells a kind is `interface`.
fn is_interface(tokens: &[Token]) -> bool
    ensures { MatchBool result (grammar.is_interface (seen tokens.now) 0) (grammar.is_interface (seen tokens.now) 0 → ⊥) }
{
    match unit_kind(tokens) {
        UnitKind::Interface => true,
        UnitKind::Class | UnitKind::Trigger => false,
    }
}

fn class_or_interface(
    alloc: Global,
    tokens: &[Token],
    room: usize,
) -> Result<(Boxed<Unit>, usize), Stop>
    ensures { Told tokens.now (grammar.class_or_interface room) 0 result }
{
    if is_interface(tokens) {
        interface_whole(alloc, tokens, room)
    } else {
        class_whole(alloc, tokens, room)
    }
}

/// The class or the interface that all tokens are: an interface, where the first of the words `class`, `interface` and
/// `trigger` is that one, and a class otherwise. At most 64 forms are open at once.
pub fn class_unit(alloc: Global, tokens: &[Token]) -> Result<Boxed<Unit>, ParseFault>
    ensures { MatchResult result (λ unit. WholeUnit tokens.now (grammar.class_or_interface 64) unit) (λ e. RefusedBy tokens.now (grammar.class_or_interface 64) 0 e) }
{
    match class_or_interface(alloc, tokens, MOST_OPEN) {
        Ok((unit, _)) => Ok(unit),
        Err(stop) => Err(fault_of(tokens, stop)),
    }
}

/// The trigger that all tokens are. At most 64 forms are open at once.
pub fn trigger_unit(alloc: Global, tokens: &[Token]) -> Result<Boxed<Unit>, ParseFault>
    ensures { MatchResult result (λ unit. WholeUnit tokens.now (triggers.trigger_whole 64) unit) (λ e. RefusedBy tokens.now (triggers.trigger_whole 64) 0 e) }
{
    match trigger_whole(alloc, tokens, MOST_OPEN) {
        Ok((unit, _)) => Ok(unit),
        Err(stop) => Err(fault_of(tokens, stop)),
    }
}
