// Where a type of any depth ends.

ghost use Rattle.std.specs.Prelude.{◌≡◌, ◌∷◌, [], ℕ, length, IfOk, MatchOption};
ghost use Rattle.token_grammar.specs.Notation.{seen};
ghost use Rattle.apex_parse_leaf.specs.declared.ends.Next.TheVariants as next;
ghost use Rattle.apex_parse_leaf.specs.Ends.{IsHead, ArePairs, GoesOn, IsLater, IsEnd};

use crate::types::{arrays, member};
use apex_lexer::{Sign, Token};
use apex_list::Stack;
use std::alloc::{AllocError, Global};
use token_grammar::{Names, Stop, is_sign, name};

/// What comes next in a look ahead.
#[derive(Clone, Copy, Drop)]
pub enum Next {
    /// A type, at this place.
    Due(usize),
    /// What closes the types around one that ended here.
    Behind(usize),
    /// No type is there.
    Nothing,
}

// The place behind a name, and one behind a dot.
fn head(alloc: Global, tokens: &[Token], at: usize) -> Result<Option<usize>, AllocError>
    ensures { IfOk result (λ found. MatchOption found ((end : ℕ) → IsHead (seen tokens.now) at end → ⊥) (λ end. IsHead (seen tokens.now) at end)) }
{
    let behind = match name(alloc, tokens, at, Names::InCode) {
        Ok((_, behind)) => behind,
        Err(Stop::At(..)) => return Ok(None),
        Err(Stop::NoMemory) => return Err(AllocError),
    };
    match member(alloc, tokens, behind) {
        Ok((_, end)) => Ok(Some(end)),
        Err(Stop::At(..)) => Ok(None),
        Err(Stop::NoMemory) => Err(AllocError),
    }
}

// What comes behind the pairs of brackets here.
fn pairs(tokens: &[Token], at: usize) -> Result<Option<usize>, AllocError>
    ensures { IfOk result (λ found. MatchOption found ((end : ℕ) → ArePairs (seen tokens.now) at end → ⊥) (λ end. ArePairs (seen tokens.now) at end)) }
{
    match arrays(tokens, at, 1) {
        Ok((_, end)) => Ok(Some(end)),
        Err(Stop::At(..)) => Ok(None),
        Err(Stop::NoMemory) => Err(AllocError),
    }
}

// A type: it ends, or it opens another one.
fn due(
    alloc: Global,
    tokens: &[Token],
    at: usize,
    levels: &mut Stack<bool>,
) -> Result<Next, AllocError>
    ensures same { IfOk result (λ after. GoesOn (seen tokens.now) (next.Due at) levels.old after levels.new) }
    ensures later { IfOk result (λ after. IsLater (length (seen tokens.now)) at after) }
{
    let Some(behind) = head(alloc, tokens, at)? else {
        return Ok(Next::Nothing);
    };
    if is_sign(tokens, behind, Sign::Less) {
        let inside = behind + 1;
        levels.push(false)?;
        return Ok(Next::Due(inside));
    }
    match pairs(tokens, behind)? {
        Some(end) => Ok(Next::Behind(end)),
        None => Ok(Next::Nothing),
    }
}

// What closes the innermost type that is open.
fn closing(
    tokens: &[Token],
    at: usize,
    second: bool,
    levels: &mut Stack<bool>,
) -> Result<Next, AllocError>
    ensures same { IfOk result (λ after. GoesOn (seen tokens.now) (next.Behind at) (second ∷ levels.old) after levels.new) }
    ensures later { IfOk result (λ after. IsLater (length (seen tokens.now)) at after) }
{
    if is_sign(tokens, at, Sign::More) {
        return match pairs(tokens, at + 1)? {
            Some(end) => Ok(Next::Behind(end)),
            None => Ok(Next::Nothing),
        };
    }
    if second {
        return Ok(Next::Nothing);
    }
    if is_sign(tokens, at, Sign::Comma) {
        let behind = at + 1;
        levels.push(true)?;
        return Ok(Next::Due(behind));
    }
    Ok(Next::Nothing)
}

/// Where a type of any depth ends that begins here, and `None` where none does. It takes no more memory than a bit for
/// each type that is open.
pub fn type_end(alloc: Global, tokens: &[Token], at: usize) -> Result<Option<usize>, AllocError>
    ensures { IfOk result (λ found. IsEnd (seen tokens.now) at found) }
{
    let mut levels = Stack::new(alloc);
    let mut next = Next::Due(at);
    'types: loop {
        next = match next {
            Next::Due(place) => due(alloc, tokens, place, &mut levels)?,
            Next::Behind(place) => match levels.pop() {
                None => return Ok(Some(place)),
                Some(second) => closing(tokens, place, second, &mut levels)?,
            },
            Next::Nothing => return Ok(None),
        };
    }
}
