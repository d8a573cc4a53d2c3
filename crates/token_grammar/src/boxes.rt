// Trees in boxes.

ghost use Rattle.std.specs.Prelude.{◌≡◌, List, [], ◌∷◌, ◌++◌, OnOk, OnErr};
ghost use Rattle.apex_lexer.specs.declared.token.Token.{Token};
ghost use Rattle.token_grammar.specs.Notation.{Give};
ghost use Rattle.token_grammar.specs.Readings.{Told};

use crate::fault::Stop;
use apex_list::{Boxed, Items};
use std::alloc::{AllocError, Global};

/// A tree that was read up to this place, in a box.
pub fn boxed<T: Drop>(alloc: Global, tree: T, end: usize) -> Result<(Boxed<T>, usize), Stop>
    ensures { (tokens : List Token) → Told tokens (Give tree) end result }
{
    Ok((Boxed::new(alloc, tree)?, end))
}

/// Adds a tree that lies in a box at the end of a list. Want of memory drops the tree and leaves the list.
pub fn add<T: Drop>(list: &mut Items<T>, tree: Boxed<T>) -> Result<(), AllocError>
    ensures ok { OnOk result (list.new ≡ list.old ++ tree ∷ []) }
    ensures err { OnErr result (list.new ≡ list.old) }
{
    list.push(tree.into_value())
}
