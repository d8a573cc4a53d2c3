// Names of units.

ghost use Rattle.token_grammar.specs.Readings.{Told};
ghost use Rattle.apex_parse_unit.specs.Names as grammar;

use crate::part::UnitName;
use apex_lexer::Token;
use apex_list::Items;
use apex_syntax::Word;
use apex_text::Name;
use std::alloc::Global;
use token_grammar::{Names, ParseWord, Stop, is_name, token_at};

/// The name of a unit with its bytes, and the place behind it.
pub fn unit_name(alloc: Global, tokens: &[Token], at: usize) -> Result<(UnitName, usize), Stop>
    ensures { Told tokens.now grammar.unit_name at result }
{
    match token_at(tokens, at) {
        Some(token) if is_name(Names::InCode, token.kind) => {
            let name = Name::of(alloc, token.text)?;
            let written = Items::from_slice(alloc, token.text)?;
            let word = Word {
                span: token.span,
                name,
            };
            Ok((UnitName { word, written }, at + 1))
        }
        _ => Err(Stop::At(ParseWord::Expected, at)),
    }
}
