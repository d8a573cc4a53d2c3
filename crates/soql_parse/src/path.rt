// Paths.

ghost use Rattle.token_grammar.specs.Readings.{Told};
ghost use Rattle.soql_parse.specs.Queries as grammar;

use apex_lexer::{Sign, Token};
use apex_list::Items;
use apex_syntax::{PathTree, Word};
use std::alloc::Global;
use token_grammar::{Names, ParseWord, Stop, is_sign, name, pass_sign, span_of};

// The names behind the first name of a path, which stands at `start`.
fn links(
    alloc: Global,
    tokens: &[Token],
    at: usize,
    start: usize,
    first: Word,
) -> Result<(Items<Word>, usize), Stop>
    ensures { Told tokens.now (grammar.names start first) at result }
{
    let mut names = Items::new(alloc);
    names.push(first)?;
    let mut at = at;
    'links: while is_sign(tokens, at, Sign::Dot) {
        let behind = pass_sign(tokens, at, Sign::Dot)?;
        let (word, after) = name(alloc, tokens, behind, Names::AllWords)?;
        if names.len() == 6 {
            return Err(Stop::At(ParseWord::TooManyLevels, start));
        }
        names.push(word)?;
        at = after;
    }
    Ok((names, at))
}

/// A path of one to six names.
pub fn path(alloc: Global, tokens: &[Token], at: usize) -> Result<(PathTree, usize), Stop>
    ensures { Told tokens.now grammar.path at result }
{
    let (first, behind) = name(alloc, tokens, at, Names::InQuery)?;
    let (names, end) = links(alloc, tokens, behind, at, first)?;
    let span = span_of(tokens, at, end);
    Ok((PathTree { span, names }, end))
}
