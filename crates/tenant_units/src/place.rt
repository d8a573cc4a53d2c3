// Places in texts.

ghost use Rattle.std.specs.Prelude.{◌≡◌, IfOk};
ghost use Rattle.tenant_units.specs.Faults as spec;

use crate::fault::UnitFault;
use apex_lexer::LexWord;
use apex_num::{NoMemory, Text};
use apex_text::line_of;
use fault_words::{Fault, FaultWord};
use std::alloc::Global;
use token_grammar::ParseWord;

/// The word of a fault of tokens.
pub fn lex_word(word: LexWord) -> FaultWord
    ensures { result ≡ spec.lex_word word }
{
    match word {
        LexWord::NotUtf8 => FaultWord::NotUtf8,
        LexWord::BadChar => FaultWord::BadChar,
        LexWord::OpenText => FaultWord::OpenText,
        LexWord::OpenComment => FaultWord::OpenComment,
        LexWord::WideLiteral => FaultWord::WideLiteral,
    }
}

/// The word of a fault of a tree.
pub fn parse_word(word: ParseWord) -> FaultWord
    ensures { result ≡ spec.parse_word word }
{
    match word {
        ParseWord::Expected => FaultWord::Expected,
        ParseWord::TooDeep => FaultWord::TooDeep,
        ParseWord::MixedAndOr => FaultWord::MixedAndOr,
        ParseWord::LockedOrder => FaultWord::LockedOrder,
        ParseWord::TooManyLevels => FaultWord::TooManyLevels,
    }
}

fn place_in(alloc: Global, name: &str, line: usize, column: usize) -> Result<Text, NoMemory>
    ensures { IfOk result (λ t. t ≡ spec.place_in name.now line column) }
{
    let place = format!(in alloc; "{name} {line}:{column}")?;
    Text::from_string(alloc, place)
}

/// The fault of a text of this name, at a byte of it; a byte behind it is its end.
pub fn fault_at(alloc: Global, name: &str, text: &[u8], at: usize, word: FaultWord) -> UnitFault
    ensures { spec.IsTold name.now text.now at word result }
{
    let (line, column) = line_of(text, at.min(text.len()));
    match place_in(alloc, name, line, column) {
        Ok(place) => UnitFault::Wrong(Fault { place, word }),
        Err(_) => UnitFault::NoMemory,
    }
}
