// Dates and moments, which are read between brackets.

ghost use Rattle.std.specs.Prelude.{◌≡◌, true, length};
ghost use Rattle.civil_dates.specs.Texts.{BeginsDate};
ghost use Rattle.apex_lexer.specs.Lexemes.{DateSays, MomentSays};
ghost use Rattle.apex_lexer.specs.Reading.{IsFirst};
ghost use Rattle.apex_lexer.specs.Scans.{Fits};

use crate::lexeme::{LexWord, Lexeme};
use crate::scan::Found;
use crate::token::TokenKind;
use civil_dates::{begins_moment, read_date, read_moment};

fn date(bytes: &[u8]) -> Lexeme
    ensures says { DateSays bytes.now result }
    ensures fits { Fits 10 result }
{
    match read_date(bytes) {
        Some(day) => Lexeme::Says(TokenKind::Date(day)),
        None => Lexeme::Wrong(LexWord::BadChar, 0, 10),
    }
}

fn moment(bytes: &[u8]) -> Lexeme
    ensures says { MomentSays bytes.now result }
    ensures fits { Fits 20 result }
{
    match read_moment(bytes) {
        Some(at) => Lexeme::Says(TokenKind::Moment(at)),
        None => Lexeme::Wrong(LexWord::BadChar, 0, 20),
    }
}

/// The date or moment whose form a text begins with.
pub fn dated(text: &[u8]) -> Found
    requires { BeginsDate text.now }
    ensures first { IsFirst true text.now result.size result.lexeme }
    ensures fits { Fits result.size result.lexeme }
{
    if begins_moment(text) {
        return Found {
            size: 20,
            lexeme: moment(text.split_at(20).0),
        };
    }
    Found {
        size: 10,
        lexeme: date(text.split_at(10).0),
    }
}
