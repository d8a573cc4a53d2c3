// The kind of a unit.

ghost use Rattle.std.specs.Prelude.{◌≡◌};
ghost use Rattle.token_grammar.specs.Notation.{seen};
ghost use Rattle.apex_parse_unit.specs.Kinds as kinds;

use apex_lexer::{Keyword, Token, TokenKind};

/// What a unit is.
#[derive(Clone, Copy, Debug, PartialEq, Eq, Drop)]
pub enum UnitKind {
    Class,
    Interface,
    Trigger,
}

fn kind_word(kind: TokenKind) -> Option<UnitKind>
    ensures { result ≡ kinds.kind_word kind }
{
    match kind {
        TokenKind::Keyword(word) => match word {
            Keyword::Class => Some(UnitKind::Class),
            Keyword::Interface => Some(UnitKind::Interface),
            Keyword::Trigger => Some(UnitKind::Trigger),
            _ => None,
        },
        _ => None,
    }
}

/// The kind of a unit: what the first of its words says that is `class`, `interface` or `trigger`, wherever it stands. A
/// text without such a word is read as a class.
pub fn unit_kind(tokens: &[Token]) -> UnitKind
    ensures { result ≡ kinds.unit_kind (seen tokens.now) }
{
    for token in tokens {
        if let Some(kind) = kind_word(token.kind) {
            return kind;
        }
    }
    UnitKind::Class
}
