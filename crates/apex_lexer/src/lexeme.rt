// The pieces that a text is made of.

use crate::token::TokenKind;
use thiserror::Error;

/// Why a text has no tokens.
#[derive(Clone, Copy, Debug, PartialEq, Eq, Drop, Error)]
pub enum LexWord {
    /// A byte that begins no valid sequence of UTF-8.
    #[error("NotUtf8")]
    NotUtf8,
    /// A character that begins no token, a backslash that begins no escape, or a date that is none.
    #[error("BadChar")]
    BadChar,
    /// A text literal that isn't closed on its line.
    #[error("OpenText")]
    OpenText,
    /// A comment without its end.
    #[error("OpenComment")]
    OpenComment,
    /// A number that is out of its range, or has more than six digits after the dot.
    #[error("WideLiteral")]
    WideLiteral,
}

/// What a piece of a text is.
#[derive(Clone, Copy, Debug, PartialEq, Eq, Drop)]
pub enum Lexeme {
    /// Blanks or a comment, which separate tokens.
    Apart,
    /// A token.
    Says(TokenKind),
    /// A fault, with the range of the piece where it stands.
    Wrong(LexWord, usize, usize),
}
