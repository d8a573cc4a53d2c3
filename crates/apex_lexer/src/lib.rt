//! The lexer: from the bytes of a text to its tokens.
#![tactic(auto)]

mod brackets;
mod dated;
mod lexeme;
mod lexer;
mod scan;
mod table;
mod token;
mod words;

pub use lexeme::{LexWord, Lexeme};
pub use lexer::{LexFault, lex};
pub use token::{Keyword, Reserved, Sign, Token, TokenKind};
