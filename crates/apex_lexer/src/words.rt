// What a word or a sign says, by the tables.

ghost use Rattle.std.specs.Prelude.{◌≡◌, map};
ghost use Rattle.apex_lexer.specs.Words.{sign_shown, sign_words, sign_of as the_sign, keyword_shown, keyword_words, value_of, keyword_of as the_keyword, kind_of, word_kind as the_kind};

use crate::table::{KeywordRow, SignRow};
use crate::token::{Keyword, Sign, TokenKind};
use case_tables::Cases;

/// The table of the signs.
pub fn sign_table<'a>(rows: &'a [SignRow; 35]) -> Cases<'a, SignRow, 35>
    requires { map sign_shown rows.now ≡ sign_words }
    ensures { map sign_shown result.rows.now ≡ sign_words }
{
    match Cases::new(rows) {
        Some(table) => table,
        None => unreachable!(),
    }
}

/// The table of the keywords.
pub fn keyword_table<'a>(rows: &'a [KeywordRow; 65]) -> Cases<'a, KeywordRow, 65>
    requires { map keyword_shown rows.now ≡ keyword_words }
    ensures { map keyword_shown result.rows.now ≡ keyword_words }
{
    match Cases::new(rows) {
        Some(table) => table,
        None => unreachable!(),
    }
}

/// The sign that is written so.
pub fn sign_of(signs: &Cases<SignRow, 35>, text: &[u8]) -> Option<Sign>
    requires { map sign_shown signs.now.rows.now ≡ sign_words }
    ensures { result ≡ the_sign text.now }
{
    match signs.find(text) {
        Some(row) => Some(row.sign),
        None => None,
    }
}

// The keyword in small letters.
fn keyword_in(words: &Cases<KeywordRow, 65>, folded: &[u8]) -> Option<Keyword>
    requires { map keyword_shown words.now.rows.now ≡ keyword_words }
    ensures { result ≡ value_of keyword_words folded.now }
{
    match words.find(folded) {
        Some(row) => Some(row.keyword),
        None => None,
    }
}

// No keyword is longer.
const LONGEST: usize = 10;

/// The keyword that is written so, in any case.
pub fn keyword_of(words: &Cases<KeywordRow, 65>, written: &[u8]) -> Option<Keyword>
    requires { map keyword_shown words.now.rows.now ≡ keyword_words }
    ensures { result ≡ the_keyword written.now }
{
    if written.len() > LONGEST {
        return None;
    }
    let mut room = [0; LONGEST];
    let folded = &mut room[..written.len()];
    folded.copy_from_slice(written);
    folded.make_ascii_lowercase();
    keyword_in(words, folded)
}

/// What a word says.
pub fn word_kind(words: &Cases<KeywordRow, 65>, written: &[u8]) -> TokenKind
    requires { map keyword_shown words.now.rows.now ≡ keyword_words }
    ensures { result ≡ the_kind written.now }
{
    match keyword_of(words, written) {
        Some(keyword) => TokenKind::Keyword(keyword),
        None => TokenKind::Name,
    }
}
