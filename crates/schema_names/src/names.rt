// Names of a schema.

ghost use Rattle.std.specs.Prelude.{◌≡◌, bytes_eq, IfOk};
ghost use Rattle.std.specs.List.{list_all, list_any};
ghost use Rattle.apex_text.specs.Fold as fold;
ghost use Rattle.schema_names.specs.Names as spec;

use apex_num::{NoMemory, Text};
use apex_text::Name;
use std::alloc::Global;

// The words that are reserved everywhere.
const KEYWORDS: [&str; 36] = [
    "abstract",
    "break",
    "catch",
    "class",
    "continue",
    "delete",
    "do",
    "else",
    "extends",
    "false",
    "final",
    "finally",
    "for",
    "global",
    "if",
    "implements",
    "insert",
    "interface",
    "new",
    "null",
    "override",
    "private",
    "protected",
    "public",
    "return",
    "static",
    "super",
    "this",
    "throw",
    "true",
    "try",
    "update",
    "upsert",
    "virtual",
    "void",
    "while",
];

pub fn is_letter(b: u8) -> bool
    ensures { result ≡ spec.is_letter b }
{
    (64 < b && b < 91) || (96 < b && b < 123)
}

pub fn is_digit(b: u8) -> bool
    ensures { result ≡ spec.is_digit b }
{
    47 < b && b < 58
}

fn is_word_byte(b: u8) -> bool
    ensures { result ≡ spec.is_word_byte b }
{
    is_letter(b) || is_digit(b) || b == 95
}

fn are_word_bytes(name: &[u8]) -> bool
    ensures { result ≡ list_all spec.is_word_byte name.now }
{
    for b in name {
        if !is_word_byte(*b) {
            return false;
        }
    }
    true
}

fn is_identifier(name: &[u8]) -> bool
    ensures { result ≡ spec.is_identifier name.now }
{
    match name {
        [] => false,
        [first, rest @ ..] => is_letter(*first) && are_word_bytes(rest),
    }
}

// Whether one of these words is this one.
fn is_among(words: &[&str], word: &[u8]) -> bool
    ensures { result ≡ list_any (λ w. bytes_eq w.now word.now) words.now }
{
    for one in words {
        if one.as_bytes() == word {
            return true;
        }
    }
    false
}

fn is_keyword(folded: &[u8]) -> bool
    ensures { result ≡ spec.has spec.keywords folded.now }
{
    is_among(&KEYWORDS, folded)
}

/// Whether a name is no identifier, or a keyword.
pub fn is_bad_name(name: &[u8], folded: &Name) -> bool
    requires { folded.now ≡ fold.folded name.now }
    ensures { result ≡ spec.is_bad_name name.now }
{
    !is_identifier(name) || is_keyword(folded.bytes())
}

/// A text as a name.
pub fn name_of(alloc: Global, text: &Text) -> Result<Name, NoMemory>
    ensures { IfOk result (λ name. name ≡ fold.folded text.now) }
{
    Ok(Name::of(alloc, text.bytes())?)
}
