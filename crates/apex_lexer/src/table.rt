// The signs and keywords as tables.

ghost use Rattle.std.specs.Prelude.{◌≡◌};
ghost use Rattle.apex_lexer.specs.Words.{sign_words, keyword_words, sign_shown, keyword_shown};
ghost use Rattle.std.specs.Prelude.{map, true};

use crate::token::{Keyword, Sign};
use case_tables::Keyed;

/// A sign as it is written.
#[derive(Clone, Copy, Debug, Drop)]
pub struct SignRow {
    pub text: &'static str,
    pub sign: Sign,
}

impl Keyed for SignRow {
    ghost key = { λ row. row.text.now };

    fn key(&self) -> &[u8] {
        self.text.as_bytes()
    }
}

/// A keyword in small letters.
#[derive(Clone, Copy, Debug, Drop)]
pub struct KeywordRow {
    pub word: &'static str,
    pub keyword: Keyword,
}

impl Keyed for KeywordRow {
    ghost key = { λ row. row.word.now };

    fn key(&self) -> &[u8] {
        self.word.as_bytes()
    }
}

/// The signs in the order of their bytes.
pub fn sign_rows() -> [SignRow; 35]
    ensures { map sign_shown result ≡ sign_words }
{
    [
        SignRow {
            text: "!",
            sign: Sign::Not,
        },
        SignRow {
            text: "!=",
            sign: Sign::Differs,
        },
        SignRow {
            text: "!==",
            sign: Sign::NotIdentical,
        },
        SignRow {
            text: "&&",
            sign: Sign::And,
        },
        SignRow {
            text: "(",
            sign: Sign::OpenParen,
        },
        SignRow {
            text: ")",
            sign: Sign::CloseParen,
        },
        SignRow {
            text: "*",
            sign: Sign::Star,
        },
        SignRow {
            text: "*=",
            sign: Sign::MultiplyBy,
        },
        SignRow {
            text: "+",
            sign: Sign::Plus,
        },
        SignRow {
            text: "++",
            sign: Sign::Increment,
        },
        SignRow {
            text: "+=",
            sign: Sign::AddTo,
        },
        SignRow {
            text: ",",
            sign: Sign::Comma,
        },
        SignRow {
            text: "-",
            sign: Sign::Minus,
        },
        SignRow {
            text: "--",
            sign: Sign::Decrement,
        },
        SignRow {
            text: "-=",
            sign: Sign::SubtractFrom,
        },
        SignRow {
            text: ".",
            sign: Sign::Dot,
        },
        SignRow {
            text: "/",
            sign: Sign::Slash,
        },
        SignRow {
            text: "/=",
            sign: Sign::DivideBy,
        },
        SignRow {
            text: ":",
            sign: Sign::Colon,
        },
        SignRow {
            text: ";",
            sign: Sign::Semicolon,
        },
        SignRow {
            text: "<",
            sign: Sign::Less,
        },
        SignRow {
            text: "<=",
            sign: Sign::AtMost,
        },
        SignRow {
            text: "=",
            sign: Sign::Assign,
        },
        SignRow {
            text: "==",
            sign: Sign::Equal,
        },
        SignRow {
            text: "===",
            sign: Sign::Identical,
        },
        SignRow {
            text: "=>",
            sign: Sign::Arrow,
        },
        SignRow {
            text: ">",
            sign: Sign::More,
        },
        SignRow {
            text: ">=",
            sign: Sign::AtLeast,
        },
        SignRow {
            text: "?",
            sign: Sign::Question,
        },
        SignRow {
            text: "@",
            sign: Sign::At,
        },
        SignRow {
            text: "[",
            sign: Sign::OpenBracket,
        },
        SignRow {
            text: "]",
            sign: Sign::CloseBracket,
        },
        SignRow {
            text: "{",
            sign: Sign::OpenBrace,
        },
        SignRow {
            text: "||",
            sign: Sign::Or,
        },
        SignRow {
            text: "}",
            sign: Sign::CloseBrace,
        },
    ]
}

/// The keywords in the order of their bytes.
pub fn keyword_rows() -> [KeywordRow; 65]
    ensures { map keyword_shown result ≡ keyword_words }
{
    [
        KeywordRow {
            word: "abstract",
            keyword: Keyword::Abstract,
        },
        KeywordRow {
            word: "after",
            keyword: Keyword::After,
        },
        KeywordRow {
            word: "and",
            keyword: Keyword::And,
        },
        KeywordRow {
            word: "asc",
            keyword: Keyword::Asc,
        },
        KeywordRow {
            word: "before",
            keyword: Keyword::Before,
        },
        KeywordRow {
            word: "break",
            keyword: Keyword::Break,
        },
        KeywordRow {
            word: "by",
            keyword: Keyword::By,
        },
        KeywordRow {
            word: "catch",
            keyword: Keyword::Catch,
        },
        KeywordRow {
            word: "class",
            keyword: Keyword::Class,
        },
        KeywordRow {
            word: "continue",
            keyword: Keyword::Continue,
        },
        KeywordRow {
            word: "count",
            keyword: Keyword::Count,
        },
        KeywordRow {
            word: "delete",
            keyword: Keyword::Delete,
        },
        KeywordRow {
            word: "desc",
            keyword: Keyword::Desc,
        },
        KeywordRow {
            word: "do",
            keyword: Keyword::Do,
        },
        KeywordRow {
            word: "else",
            keyword: Keyword::Else,
        },
        KeywordRow {
            word: "extends",
            keyword: Keyword::Extends,
        },
        KeywordRow {
            word: "false",
            keyword: Keyword::False,
        },
        KeywordRow {
            word: "final",
            keyword: Keyword::Final,
        },
        KeywordRow {
            word: "finally",
            keyword: Keyword::Finally,
        },
        KeywordRow {
            word: "first",
            keyword: Keyword::First,
        },
        KeywordRow {
            word: "for",
            keyword: Keyword::For,
        },
        KeywordRow {
            word: "from",
            keyword: Keyword::From,
        },
        KeywordRow {
            word: "get",
            keyword: Keyword::Get,
        },
        KeywordRow {
            word: "global",
            keyword: Keyword::Global,
        },
        KeywordRow {
            word: "group",
            keyword: Keyword::Group,
        },
        KeywordRow {
            word: "if",
            keyword: Keyword::If,
        },
        KeywordRow {
            word: "implements",
            keyword: Keyword::Implements,
        },
        KeywordRow {
            word: "in",
            keyword: Keyword::In,
        },
        KeywordRow {
            word: "inherited",
            keyword: Keyword::Inherited,
        },
        KeywordRow {
            word: "insert",
            keyword: Keyword::Insert,
        },
        KeywordRow {
            word: "interface",
            keyword: Keyword::Interface,
        },
        KeywordRow {
            word: "last",
            keyword: Keyword::Last,
        },
        KeywordRow {
            word: "like",
            keyword: Keyword::Like,
        },
        KeywordRow {
            word: "limit",
            keyword: Keyword::Limit,
        },
        KeywordRow {
            word: "new",
            keyword: Keyword::New,
        },
        KeywordRow {
            word: "not",
            keyword: Keyword::Not,
        },
        KeywordRow {
            word: "null",
            keyword: Keyword::Null,
        },
        KeywordRow {
            word: "nulls",
            keyword: Keyword::Nulls,
        },
        KeywordRow {
            word: "offset",
            keyword: Keyword::Offset,
        },
        KeywordRow {
            word: "on",
            keyword: Keyword::On,
        },
        KeywordRow {
            word: "or",
            keyword: Keyword::Or,
        },
        KeywordRow {
            word: "order",
            keyword: Keyword::Order,
        },
        KeywordRow {
            word: "override",
            keyword: Keyword::Override,
        },
        KeywordRow {
            word: "private",
            keyword: Keyword::Private,
        },
        KeywordRow {
            word: "protected",
            keyword: Keyword::Protected,
        },
        KeywordRow {
            word: "public",
            keyword: Keyword::Public,
        },
        KeywordRow {
            word: "return",
            keyword: Keyword::Return,
        },
        KeywordRow {
            word: "select",
            keyword: Keyword::Select,
        },
        KeywordRow {
            word: "set",
            keyword: Keyword::Set,
        },
        KeywordRow {
            word: "sharing",
            keyword: Keyword::Sharing,
        },
        KeywordRow {
            word: "static",
            keyword: Keyword::Static,
        },
        KeywordRow {
            word: "super",
            keyword: Keyword::Super,
        },
        KeywordRow {
            word: "this",
            keyword: Keyword::This,
        },
        KeywordRow {
            word: "throw",
            keyword: Keyword::Throw,
        },
        KeywordRow {
            word: "trigger",
            keyword: Keyword::Trigger,
        },
        KeywordRow {
            word: "true",
            keyword: Keyword::True,
        },
        KeywordRow {
            word: "try",
            keyword: Keyword::Try,
        },
        KeywordRow {
            word: "update",
            keyword: Keyword::Update,
        },
        KeywordRow {
            word: "upsert",
            keyword: Keyword::Upsert,
        },
        KeywordRow {
            word: "virtual",
            keyword: Keyword::Virtual,
        },
        KeywordRow {
            word: "void",
            keyword: Keyword::Void,
        },
        KeywordRow {
            word: "where",
            keyword: Keyword::Where,
        },
        KeywordRow {
            word: "while",
            keyword: Keyword::While,
        },
        KeywordRow {
            word: "with",
            keyword: Keyword::With,
        },
        KeywordRow {
            word: "without",
            keyword: Keyword::Without,
        },
    ]
}
