// The tokens of a text.

ghost use Rattle.std.specs.Prelude.{◌≡◌};
ghost use Rattle.apex_lexer.specs.Reserved.{reserved};

use apex_text::Span;

/// A token: a range of a text with what it says.
#[derive(Clone, Copy, Debug, PartialEq, Eq, Drop)]
pub struct Token<'a> {
    /// What the token says.
    pub kind: TokenKind,
    /// The bytes of the text that the token is, as they are written.
    pub text: &'a [u8],
    /// Where it stands: byte places from 0. The end of input is the empty range behind the last byte.
    pub span: Span,
}

/// What a token says.
#[derive(Clone, Copy, Debug, PartialEq, Eq, Drop)]
pub enum TokenKind {
    /// A word that the grammar names nowhere.
    Name,
    /// A word that the grammar names somewhere. Whether it may be a name too depends on where it stands.
    Keyword(Keyword),
    /// An Integer literal, at most 2147483647.
    Integer(i32),
    /// A Long literal, at most 9223372036854775807.
    Long(i64),
    /// A Decimal literal: its millionths, below 10^19.
    Decimal(u64),
    /// A text literal, written with its quotes and escapes.
    Quoted,
    /// A date literal of a query: the days from 1970-01-01.
    Date(i32),
    /// A moment literal of a query: the seconds from 1970-01-01T00:00:00Z.
    Moment(i64),
    /// A sign.
    Sign(Sign),
    /// The end of the text.
    End,
}

/// The signs, named by what they mostly mean.
#[derive(Clone, Copy, Debug, PartialEq, Eq, Drop)]
pub enum Sign {
    /// `===`
    Identical,
    /// `!==`
    NotIdentical,
    /// `==`
    Equal,
    /// `!=`
    Differs,
    /// `<=`
    AtMost,
    /// `>=`
    AtLeast,
    /// `&&`
    And,
    /// `||`
    Or,
    /// `++`
    Increment,
    /// `--`
    Decrement,
    /// `+=`
    AddTo,
    /// `-=`
    SubtractFrom,
    /// `*=`
    MultiplyBy,
    /// `/=`
    DivideBy,
    /// `=>`
    Arrow,
    /// `+`
    Plus,
    /// `-`
    Minus,
    /// `*`
    Star,
    /// `/`
    Slash,
    /// `<`
    Less,
    /// `>`
    More,
    /// `=`
    Assign,
    /// `!`
    Not,
    /// `?`
    Question,
    /// `:`
    Colon,
    /// `.`
    Dot,
    /// `,`
    Comma,
    /// `;`
    Semicolon,
    /// `(`
    OpenParen,
    /// `)`
    CloseParen,
    /// `[`
    OpenBracket,
    /// `]`
    CloseBracket,
    /// `{`
    OpenBrace,
    /// `}`
    CloseBrace,
    /// `@`
    At,
}

/// The words that the grammar names, compared without case.
#[derive(Clone, Copy, Debug, PartialEq, Eq, Drop)]
pub enum Keyword {
    Abstract,
    Break,
    Catch,
    Class,
    Continue,
    Delete,
    Do,
    Else,
    Extends,
    False,
    Final,
    Finally,
    For,
    Global,
    If,
    Implements,
    Insert,
    Interface,
    New,
    Null,
    Override,
    Private,
    Protected,
    Public,
    Return,
    Static,
    Super,
    This,
    Throw,
    True,
    Try,
    Update,
    Upsert,
    Virtual,
    Void,
    While,
    Select,
    From,
    Where,
    And,
    Or,
    Not,
    In,
    Like,
    Order,
    By,
    Group,
    Limit,
    Offset,
    Asc,
    Desc,
    Nulls,
    After,
    Before,
    Count,
    First,
    Get,
    Inherited,
    Last,
    On,
    Set,
    Sharing,
    Trigger,
    With,
    Without,
}

/// Where a keyword is no name. Behind a dot each word is one.
#[derive(Clone, Copy, Debug, PartialEq, Eq, Drop)]
pub enum Reserved {
    /// Wherever it stands.
    Everywhere,
    /// Inside a query, outside of its binds.
    InQuery,
    /// It may be a name anywhere.
    Nowhere,
}

impl Keyword {
    /// Where the word is no name.
    pub fn reserved(self) -> Reserved
        ensures { result ≡ reserved self }
    {
        match self {
            Keyword::Abstract
            | Keyword::Break
            | Keyword::Catch
            | Keyword::Class
            | Keyword::Continue
            | Keyword::Delete
            | Keyword::Do
            | Keyword::Else
            | Keyword::Extends
            | Keyword::False
            | Keyword::Final
            | Keyword::Finally
            | Keyword::For
            | Keyword::Global
            | Keyword::If
            | Keyword::Implements
            | Keyword::Insert
            | Keyword::Interface
            | Keyword::New
            | Keyword::Null
            | Keyword::Override
            | Keyword::Private
            | Keyword::Protected
            | Keyword::Public
            | Keyword::Return
            | Keyword::Static
            | Keyword::Super
            | Keyword::This
            | Keyword::Throw
            | Keyword::True
            | Keyword::Try
            | Keyword::Update
            | Keyword::Upsert
            | Keyword::Virtual
            | Keyword::Void
            | Keyword::While => Reserved::Everywhere,
            Keyword::Select
            | Keyword::From
            | Keyword::Where
            | Keyword::And
            | Keyword::Or
            | Keyword::Not
            | Keyword::In
            | Keyword::Like
            | Keyword::Order
            | Keyword::By
            | Keyword::Group
            | Keyword::Limit
            | Keyword::Offset
            | Keyword::Asc
            | Keyword::Desc
            | Keyword::Nulls => Reserved::InQuery,
            Keyword::After
            | Keyword::Before
            | Keyword::Count
            | Keyword::First
            | Keyword::Get
            | Keyword::Inherited
            | Keyword::Last
            | Keyword::On
            | Keyword::Set
            | Keyword::Sharing
            | Keyword::Trigger
            | Keyword::With
            | Keyword::Without => Reserved::Nowhere,
        }
    }
}
