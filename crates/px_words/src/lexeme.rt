//! What each token is to the grammar.
ghost use Rattle.std.specs.Prelude.{◌≡◌};
ghost use Rattle.px_words.specs.Lexemes.{is_name};

/// The terminals of the grammar.
#[derive(Clone, Copy, Debug, PartialEq, Eq)]
pub enum Word {
    Public,
    Private,
    Class,
    Int,
    Long,
    Boolean,
    Void,
    Throws,
    If,
    Else,
    While,
    For,
    Return,
    New,
    This,
    True,
    False,
    Null,
    /// An identifier that is none of those below.
    Name,
    /// The identifiers that the grammar knows by their spelling.
    Create,
    Table,
    ColumnLong,
    ColumnText,
    System,
    Out,
    Println,
    SqlException,
    StringType,
    ResultSet,
    Db,
    /// An integer literal.
    Number,
    /// A string literal.
    Text,
    OpenBrace,
    CloseBrace,
    Open,
    Close,
    OpenBracket,
    CloseBracket,
    Comma,
    Semicolon,
    Dot,
    Assign,
    PlusAssign,
    MinusAssign,
    TimesAssign,
    OverAssign,
    RestAssign,
    AndAssign,
    OrAssign,
    XorAssign,
    ShlAssign,
    ShrAssign,
    UshrAssign,
    Increment,
    Decrement,
    Plus,
    Minus,
    Times,
    Over,
    Rest,
    And,
    Or,
    Xor,
    Shl,
    Shr,
    Ushr,
    Less,
    AtMost,
    More,
    AtLeast,
    Equal,
    Unequal,
    Both,
    Either,
    Not,
    Inv,
    /// A keyword of Java that the grammar doesn't use.
    Unused,
    /// A byte that is no token.
    Bad,
    End,
}

impl Word {
    /// Whether it is an identifier.
    pub fn is_name(self) -> bool
        ensures { result ≡ is_name self }
    {
        matches!(
            self,
            Word::Name
                | Word::Create
                | Word::Table
                | Word::ColumnLong
                | Word::ColumnText
                | Word::System
                | Word::Out
                | Word::Println
                | Word::SqlException
                | Word::StringType
                | Word::ResultSet
                | Word::Db
        )
    }
}

/// A token with its place in the text, its number from 0, and what it is to the grammar.
#[derive(Clone, Copy, Debug, PartialEq, Eq)]
pub struct Lexeme {
    pub word: Word,
    pub from: u32,
    pub to: u32,
    pub token: u32,
}
