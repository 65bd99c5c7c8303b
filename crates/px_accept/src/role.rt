//! What tokens are to the acceptor.
ghost use Rattle.std.specs.Prelude.{◌≡◌, ◌<◌};
ghost use Rattle.px_accept.specs.Codes.{role_code, spelling_code};

/// An identifier, as far as the grammar asks how it is spelled.
#[derive(Clone, Copy)]
pub enum Spelling {
    Create,
    Table,
    /// `LONG` or `TEXT`.
    Column,
    System,
    Out,
    Println,
    SqlException,
    /// Any other identifier, `String` and `ResultSet` among them.
    Plain,
}

/// What a token is to the acceptor.
#[derive(Clone, Copy)]
pub enum Role {
    /// An identifier.
    Name(Spelling),
    Public,
    Private,
    Class,
    /// `int` or `long`.
    Integral,
    Boolean,
    Void,
    Throws,
    If,
    Else,
    While,
    For,
    Return,
    New,
    /// A literal, `true`, `false`, `null` or `this`.
    Value,
    OpenBrace,
    CloseBrace,
    Open,
    Close,
    OpenBracket,
    CloseBracket,
    Comma,
    Semicolon,
    Dot,
    Assign,
    /// `+=` and the like.
    Compound,
    /// `++` or `--`.
    Step,
    Minus,
    /// `!` or `~`.
    Not,
    /// A binary operator other than `-`.
    Infix,
    /// The end of the text.
    End,
    /// What the grammar lacks: a piece that is no token, or a keyword or sign of no form.
    Other,
}

// Roles are compared by their codes.
pub fn spelling_code(spelling: Spelling) -> u8
    ensures is { result ≡ spelling_code spelling }
    ensures small { result < 8 }
{
    match spelling {
        Spelling::Create => 0,
        Spelling::Table => 1,
        Spelling::Column => 2,
        Spelling::System => 3,
        Spelling::Out => 4,
        Spelling::Println => 5,
        Spelling::SqlException => 6,
        Spelling::Plain => 7,
    }
}

pub fn role_code(role: Role) -> u8
    ensures { result ≡ role_code role }
{
    match role {
        Role::Name(spelling) => 40 + spelling_code(spelling),
        Role::Public => 1,
        Role::Private => 2,
        Role::Class => 3,
        Role::Integral => 4,
        Role::Boolean => 5,
        Role::Void => 6,
        Role::Throws => 7,
        Role::If => 8,
        Role::Else => 9,
        Role::While => 10,
        Role::For => 11,
        Role::Return => 12,
        Role::New => 13,
        Role::Value => 14,
        Role::OpenBrace => 15,
        Role::CloseBrace => 16,
        Role::Open => 17,
        Role::Close => 18,
        Role::OpenBracket => 19,
        Role::CloseBracket => 20,
        Role::Comma => 21,
        Role::Semicolon => 22,
        Role::Dot => 23,
        Role::Assign => 24,
        Role::Compound => 25,
        Role::Step => 26,
        Role::Minus => 27,
        Role::Not => 28,
        Role::Infix => 29,
        Role::End => 30,
        Role::Other => 31,
    }
}
