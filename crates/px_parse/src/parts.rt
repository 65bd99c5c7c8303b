//! Parts of statements that hold statements.
use px_tree::{Expr, Stmt};
use px_words::Lexeme;
use sqlite_items::{Boxed, Items};

/// The parentheses of a `for`.
#[derive(Drop)]
pub struct Turns {
    pub first: Boxed<Stmt>,
    pub test: Expr,
    pub last: Boxed<Stmt>,
}

/// A block.
#[derive(Drop)]
pub struct Braces {
    pub opening: Lexeme,
    pub items: Items<Stmt>,
    /// The number of its last token.
    pub to: u32,
}
