//! What is known of a program that keeps the type rules.
use crate::operation::Operation;
use crate::types::Ty;
use px_tree::Program;
use px_value::{Schema, Text};
use sqlite_items::Items;

/// What an expression names or makes, or the local that a statement writes.
#[derive(Clone, Copy, Debug, PartialEq, Eq)]
pub enum Named {
    Nothing,
    /// `this` is 0; then come the parameters, then the locals in the order of their declarations.
    Local(u16),
    /// A field of a class, by the class's place in the file and its own in the class, from 0.
    Field { class: u16, place: u16 },
    /// A method, by its number over the whole program, from 1.
    Method(u16),
    /// `new` of a class. `new` expressions have numbers over the whole program, from 1.
    NewObject { class: u16, site: u16 },
    /// `new` of an array, which is numbered with those of classes.
    NewArray { site: u16 },
    /// An array's `length`.
    ArrayLength,
    /// A String's `length()`.
    TextLength,
    /// A String's `equals(s)`.
    TextEquals,
    /// `Db`, before `.query(` or `.update(`.
    Database,
    /// `Db.query(..)`. The calls of `Db` have numbers over the whole program, from 1; the rows that
    /// it makes have a site, which is numbered with those of `new`.
    Query { number: u16, site: u16 },
    /// `Db.update(..)`, which is numbered with the queries.
    Update { number: u16 },
    /// A ResultSet's `next()`.
    Next,
    /// A ResultSet's `getLong(i)`.
    GetLong,
    /// A ResultSet's `getString(i)`.
    GetString,
}

/// What is known of a statement or an expression.
#[derive(Clone, Copy, Debug, PartialEq, Eq)]
pub struct Fact {
    /// The type of an expression, or of the local that a statement writes; else `Void`.
    pub ty: Ty,
    /// The local of a declaration, `x += e`, `x++` and the like, or what an expression names or makes.
    pub named: Named,
}

#[derive(Drop)]
pub struct ClassFact {
    /// The types of its fields.
    pub fields: Items<Ty>,
}

#[derive(Drop)]
pub struct MethodFact {
    /// The place of its class in the file.
    pub class: u16,
    pub params: Items<Ty>,
    pub result: Ty,
    /// The types of `this`, of the parameters and of each local that it declares.
    pub slots: Items<Ty>,
}

/// A public method of Main.
#[derive(Drop)]
pub struct Entry {
    pub name: Text,
    /// Its number over the whole program, from 1.
    pub method: u16,
    pub params: Items<px_value::Ty>,
    pub gives: Option<px_value::Ty>,
}

/// The class Main.
#[derive(Drop)]
pub struct Main {
    /// Its place in the file.
    pub class: u16,
    /// In the order of the file.
    pub entries: Items<Entry>,
}

/// What is known of a program.
#[derive(Drop)]
pub struct Facts {
    /// By the number of a statement or an expression.
    pub nodes: Items<Fact>,
    /// In the order of the file.
    pub classes: Items<ClassFact>,
    /// In the order of the file, which is that of their numbers.
    pub methods: Items<MethodFact>,
    /// By the number of a call of `Db`, from 1.
    pub operations: Items<Operation>,
    pub main: Main,
}

/// A program that keeps the type rules.
#[derive(Drop)]
pub struct Checked {
    pub program: Program,
    /// The tables that it declares.
    pub schema: Schema,
    pub facts: Facts,
}
