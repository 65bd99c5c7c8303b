//! Classes, tables and the whole of a text.
ghost use Rattle.std.specs.Prelude.{◌≡◌, ◌<◌, ◌≤◌, [], ◌∷◌, length, IfOk, OnOk};
ghost use Rattle.px_parse.specs.Reading as spec;
ghost use Rattle.px_parse.specs.Reading.{Gives, Finds};
ghost use Rattle.px_parse.specs.Trees as tree;

use crate::error::ReadError;
use crate::source::Source;
use crate::tokens::Tokens;
use crate::whole::Declared;
use px_tree::{Class, Column, Member, TableDecl};
use px_words::{Lexeme, Word};
use sqlite_items::Items;
use std::alloc::AllocError;

fn is_text(word: Word) -> bool
    ensures { result ≡ tree.is_text word }
{
    matches!(word, Word::ColumnText)
}

#[tactic(auto, unfolding(crate::specs::Reading::skip))]
fn skip_public(tokens: &mut Tokens<'_>) -> Result<(), ReadError>
    ensures gives { Gives (spec.by_test (spec.sees Word.Public) spec.skip (spec.pure tt) tokens.old.left.now) result tokens.new.left.now }
    ensures fewer { OnOk result (length tokens.new.left.now ≤ length tokens.old.left.now) }
{
    if tokens.sees(Word::Public) {
        tokens.take()?;
    }
    Ok(())
}

impl Source<'_> {
    fn class_of(&self, name: Lexeme, members: Items<Member>) -> Result<Class, AllocError>
        ensures { IfOk result (λ c. c ≡ tree.class_of self.now.bytes.now name members) }
    {
        let name = self.name(name)?;
        Ok(Class { name, members })
    }

    #[tactic(auto, unfolding(crate::specs::Reading::class))]
    fn class(&self, tokens: &mut Tokens<'_>) -> Result<Class, ReadError>
        ensures gives { Gives (spec.class self.now.bytes.now tokens.old.left.now) result tokens.new.left.now }
        ensures fewer { OnOk result (length tokens.new.left.now < length tokens.old.left.now) }
    {
        skip_public(tokens)?;
        tokens.expect(Word::Class)?;
        let name = tokens.take()?;
        tokens.expect(Word::OpenBrace)?;
        let members = self.members(tokens)?;
        tokens.expect(Word::CloseBrace)?;
        Ok(self.class_of(name, members)?)
    }

    // What stands before the end.
    fn classes(&self, tokens: &mut Tokens<'_>) -> Result<Items<Class>, ReadError>
        ensures gives { Gives (spec.all_while (spec.sees_no Word.End) (spec.class self.now.bytes.now) [] tokens.old.left.now) result tokens.new.left.now }
    {
        let mut classes = Items::new(self.alloc);
        for _turn in 0..tokens.left.len() {
            if tokens.sees(Word::End) {
                return Ok(classes);
            }
            classes.push(self.class(tokens)?)?;
        }
        Ok(classes)
    }

    fn column_of(&self, name: Lexeme, ty: Lexeme) -> Result<Column, AllocError>
        ensures { IfOk result (λ c. c ≡ tree.column_of self.now.bytes.now name ty) }
    {
        let name = self.name(name)?;
        Ok(Column {
            name,
            text: is_text(ty.word),
        })
    }

    #[tactic(auto, unfolding(crate::specs::Reading::column))]
    fn column(&self, tokens: &mut Tokens<'_>) -> Result<Column, ReadError>
        ensures gives { Gives (spec.column self.now.bytes.now tokens.old.left.now) result tokens.new.left.now }
        ensures fewer { OnOk result (length tokens.new.left.now < length tokens.old.left.now) }
    {
        let name = tokens.take()?;
        let ty = tokens.take()?;
        Ok(self.column_of(name, ty)?)
    }

    // A comma and a column.
    #[tactic(auto, unfolding(crate::specs::Reading::next_column))]
    fn next_column(&self, tokens: &mut Tokens<'_>) -> Result<Column, ReadError>
        ensures gives { Gives (spec.next_column self.now.bytes.now tokens.old.left.now) result tokens.new.left.now }
        ensures fewer { OnOk result (length tokens.new.left.now < length tokens.old.left.now) }
    {
        tokens.take()?;
        self.column(tokens)
    }

    // The columns behind the first, with it.
    fn more_columns(
        &self,
        tokens: &mut Tokens<'_>,
        first: Column,
    ) -> Result<Items<Column>, ReadError>
        ensures gives { Gives (spec.all_while (spec.sees Word.Comma) (spec.next_column self.now.bytes.now) (first ∷ []) tokens.old.left.now) result tokens.new.left.now }
        ensures fewer { OnOk result (length tokens.new.left.now ≤ length tokens.old.left.now) }
    {
        let mut columns = Items::new(self.alloc);
        columns.push(first)?;
        for _turn in 0..tokens.left.len() {
            if !tokens.sees(Word::Comma) {
                return Ok(columns);
            }
            columns.push(self.next_column(tokens)?)?;
        }
        Ok(columns)
    }

    fn table_of(&self, name: Lexeme, columns: Items<Column>) -> Result<TableDecl, AllocError>
        ensures { IfOk result (λ t. t ≡ tree.table_of self.now.bytes.now name columns) }
    {
        let name = self.name(name)?;
        Ok(TableDecl { name, columns })
    }

    #[tactic(auto, unfolding(crate::specs::Reading::table))]
    fn table(&self, tokens: &mut Tokens<'_>) -> Result<TableDecl, ReadError>
        ensures gives { Gives (spec.table self.now.bytes.now tokens.old.left.now) result tokens.new.left.now }
        ensures fewer { OnOk result (length tokens.new.left.now < length tokens.old.left.now) }
    {
        tokens.expect(Word::Create)?;
        tokens.expect(Word::Table)?;
        let name = tokens.take()?;
        tokens.expect(Word::Open)?;
        let first = self.column(tokens)?;
        let columns = self.more_columns(tokens, first)?;
        tokens.expect(Word::Close)?;
        tokens.expect(Word::Semicolon)?;
        Ok(self.table_of(name, columns)?)
    }

    fn tables(&self, tokens: &mut Tokens<'_>) -> Result<Items<TableDecl>, ReadError>
        ensures gives { Gives (spec.all_while (spec.sees Word.Create) (spec.table self.now.bytes.now) [] tokens.old.left.now) result tokens.new.left.now }
    {
        let mut tables = Items::new(self.alloc);
        for _turn in 0..tokens.left.len() {
            if !tokens.sees(Word::Create) {
                return Ok(tables);
            }
            tables.push(self.table(tokens)?)?;
        }
        Ok(tables)
    }

    #[tactic(auto, unfolding(crate::specs::Reading::program))]
    fn program(&self, tokens: &mut Tokens<'_>) -> Result<Declared, ReadError>
        ensures gives { Gives (spec.program self.now.bytes.now tokens.old.left.now) result tokens.new.left.now }
    {
        let tables = self.tables(tokens)?;
        let classes = self.classes(tokens)?;
        tokens.expect(Word::End)?;
        Ok(Declared { tables, classes })
    }

    /// What the lexemes declare, all of them.
    pub fn whole(&self, lexemes: &[Lexeme]) -> Result<Declared, ReadError>
        ensures { Finds (spec.program self.now.bytes.now lexemes.now) result }
    {
        let mut tokens = Tokens { left: lexemes };
        let declared = self.program(&mut tokens)?;
        match tokens.left {
            [] => Ok(declared),
            _ => Err(ReadError::Unreadable),
        }
    }
}
