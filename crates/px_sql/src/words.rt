//! The words of a statement.
ghost use Rattle.std.specs.Prelude.{◌≡◌, ◌++◌, ◌∷◌, [], List, length, drop, map, OnOk, IfOk};
ghost use Rattle.px_sql.specs.Words as w;

use crate::names::{columns_of, name_at, name_of};
use crate::spelling::{Keyword, Sign, Word};
use px_value::{Column, Schema, Statement, Text};
use sqlite_items::Items;
use std::alloc::{AllocError, Global};

/// The words that spell the statement.
pub(crate) fn words_of(
    alloc: Global,
    schema: &Schema,
    statement: &Statement,
) -> Result<Items<Word>, AllocError>
    ensures { IfOk result (λ words. words ≡ w.words_of schema.now statement.now) }
{
    match statement {
        Statement::ByKey { table, columns } => by_key(alloc, schema, *table, columns.as_slice()),
        Statement::ByColumn {
            table,
            columns,
            column,
        } => by_column(alloc, schema, *table, columns.as_slice(), *column),
        Statement::All { table, columns } => all(alloc, schema, *table, columns.as_slice()),
        Statement::Update { table, columns } => update(alloc, schema, *table, columns.as_slice()),
        Statement::Insert { table } => insert(alloc, schema, *table),
        Statement::Delete { table } => delete(alloc, schema, *table),
    }
}

fn by_key(
    alloc: Global,
    schema: &Schema,
    table: u16,
    columns: &[u8],
) -> Result<Items<Word>, AllocError>
    ensures { IfOk result (λ words. words ≡ w.select schema.now table columns.now (w.where_equals (w.key (w.columns_of schema.now table)))) }
{
    let mut words = select(alloc, schema, table, columns)?;
    push_where(alloc, &mut words, name_at(columns_of(schema, table), 0))?;
    Ok(words)
}

fn by_column(
    alloc: Global,
    schema: &Schema,
    table: u16,
    columns: &[u8],
    column: u8,
) -> Result<Items<Word>, AllocError>
    ensures { IfOk result (λ words. words ≡ w.select schema.now table columns.now (w.where_equals (w.name_at (w.columns_of schema.now table) column) ++ w.in_order_of (w.key (w.columns_of schema.now table)))) }
{
    let mut words = select(alloc, schema, table, columns)?;
    push_where(
        alloc,
        &mut words,
        name_at(columns_of(schema, table), column),
    )?;
    push_order(alloc, &mut words, name_at(columns_of(schema, table), 0))?;
    Ok(words)
}

fn all(
    alloc: Global,
    schema: &Schema,
    table: u16,
    columns: &[u8],
) -> Result<Items<Word>, AllocError>
    ensures { IfOk result (λ words. words ≡ w.select schema.now table columns.now (w.in_order_of (w.key (w.columns_of schema.now table)))) }
{
    let mut words = select(alloc, schema, table, columns)?;
    push_order(alloc, &mut words, name_at(columns_of(schema, table), 0))?;
    Ok(words)
}

// The words up to the name of the table.
fn select(
    alloc: Global,
    schema: &Schema,
    table: u16,
    columns: &[u8],
) -> Result<Items<Word>, AllocError>
    ensures { IfOk result (λ words. words ≡ w.select schema.now table columns.now []) }
{
    let mut words = Items::new(alloc);
    words.push(Word::Keyword(Keyword::Select))?;
    push_listed(alloc, &mut words, columns_of(schema, table), columns)?;
    words.push(Word::Keyword(Keyword::From))?;
    push_name(alloc, &mut words, name_of(schema, table))?;
    Ok(words)
}

fn update(
    alloc: Global,
    schema: &Schema,
    table: u16,
    columns: &[u8],
) -> Result<Items<Word>, AllocError>
    ensures { IfOk result (λ words. words ≡ w.update schema.now table columns.now) }
{
    let mut words = Items::new(alloc);
    words.push(Word::Keyword(Keyword::Update))?;
    push_name(alloc, &mut words, name_of(schema, table))?;
    words.push(Word::Keyword(Keyword::Set))?;
    push_assigned(alloc, &mut words, columns_of(schema, table), columns)?;
    push_where(alloc, &mut words, name_at(columns_of(schema, table), 0))?;
    Ok(words)
}

fn insert(alloc: Global, schema: &Schema, table: u16) -> Result<Items<Word>, AllocError>
    ensures { IfOk result (λ words. words ≡ w.insert schema.now table) }
{
    let mut words = Items::new(alloc);
    words.push(Word::Keyword(Keyword::Insert))?;
    words.push(Word::Keyword(Keyword::Into))?;
    push_name(alloc, &mut words, name_of(schema, table))?;
    words.push(Word::Keyword(Keyword::Values))?;
    words.push(Word::Sign(Sign::Open))?;
    push_marks(&mut words, columns_of(schema, table))?;
    words.push(Word::Sign(Sign::Close))?;
    Ok(words)
}

fn delete(alloc: Global, schema: &Schema, table: u16) -> Result<Items<Word>, AllocError>
    ensures { IfOk result (λ words. words ≡ w.delete schema.now table) }
{
    let mut words = Items::new(alloc);
    words.push(Word::Keyword(Keyword::Delete))?;
    words.push(Word::Keyword(Keyword::From))?;
    push_name(alloc, &mut words, name_of(schema, table))?;
    push_where(alloc, &mut words, name_at(columns_of(schema, table), 0))?;
    Ok(words)
}

fn push_name(alloc: Global, words: &mut Items<Word>, name: &[u8]) -> Result<(), AllocError>
    ensures { OnOk result (words.new ≡ words.old ++ w.named name.now) }
{
    words.push(Word::Name(Text::from_vec(name.to_vec(alloc)?)))?;
    Ok(())
}

fn push_equals(alloc: Global, words: &mut Items<Word>, name: &[u8]) -> Result<(), AllocError>
    ensures { OnOk result (words.new ≡ words.old ++ w.equals name.now) }
{
    push_name(alloc, words, name)?;
    words.push(Word::Sign(Sign::Equal))?;
    words.push(Word::Sign(Sign::Mark))?;
    Ok(())
}

fn push_where(alloc: Global, words: &mut Items<Word>, name: &[u8]) -> Result<(), AllocError>
    ensures { OnOk result (words.new ≡ words.old ++ w.where_equals name.now) }
{
    words.push(Word::Keyword(Keyword::Where))?;
    push_equals(alloc, words, name)?;
    Ok(())
}

fn push_order(alloc: Global, words: &mut Items<Word>, name: &[u8]) -> Result<(), AllocError>
    ensures { OnOk result (words.new ≡ words.old ++ w.in_order_of name.now) }
{
    words.push(Word::Keyword(Keyword::Order))?;
    words.push(Word::Keyword(Keyword::By))?;
    push_name(alloc, words, name)?;
    Ok(())
}

fn push_listed(
    alloc: Global,
    words: &mut Items<Word>,
    columns: &[Column],
    places: &[u8],
) -> Result<(), AllocError>
    ensures { OnOk result (words.new ≡ words.old ++ w.listed columns.now places.now) }
{
    if let [first, rest @ ..] = places {
        push_name(alloc, words, name_at(columns, *first))?;
        for place in rest {
            words.push(Word::Sign(Sign::Comma))?;
            push_name(alloc, words, name_at(columns, *place))?;
        }
    }
    Ok(())
}

fn push_assigned(
    alloc: Global,
    words: &mut Items<Word>,
    columns: &[Column],
    places: &[u8],
) -> Result<(), AllocError>
    ensures { OnOk result (words.new ≡ words.old ++ w.assigned columns.now places.now) }
{
    if let [first, rest @ ..] = places {
        push_equals(alloc, words, name_at(columns, *first))?;
        for place in rest {
            words.push(Word::Sign(Sign::Comma))?;
            push_equals(alloc, words, name_at(columns, *place))?;
        }
    }
    Ok(())
}

fn push_marks(words: &mut Items<Word>, columns: &[Column]) -> Result<(), AllocError>
    ensures { OnOk result (words.new ≡ words.old ++ w.marks columns.now) }
{
    let mut rest = columns;
    while let [_, more @ ..] = rest {
        words.push(Word::Sign(Sign::Mark))?;
        if !more.is_empty() {
            words.push(Word::Sign(Sign::Comma))?;
        }
        rest = more;
    }
    Ok(())
}
