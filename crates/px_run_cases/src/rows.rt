//! Operations on tables: by hand, and by chance beside a plain list of rows.
use px_rows::{LoadError, Tables, Undo};
use px_value::{Answer, Schema, Statement, Table, TableOp, Text, Value, Values};
use sqlite_items::Items;
use std::alloc::{AllocError, Global};
use std::process::Abort;
use std::test::Fail;

/// What is asked of the first table.
#[derive(Clone, Copy)]
enum Ask {
    Load,
    ByKey(&'static [u8]),
    ByColumn(u8, &'static [u8]),
    All(&'static [u8]),
    Update(&'static [u8]),
    Insert,
    Delete,
    /// The writes up to here stay.
    Keep,
    /// The writes since the last `Keep` are taken back.
    Undo,
}

/// Rows come as their width and their cells, a count below -1, a refusal as -1, and what answers nothing as nothing. A number from -1256 to -1001 stands for a text, whose length is how far it lies below -1001.
type Step = (Ask, &'static [i64], &'static [i64]);

const NONE: i64 = -2;

const ONE: i64 = -3;

const REFUSED: i64 = -1;

const MIN: i64 = i64::MIN;

const MAX: i64 = i64::MAX;

const STEPS: [Step; 56] = [
    // an empty table
    (Ask::ByKey(&[0, 1]), &[7], &[2]),
    (Ask::ByColumn(1, &[0]), &[7], &[1]),
    (Ask::All(&[2, 1, 0]), &[], &[3]),
    (Ask::Update(&[1]), &[5, 7], &[NONE]),
    (Ask::Delete, &[7], &[NONE]),
    // columns come as they are named, and keys go by number
    (Ask::Load, &[3, 30, 5], &[]),
    (Ask::Load, &[-1, 10, 5], &[]),
    (Ask::Load, &[20, 20, 6], &[]),
    (Ask::Load, &[3, 1, 1], &[REFUSED]),
    (Ask::Load, &[MAX, 7, 7], &[]),
    (Ask::Load, &[MIN, 8, 7], &[]),
    (Ask::All(&[0]), &[], &[1, MIN, -1, 3, 20, MAX]),
    (Ask::ByKey(&[2, 0, 2]), &[3], &[3, 5, 3, 5]),
    (Ask::ByKey(&[1]), &[MAX], &[1, 7]),
    (Ask::ByKey(&[1]), &[MIN], &[1, 8]),
    (Ask::ByKey(&[1]), &[2], &[1]),
    (Ask::ByColumn(2, &[0]), &[5], &[1, -1, 3]),
    (Ask::ByColumn(2, &[1, 2]), &[6], &[2, 20, 6]),
    (Ask::ByColumn(0, &[1]), &[20], &[1, 20]),
    (Ask::ByColumn(1, &[1]), &[11], &[1]),
    // an attempt that is taken back, which writes some rows twice
    (Ask::Delete, &[MAX], &[ONE]),
    (Ask::Delete, &[MIN], &[ONE]),
    (Ask::Keep, &[], &[]),
    (Ask::Update(&[1]), &[21, 3], &[ONE]),
    (Ask::Delete, &[-1], &[ONE]),
    (Ask::Insert, &[4, 4, 4], &[ONE]),
    (Ask::Insert, &[4, 5, 5], &[REFUSED]),
    (Ask::Insert, &[-1, 9, 9], &[ONE]),
    (Ask::Update(&[2, 1]), &[41, 22, 3], &[ONE]),
    (Ask::ByKey(&[0, 1, 2]), &[3], &[3, 3, 22, 41]),
    (Ask::Update(&[1]), &[0, 8], &[NONE]),
    (Ask::Delete, &[3], &[ONE]),
    (Ask::Delete, &[4], &[ONE]),
    (Ask::Delete, &[4], &[NONE]),
    (Ask::All(&[0, 1]), &[], &[2, -1, 9, 20, 20]),
    (Ask::Undo, &[], &[]),
    (
        Ask::All(&[0, 1, 2]),
        &[],
        &[3, -1, 10, 5, 3, 30, 5, 20, 20, 6],
    ),
    (Ask::Undo, &[], &[]),
    (Ask::All(&[1]), &[], &[1, 10, 30, 20]),
    // an insert alone is taken back, and one that stays isn't
    (Ask::Insert, &[5, 5, 5], &[ONE]),
    (Ask::Undo, &[], &[]),
    (Ask::ByKey(&[0]), &[5], &[1]),
    (Ask::Insert, &[5, 6, 7], &[ONE]),
    (Ask::Keep, &[], &[]),
    (Ask::Undo, &[], &[]),
    (Ask::ByKey(&[0, 1, 2]), &[5], &[3, 5, 6, 7]),
    // texts are compared
    (Ask::Insert, &[6, -1003, 1], &[ONE]),
    (Ask::Insert, &[7, -1001, 1], &[ONE]),
    (Ask::Insert, &[8, -1003, 2], &[ONE]),
    (
        Ask::ByColumn(1, &[1, 0]),
        &[-1003],
        &[2, -1003, 6, -1003, 8],
    ),
    (Ask::ByColumn(1, &[1, 0]), &[-1001], &[2, -1001, 7]),
    (Ask::ByColumn(1, &[1, 0]), &[-1002], &[2]),
    (Ask::Update(&[1]), &[-1256, 7], &[ONE]),
    (Ask::ByKey(&[1]), &[7], &[1, -1256]),
    // a column that isn't there
    (Ask::ByKey(&[0, 3]), &[6], &[2, 6, -1000]),
    (Ask::ByColumn(3, &[0]), &[6], &[1]),
];

// The text of this length, or the number.
fn value(alloc: Global, number: i64) -> Result<Value, AllocError> {
    if number < -1256 || number > -1001 {
        return Ok(Value::Long(number));
    }
    let mut bytes = Vec::new(alloc);
    for _ in number..-1001 {
        bytes.push(b'x')?;
    }
    Ok(Value::Text(Text::from_vec(bytes)))
}

fn values(alloc: Global, numbers: &[i64]) -> Result<Values, AllocError> {
    let mut values = Values::new(alloc);
    for number in numbers {
        values.push(value(alloc, *number)?)?;
    }
    Ok(values)
}

fn shown_value(value: &Value) -> i64 {
    match value {
        Value::Long(number) => *number,
        Value::Text(text) => {
            let length = i64::try_from(text.as_slice().len()).unwrap_or(0);
            (-1001i64).saturating_sub(length)
        }
        _ => -1000,
    }
}

fn shown(alloc: Global, answer: &Answer) -> Result<Vec<i64>, AllocError> {
    let mut numbers = Vec::new(alloc);
    match answer {
        Answer::Rows { width, cells } => {
            numbers.push(i64::from(*width))?;
            for value in cells.as_slice() {
                numbers.push(shown_value(value))?;
            }
        }
        Answer::Count(count) => numbers.push(-2 - i64::from(*count))?,
        Answer::Refused => numbers.push(REFUSED)?,
    }
    Ok(numbers)
}

// Tables whose columns nobody looks at.
fn new_tables(alloc: Global, count: u32) -> Result<Tables, AllocError> {
    let mut tables = Items::new(alloc);
    for _ in 0..count {
        tables.push(Table {
            name: Text::from_vec(Vec::new(alloc)),
            columns: Items::new(alloc),
        })?;
    }
    Tables::new(alloc, &Schema { tables })
}

// The statement that is asked for, if it is one.
fn statement(alloc: Global, ask: Ask) -> Result<Option<Statement>, AllocError> {
    let table = 0;
    Ok(match ask {
        Ask::ByKey(columns) => Some(Statement::ByKey {
            table,
            columns: Items::from_slice(alloc, columns)?,
        }),
        Ask::ByColumn(column, columns) => Some(Statement::ByColumn {
            table,
            columns: Items::from_slice(alloc, columns)?,
            column,
        }),
        Ask::All(columns) => Some(Statement::All {
            table,
            columns: Items::from_slice(alloc, columns)?,
        }),
        Ask::Update(columns) => Some(Statement::Update {
            table,
            columns: Items::from_slice(alloc, columns)?,
        }),
        Ask::Insert => Some(Statement::Insert { table }),
        Ask::Delete => Some(Statement::Delete { table }),
        Ask::Load | Ask::Keep | Ask::Undo => None,
    })
}

// Asks, and writes.
fn operate(
    alloc: Global,
    tables: &mut Tables,
    undo: &mut Undo,
    statement: Statement,
    params: Values,
) -> Result<Vec<i64>, AllocError> {
    let op = TableOp {
        number: 1,
        statement,
        params,
    };
    let answer = tables.answer(alloc, &op)?;
    tables.apply(alloc, &op, undo)?;
    shown(alloc, &answer)
}

fn load(alloc: Global, tables: &mut Tables, row: Values) -> Result<Vec<i64>, AllocError> {
    let mut numbers = Vec::new(alloc);
    match tables.load(alloc, 0, row) {
        Ok(()) => Ok(numbers),
        Err(LoadError::Doubled) => {
            numbers.push(REFUSED)?;
            Ok(numbers)
        }
        Err(LoadError::NoMemory) => Err(AllocError),
    }
}

fn step(
    alloc: Global,
    tables: &mut Tables,
    undo: &mut Undo,
    ask: Ask,
    params: &[i64],
) -> Result<Vec<i64>, AllocError> {
    let params = values(alloc, params)?;
    if let Some(statement) = statement(alloc, ask)? {
        return operate(alloc, tables, undo, statement, params);
    }
    match ask {
        Ask::Load => return load(alloc, tables, params),
        Ask::Keep => undo.clear(),
        _ => tables.undo(undo),
    }
    Ok(Vec::new(alloc))
}

fn compare(
    rt: &impl Abort,
    alloc: Global,
    tables: &mut Tables,
    undo: &mut Undo,
    ask: Ask,
    params: &[i64],
    want: &[i64],
) -> Result<(), Fail> {
    let found = step(alloc, tables, undo, ask, params)?;
    assert_eq!(rt; found.as_slice(), want);
    Ok(())
}

#[test]
fn steps_by_hand(rt: HostRuntime) -> Result<(), Fail> {
    let alloc = rt.alloc();
    let mut tables = new_tables(alloc, 2)?;
    let mut undo = Undo::new(alloc);
    for (ask, params, want) in &STEPS {
        compare(&rt, alloc, &mut tables, &mut undo, *ask, *params, *want)?;
    }
    assert_eq!(rt; tables.len(), 2);
    assert_eq!(rt; tables.rows(alloc, 0)?.len(), 7);
    Ok(())
}

/// Rows of a key and a number, in no order.
type Model = Vec<(i64, i64)>;

fn place(model: &Model, key: i64) -> Option<usize> {
    model.iter().position(|row| row.0 == key)
}

// What the list of rows answers, and what it is afterwards.
fn of_model(
    alloc: Global,
    model: &mut Model,
    ask: Ask,
    key: i64,
    number: i64,
) -> Result<Vec<i64>, AllocError> {
    let found = place(model, key);
    let mut want = Vec::new(alloc);
    match (ask, found) {
        (Ask::Insert, None) => {
            model.push((key, number))?;
            want.push(ONE)?;
        }
        (Ask::Insert, Some(_)) => want.push(REFUSED)?,
        (Ask::Update(_), Some(at)) => {
            if at < model.len() {
                model[at] = (key, number);
            }
            want.push(ONE)?;
        }
        (Ask::Delete, Some(at)) => {
            if at < model.len() {
                model.remove(at);
            }
            want.push(ONE)?;
        }
        (Ask::ByKey(_), Some(at)) => {
            want.push(1)?;
            if at < model.len() {
                want.push(model[at].1)?;
            }
        }
        (Ask::ByKey(_), None) => want.push(1)?,
        _ => want.push(NONE)?,
    }
    Ok(want)
}

const ASKS: [Ask; 4] = [
    Ask::Insert,
    Ask::Update(&[1]),
    Ask::Delete,
    Ask::ByKey(&[1]),
];

// The parameters of a statement that is asked of the row of this key.
fn params(alloc: Global, ask: Ask, key: i64, number: i64) -> Result<Vec<i64>, AllocError> {
    match ask {
        Ask::Insert => Vec::from_slice(alloc, &[key, number]),
        Ask::Update(_) => Vec::from_slice(alloc, &[number, key]),
        _ => Vec::from_slice(alloc, &[key]),
    }
}

fn one_by_chance(
    rt: &impl Abort,
    alloc: Global,
    tables: &mut Tables,
    undo: &mut Undo,
    model: &mut Model,
    chance: u64,
) -> Result<(), Fail> {
    let ask = ASKS[((chance >> 20) % 4) as usize];
    let key = i64::try_from((chance >> 30) % 60).unwrap_or(0) - 30;
    let number = i64::try_from((chance >> 40) % 1000).unwrap_or(0);
    let want = of_model(alloc, model, ask, key, number)?;
    let params = params(alloc, ask, key, number)?;
    compare(rt, alloc, tables, undo, ask, &params, &want)
}

#[test]
fn steps_by_chance(rt: HostRuntime) -> Result<(), Fail> {
    let alloc = rt.alloc();
    let mut tables = new_tables(alloc, 1)?;
    let mut model = Vec::new(alloc);
    let mut undo = Undo::new(alloc);
    let mut chance: u64 = 1;
    for round in 0..40u64 {
        let before = Vec::from_slice(alloc, model.as_slice())?;
        for _ in 0..50 {
            chance = chance
                .wrapping_mul(6364136223846793005)
                .wrapping_add(1442695040888963407);
            one_by_chance(&rt, alloc, &mut tables, &mut undo, &mut model, chance)?;
        }
        if round % 3 == 2 {
            tables.undo(&mut undo);
            model = before;
        } else {
            undo.clear();
        }
    }
    assert_eq!(rt; tables.rows(alloc, 0)?.len(), model.len());
    Ok(())
}

// Keys that come in order, of which a plain search tree would make a list.
#[test]
fn many_rows_in_order(rt: HostRuntime) -> Result<(), Fail> {
    let alloc = rt.alloc();
    let mut tables = new_tables(alloc, 1)?;
    let mut undo = Undo::new(alloc);
    for key in 0..20000i64 {
        compare(
            &rt,
            alloc,
            &mut tables,
            &mut undo,
            Ask::Load,
            &[key, key],
            &[],
        )?;
    }
    for key in 0..2000i64 {
        compare(
            &rt,
            alloc,
            &mut tables,
            &mut undo,
            Ask::Update(&[1]),
            &[5, key],
            &[ONE],
        )?;
    }
    tables.undo(&mut undo);
    assert_eq!(rt; tables.rows(alloc, 0)?.len(), 20000);
    Ok(())
}
