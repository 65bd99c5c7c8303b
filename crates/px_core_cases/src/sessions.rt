//! Sessions that meet at a table.
use px_code::{Done, Reply};
use px_engine::{Begun, Engine, Opped};
use px_rows::{LoadError, Tables};
use px_value::{Answer, Schema, Statement, Table, TableOp, Text, Thrown, Value, Values};
use sqlite_items::Items;
use std::alloc::{AllocError, Global};
use std::test::Fail;

// What a session does, with a value or the number of its call, and what it is told: that it began or ended, a value or a count, or the session that it waits for or dies of.
type Case = (u16, char, i64, char, i64);

const YOUNGER_DIES: [Case; 5] = [
    (1, 'b', 1, 'b', 0),
    (2, 'b', 1, 'b', 0),
    (1, 's', 7, 'c', 1),
    (2, 'r', 0, 'd', 1),
    // It doesn't meet its own lock.
    (1, 'r', 0, 'r', 7),
];

const OLDER_WAITS: [Case; 6] = [
    (1, 'b', 1, 'b', 0),
    (2, 'b', 1, 'b', 0),
    (2, 's', 7, 'c', 1),
    (1, 'r', 0, 'w', 2),
    (2, 'e', 0, 'e', 0),
    (1, 'r', 0, 'r', 7),
];

const READERS_SHARE: [Case; 5] = [
    (1, 'b', 1, 'b', 0),
    (2, 'b', 1, 'b', 0),
    (2, 'r', 0, 'r', 100),
    (1, 'r', 0, 'r', 100),
    (1, 's', 7, 'w', 2),
];

const THROW_IS_UNDONE: [Case; 5] = [
    (1, 'b', 1, 'b', 0),
    (1, 's', 7, 'c', 1),
    (1, 't', 0, 'e', 0),
    (1, 'b', 2, 'b', 0),
    (1, 'r', 0, 'r', 100),
];

const DROP_IS_UNDONE: [Case; 6] = [
    (1, 'b', 1, 'b', 0),
    (2, 'b', 1, 'b', 0),
    (2, 's', 7, 'c', 1),
    (1, 's', 8, 'w', 2),
    (2, 'x', 0, 'x', 0),
    (1, 'r', 0, 'r', 100),
];

// The dead call waits until the call that it died of is over, and keeps its stamp.
const DEAD_CALL_COMES_AGAIN: [Case; 10] = [
    (1, 'b', 1, 'b', 0),
    (2, 'b', 1, 'b', 0),
    (1, 's', 7, 'c', 1),
    (2, 's', 8, 'd', 1),
    (2, 'b', 1, 'w', 1),
    (1, 'e', 0, 'e', 0),
    (1, 'b', 2, 'b', 0),
    (2, 'b', 1, 'b', 0),
    (2, 'r', 0, 'r', 7),
    (1, 's', 9, 'd', 2),
];

// Two readers that both want to write: the older waits for the younger, which dies, and comes again.
const READERS_BECOME_WRITERS: [Case; 13] = [
    (1, 'b', 1, 'b', 0),
    (2, 'b', 1, 'b', 0),
    (1, 'r', 0, 'r', 100),
    (2, 'r', 0, 'r', 100),
    (1, 's', 101, 'w', 2),
    (2, 's', 102, 'd', 1),
    (1, 's', 101, 'c', 1),
    (1, 'e', 0, 'e', 0),
    (2, 'b', 1, 'b', 0),
    (2, 'r', 0, 'r', 101),
    (2, 's', 103, 'c', 1),
    (2, 'e', 0, 'e', 0),
    (1, 'b', 2, 'b', 0),
];

// A call that may not be tried again is over with its death, and the next one begins with a stamp of its own.
const DEAD_CALL_IS_OVER: [Case; 8] = [
    (1, 'b', 1, 'b', 0),
    (2, 'b', 1, 'b', 0),
    (1, 's', 5, 'c', 1),
    (2, 's', 7, 'd', 1),
    (1, 'e', 0, 'e', 0),
    (2, 'b', 2, 'b', 0),
    (2, 's', 9, 'c', 1),
    (2, 'e', 0, 'e', 0),
];

// An insert that is refused keeps its lock.
const REFUSED_INSERT_LOCKS: [Case; 4] = [
    (1, 'b', 1, 'b', 0),
    (2, 'b', 1, 'b', 0),
    (1, 'i', 9, 'n', 0),
    (2, 'r', 0, 'd', 1),
];

fn pair(alloc: Global, first: i64, second: i64) -> Result<Values, AllocError> {
    let mut values = Values::new(alloc);
    values.push(Value::Long(first))?;
    values.push(Value::Long(second))?;
    Ok(values)
}

// One table, whose row with key 5 has the value 100.
pub(crate) fn tables(alloc: Global) -> Result<Tables, AllocError> {
    let mut declared = Items::new(alloc);
    declared.push(Table {
        name: Text::from_vec(Vec::new(alloc)),
        columns: Items::new(alloc),
    })?;
    let mut tables = Tables::new(alloc, &Schema { tables: declared })?;
    match tables.load(alloc, 0, pair(alloc, 5, 100)?) {
        Ok(()) => Ok(tables),
        Err(LoadError::Doubled) => Ok(tables),
        Err(LoadError::NoMemory) => Err(AllocError),
    }
}

pub(crate) fn set(alloc: Global, value: i64) -> Result<TableOp, AllocError> {
    Ok(TableOp {
        number: 1,
        statement: Statement::Update {
            table: 0,
            columns: Items::from_slice(alloc, &[1])?,
        },
        params: pair(alloc, value, 5)?,
    })
}

pub(crate) fn read(alloc: Global) -> Result<TableOp, AllocError> {
    let mut params = Values::new(alloc);
    params.push(Value::Long(5))?;
    Ok(TableOp {
        number: 2,
        statement: Statement::ByKey {
            table: 0,
            columns: Items::from_slice(alloc, &[1])?,
        },
        params,
    })
}

fn insert(alloc: Global, value: i64) -> Result<TableOp, AllocError> {
    Ok(TableOp {
        number: 3,
        statement: Statement::Insert { table: 0 },
        params: pair(alloc, 5, value)?,
    })
}

pub(crate) fn done(alloc: Global, reply: Reply) -> Done {
    Done {
        reply,
        prints: Items::new(alloc),
        part: 0,
        avg: 0,
        moves: 0,
        bytes: 0,
        rehome: 0,
    }
}

fn told(opped: Opped) -> (char, i64) {
    match opped {
        Opped::Did(Answer::Rows { cells, .. }) => match cells.get(0) {
            Some(Value::Long(n)) => ('r', *n),
            _ => ('r', -1),
        },
        Opped::Did(Answer::Count(n)) => ('c', i64::from(n)),
        Opped::Did(Answer::Refused) => ('n', 0),
        Opped::Waits { holder, .. } => ('w', i64::from(holder)),
        Opped::Died { holder } => ('d', i64::from(holder)),
    }
}

pub(crate) fn begin(
    engine: &mut Engine,
    session: u16,
    call: i64,
) -> Result<(char, i64), AllocError> {
    if usize::from(session) >= engine.seats.len() {
        return Ok(('?', 0));
    }
    match engine.begin(session, call.cast_unsigned())? {
        Begun::Began => Ok(('b', 0)),
        Begun::Waits { holder } => Ok(('w', i64::from(holder))),
    }
}

pub(crate) fn op(
    engine: &mut Engine,
    session: u16,
    op: TableOp,
) -> Result<(char, i64), AllocError> {
    let place = usize::from(session);
    if place < engine.seats.len() && place < engine.undos.len() && 0 < engine.journal.spare() {
        Ok(told(engine.op(session, op)?))
    } else {
        Ok(('?', 0))
    }
}

pub(crate) fn end(engine: &mut Engine, session: u16, done: Done) -> (char, i64) {
    let place = usize::from(session);
    if place < engine.seats.len() && place < engine.undos.len() && 0 < engine.journal.spare() {
        engine.end(session, done);
        ('e', 0)
    } else {
        ('?', 0)
    }
}

fn give_up(engine: &mut Engine, session: u16) -> (char, i64) {
    let place = usize::from(session);
    if place < engine.seats.len() && place < engine.undos.len() && 0 < engine.journal.spare() {
        engine.drop_call(session);
        ('x', 0)
    } else {
        ('?', 0)
    }
}

fn step(
    alloc: Global,
    engine: &mut Engine,
    session: u16,
    what: char,
    value: i64,
) -> Result<(char, i64), AllocError> {
    match what {
        'b' => begin(engine, session, value),
        's' => op(engine, session, set(alloc, value)?),
        'r' => op(engine, session, read(alloc)?),
        'i' => op(engine, session, insert(alloc, value)?),
        'e' => Ok(end(engine, session, done(alloc, Reply::Void))),
        't' => Ok(end(
            engine,
            session,
            done(alloc, Reply::Threw(Thrown::ArithmeticException)),
        )),
        'x' => Ok(give_up(engine, session)),
        _ => Ok(('?', 1)),
    }
}

// A call that dies may be tried again three times.
fn engine(alloc: Global) -> Result<Engine, AllocError> {
    Engine::new(alloc, tables(alloc)?, 4, 3)
}

// No call is tried again.
fn engine_without_retries(alloc: Global) -> Result<Engine, AllocError> {
    Engine::new(alloc, tables(alloc)?, 4, 0)
}

// How many cases come before the first that is told otherwise.
fn as_told(alloc: Global, mut engine: Engine, cases: &[Case]) -> Result<usize, AllocError> {
    let mut right = 0usize;
    for (session, what, value, answer, number) in cases.iter() {
        let (told, with) = step(alloc, &mut engine, *session, *what, *value)?;
        if told != *answer || with != *number {
            return Ok(right);
        }
        right = right.saturating_add(1);
    }
    Ok(right)
}

#[test]
fn sessions_are_told(rt: HostRuntime) -> Result<(), Fail> {
    let alloc = rt.alloc();
    assert_eq!(rt; as_told(alloc, engine(alloc)?, YOUNGER_DIES.as_slice())?, 5);
    assert_eq!(rt; as_told(alloc, engine(alloc)?, OLDER_WAITS.as_slice())?, 6);
    assert_eq!(rt;
        as_told(alloc, engine(alloc)?, READERS_SHARE.as_slice())?,
        5
    );
    assert_eq!(rt;
        as_told(alloc, engine(alloc)?, THROW_IS_UNDONE.as_slice())?,
        5
    );
    assert_eq!(rt;
        as_told(alloc, engine(alloc)?, DROP_IS_UNDONE.as_slice())?,
        6
    );
    assert_eq!(rt;
        as_told(alloc, engine(alloc)?, DEAD_CALL_COMES_AGAIN.as_slice())?,
        10
    );
    assert_eq!(rt;
        as_told(alloc, engine(alloc)?, REFUSED_INSERT_LOCKS.as_slice())?,
        4
    );
    Ok(())
}

#[test]
fn dead_calls_are_told(rt: HostRuntime) -> Result<(), Fail> {
    let alloc = rt.alloc();
    assert_eq!(rt;
        as_told(alloc, engine(alloc)?, READERS_BECOME_WRITERS.as_slice())?,
        13
    );
    assert_eq!(rt;
        as_told(
            alloc,
            engine_without_retries(alloc)?,
            DEAD_CALL_IS_OVER.as_slice()
        )?,
        8
    );
    Ok(())
}
