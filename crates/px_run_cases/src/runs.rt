//! The text of a history, where its numbers are of all sizes and what is printed is escaped, over a table with a row.
use px_code::{Done, Event, Reply};
use px_report::report_text;
use px_rows::Tables;
use px_value::{Schema, Table, Text, Thrown, Value, Values};
use sqlite_items::Items;
use std::alloc::{AllocError, Global};
use std::test::Fail;

#[derive(Clone, Copy)]
enum Said {
    Void,
    Long(i64),
    Threw(Thrown),
}

/// A call that begins and ends.
#[derive(Clone, Copy)]
struct Case {
    session: u16,
    call: u64,
    attempt: u8,
    said: Said,
    part: u8,
    avg: u16,
    moves: u32,
    bytes: u64,
    rehome: u64,
    prints: &'static [&'static str],
    text: &'static str,
}

const PARTS: [&str; 2] = ["app", "high"];

const CASES: [Case; 3] = [
    Case {
        session: 1,
        call: 1,
        attempt: 1,
        said: Said::Long(-11),
        part: 0,
        avg: 0,
        moves: 0,
        bytes: 9,
        rehome: 0,
        prints: &[],
        text: "history
begin 1 1 1
end 1 -11 part app avg 0 moves 0 bytes 9 rehome 0
tables
table stock
row 7 \"nut\"
heaps
done
",
    },
    Case {
        session: 16,
        call: 2000,
        attempt: 255,
        said: Said::Threw(Thrown::NullPointerException),
        part: 1,
        avg: 402,
        moves: 4294967295,
        bytes: 18446744073709551615,
        rehome: 76,
        prints: &["", "a \"b\"\n\t\\"],
        text: "history
begin 16 2000 255
end 16 threw NullPointerException part high avg 402 moves 4294967295 bytes 18446744073709551615 rehome 76
print 16 \"\"
print 16 \"a \\\"b\\\"\\n\\t\\\\\"
tables
table stock
row 7 \"nut\"
heaps
done
",
    },
    // a part that isn't there
    Case {
        session: 2,
        call: 3,
        attempt: 10,
        said: Said::Void,
        part: 2,
        avg: 1,
        moves: 2,
        bytes: 3,
        rehome: 4,
        prints: &["x"],
        text: "history
begin 2 3 10
end 2 void part  avg 1 moves 2 bytes 3 rehome 4
print 2 \"x\"
tables
table stock
row 7 \"nut\"
heaps
done
",
    },
];

fn texts(alloc: Global, all: &[&str]) -> Result<Vec<Text>, AllocError> {
    let mut texts = Vec::new(alloc);
    for text in all {
        texts.push(Text::from_vec(text.as_bytes().to_vec(alloc)?))?;
    }
    Ok(texts)
}

fn reply(said: Said) -> Reply {
    match said {
        Said::Void => Reply::Void,
        Said::Long(number) => Reply::Value(Value::Long(number)),
        Said::Threw(thrown) => Reply::Threw(thrown),
    }
}

fn events(alloc: Global, case: &Case) -> Result<Vec<Event>, AllocError> {
    let done = Done {
        reply: reply(case.said),
        prints: Items::from_vec(texts(alloc, case.prints)?),
        part: case.part,
        avg: case.avg,
        moves: case.moves,
        bytes: case.bytes,
        rehome: case.rehome,
    };
    let begin = Event::Begin {
        session: case.session,
        call: case.call,
        attempt: case.attempt,
    };
    let session = case.session;
    Ok(vec![in alloc; begin, Event::End { session, done }]?)
}

// One table.
fn schema(alloc: Global) -> Result<Schema, AllocError> {
    let mut tables = Items::new(alloc);
    tables.push(Table {
        name: Text::from_vec(b"stock".to_vec(alloc)?),
        columns: Items::new(alloc),
    })?;
    Ok(Schema { tables })
}

// One row in it.
fn stocked(alloc: Global, schema: &Schema) -> Result<Tables, AllocError> {
    let nut = Text::from_vec(b"nut".to_vec(alloc)?);
    let row = vec![in alloc; Value::Long(7), Value::Text(nut)]?;
    let mut tables = Tables::new(alloc, schema)?;
    match tables.load(alloc, 0, Values::from_vec(row)) {
        Ok(()) => Ok(tables),
        Err(_) => Err(AllocError),
    }
}

#[test]
fn histories(rt: HostRuntime) -> Result<(), Fail> {
    let alloc = rt.alloc();
    let parts = texts(alloc, &PARTS)?;
    let schema = schema(alloc)?;
    let tables = stocked(alloc, &schema)?;
    for case in &CASES {
        let events = events(alloc, case)?;
        let text = report_text(alloc, &[], &schema, &parts, &events, &tables, &[])?;
        assert_eq!(rt; text.as_slice(), case.text.as_bytes());
    }
    Ok(())
}
