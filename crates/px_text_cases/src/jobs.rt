//! What of jobs no clause says.
use itoa::Buffer;
use px_code::Side;
use px_facts::Checked;
use px_job::{Job, JobCode, JobError, JobFault, first_beyond, read_job};
use px_lowering::lower;
use px_parse::parse;
use px_sql::read_schema;
use px_types::check;
use px_value::{Column, ColumnType, Schema, Table, Text};
use sqlite_items::Items;
use std::alloc::{AllocError, Global};
use std::process::Abort;
use std::test::Fail;

// What jobs are read for. Its nodes: 1 the method m, 2 a print, 3 an `if`, 4 a print, 5 and 6 of the array, 7 a return, 8 the method n,
// 9 its return, 10 to 15 the entries, 16 and 17 the fields, 18 the site of the array.
const SOURCE: &[u8] = b"
class Main { boolean f; int[] g;
private void m() {
System.out.println(1);
if (true) { System.out.println(2); } g = new int[1];
return; }
private void n() {
return;
}
public void none() { return; } public void m0(long x) { return; } public void $all(int a, boolean b, String c) { return; } }
";

// The most bytes of a program, as of a file.
const MOST: usize = 1_048_576;

fn name(alloc: Global, name: &str) -> Result<Text, AllocError> {
    Ok(Text::from_vec(name.as_bytes().to_vec(alloc)?))
}

fn table(alloc: Global, title: &str, types: &[ColumnType]) -> Result<Table, AllocError> {
    let mut columns = Items::new(alloc);
    for ty in types {
        columns.push(Column {
            name: name(alloc, "c")?,
            ty: *ty,
        })?;
    }
    Ok(Table {
        name: name(alloc, title)?,
        columns,
    })
}

// The tables k (a number), t (a text, as no program has its key), p (a number and a text).
fn tables(alloc: Global) -> Result<Schema, AllocError> {
    let mut tables = Items::new(alloc);
    tables.push(table(alloc, "k", &[ColumnType::Long])?)?;
    tables.push(table(alloc, "t", &[ColumnType::Text])?)?;
    tables.push(table(alloc, "p", &[ColumnType::Long, ColumnType::Text])?)?;
    Ok(Schema { tables })
}

// A test's texts are short.
fn read_over(alloc: Global, text: &[u8], checked: &Checked) -> Result<Job, JobError> {
    if text.len() >= 1 << 31 {
        return Err(JobError::NoMemory);
    }
    let code = lower(alloc, checked)?;
    let schema = tables(alloc)?;
    read_job(alloc, text, checked, &schema, &code)
}

fn read_for(alloc: Global, text: &[u8], source: &[u8]) -> Result<Job, JobError> {
    if source.len() > MOST {
        return Err(JobError::NoMemory);
    }
    let Ok(program) = parse(alloc, source) else {
        return Err(JobError::NoMemory);
    };
    let Ok(schema) = read_schema(alloc, program.tables.as_slice()) else {
        return Err(JobError::NoMemory);
    };
    match check(alloc, program, schema) {
        Ok(checked) => read_over(alloc, text, &checked),
        Err(_) => Err(JobError::NoMemory),
    }
}

fn read(alloc: Global, text: &[u8]) -> Result<Job, JobError> {
    read_for(alloc, text, SOURCE)
}

fn fault(line: u32, code: JobCode) -> Option<JobError> {
    Some(JobError::Fault(JobFault { line, code }))
}

const READ: [&[u8]; 25] = [
    b"",
    b"\n",
    b"sessions 16\nworkers 1\nretries 0\nalpha 0\nlatency 0\nperbyte 0\nprofile 0",
    b"sessions 1\nworkers 16\nretries 9\nalpha 1000\nlatency 1000000\nperbyte 1000\nprofile 200",
    b"sessions 0016\r\n",
    b"  call   001  m0   -05  \n",
    b"\n  # a comment\n   \ncall 1 none\n",
    b"call 1 m0 9223372036854775807",
    b"call 1 m0 -9223372036854775808",
    b"call 1 m0 -0",
    b"call 1 $all 2147483647 true \"\"",
    b"call 1 $all -2147483648 false null",
    b"call 1 $all 1 true \"a b\\n\\t\\\"\\\\ # \"",
    b"call 1 $all 1 true \"\tx\x7f\r\"",
    b"# part 1",
    b"call 3 none\nsessions 3",
    b"row k 9223372036854775807\nrow k -9223372036854775808",
    b"row k 7\nrow p 7 \"\"\nrow t \"7\"",
    b"row t \"\"\nrow t \" \"\nrow t \"\\\"\\\\\\n\\t\"",
    b"row k 00\r\nrow k -1",
    b"load 1 0\nload 1 1000 007 0",
    b"load 2 0 1000\nsessions 2",
    b"order 1",
    b"order 1 01 3\nsessions 3",
    b"row t \"# part\"",
];

// In this table and the next ones: files with the line and the code of their first fault.
const FORMS: [(u32, JobCode, &[u8]); 70] = [
    (1, JobCode::J1, b"call 1 m0 5\r"),
    (1, JobCode::J1, b"call 1 m0 5\r\r\n"),
    (1, JobCode::J1, b"#\x80\n"),
    (1, JobCode::J1, b"call 1 none\xc3\n"),
    (1, JobCode::J1, b"\tcall 1 none"),
    (1, JobCode::J1, b"call\t1 none"),
    (1, JobCode::J1, b"call 1 m0\t5"),
    (1, JobCode::J1, b"frob\n"),
    (1, JobCode::J1, b"Call 1 none"),
    (1, JobCode::J1, b"call\n"),
    (1, JobCode::J1, b"call 1\n"),
    (1, JobCode::J1, b"call none\n"),
    (1, JobCode::J1, b"call -1 none\n"),
    (1, JobCode::J1, b"call +1 none\n"),
    (1, JobCode::J1, b"call 1 long 1\n"),
    (1, JobCode::J1, b"call 1 null\n"),
    (1, JobCode::J1, b"call 1 1a\n"),
    (1, JobCode::J1, b"call 1 m)0 5\n"),
    (1, JobCode::J1, b"call 2 nowhere x"),
    (1, JobCode::J1, b"call 1 m0 -"),
    (1, JobCode::J1, b"call 1 m0 5L"),
    (1, JobCode::J1, b"call 1 m0 0x5"),
    (1, JobCode::J1, b"call 1 $all 1 true \"a\\r\""),
    (1, JobCode::J1, b"call 1 $all 1 true \"a"),
    (1, JobCode::J1, b"call 1 $all 1 true \"a\\\""),
    (1, JobCode::J1, b"call 1 $all 1 true \"a\"\"b\""),
    (1, JobCode::J1, b"call 1 $all 1 true\"a\""),
    (1, JobCode::J1, b"call 1 $all \"a\"1 true null"),
    (1, JobCode::J1, b"sessions"),
    (1, JobCode::J1, b"sessions -1"),
    (1, JobCode::J1, b"sessions 1 2"),
    (1, JobCode::J1, b"sessions x"),
    (1, JobCode::J1, b"sessions \"1\""),
    (1, JobCode::J1, b"Sessions 1"),
    (1, JobCode::J1, b"sessions\t1"),
    (1, JobCode::J1, b"workers +1"),
    (1, JobCode::J1, b"perByte 1"),
    (1, JobCode::J1, b"per_byte 1"),
    (1, JobCode::J1, b"row"),
    (1, JobCode::J1, b"row k"),
    (1, JobCode::J1, b"row 1 1"),
    (1, JobCode::J1, b"row int 1"),
    (1, JobCode::J1, b"row k.c 1"),
    (1, JobCode::J1, b"row \"k\" 1"),
    (1, JobCode::J1, b"row k x"),
    (1, JobCode::J1, b"row nowhere 1 x"),
    (1, JobCode::J1, b"row t \"\\u0041\""),
    (1, JobCode::J1, b"load"),
    (1, JobCode::J1, b"load 1"),
    (1, JobCode::J1, b"load 1 -1"),
    (1, JobCode::J1, b"load -1 1"),
    (1, JobCode::J1, b"load 9 2000 x"),
    (1, JobCode::J1, b"order"),
    (1, JobCode::J1, b"order -1"),
    (1, JobCode::J1, b"order 1 x"),
    (1, JobCode::J1, b"order# 1"),
    (1, JobCode::J1, b"partapp"),
    (1, JobCode::J1, b"ca\rll 1 none"),
    (1, JobCode::J1, b"call1 none"),
    (1, JobCode::J1, b"9L"),
    (1, JobCode::J1, b"call 1 m0 2\x800"),
    (1, JobCode::J1, b"sessions sessions 4"),
    (1, JobCode::J1, b"row k k 3"),
    (1, JobCode::J1, b"order 1 1\r\r\n"),
    (1, JobCode::J1, b"row k 1 # note"),
    (1, JobCode::J1, b"r\x0bow k 2"),
    (1, JobCode::J1, b"\t"),
    (1, JobCode::J1, b"LATENCY 1000"),
    (1, JobCode::J1, b"row 2147483648 3"),
    (1, JobCode::J1, b"none 1"),
];

const NUMBERS: [(u32, JobCode, &[u8]); 38] = [
    (2, JobCode::J3, b"sessions 1\nsessions 1"),
    (2, JobCode::J3, b"workers 2\nworkers 99"),
    (2, JobCode::J3, b"retries 0\nretries 0"),
    (2, JobCode::J3, b"alpha 0\nalpha 0"),
    (2, JobCode::J3, b"latency 0\nlatency 0"),
    (2, JobCode::J3, b"perbyte 0\nperbyte 18446744073709551616"),
    (2, JobCode::J3, b"profile 0\nprofile 1"),
    (2, JobCode::J3, b"order 1\norder 1"),
    (2, JobCode::J3, b"order 1\norder 2"),
    (1, JobCode::J5, b"call 2 none\nsessions 17\nsessions 2"),
    (1, JobCode::J4, b"sessions 0"),
    (1, JobCode::J4, b"sessions 17"),
    (1, JobCode::J4, b"workers 0"),
    (1, JobCode::J4, b"workers 17"),
    (1, JobCode::J4, b"retries 10"),
    (1, JobCode::J4, b"alpha 1001"),
    (1, JobCode::J4, b"latency 1000001"),
    (1, JobCode::J4, b"perbyte 1001"),
    (1, JobCode::J4, b"profile 201"),
    (1, JobCode::J4, b"profile 18446744073709551616"),
    (1, JobCode::J4, b"load 1 1001"),
    (1, JobCode::J4, b"load 1 0 0 18446744073709551617"),
    (1, JobCode::J4, b"load 9 1001"),
    (1, JobCode::J4, b"load 0 1 1001\n"),
    (1, JobCode::J5, b"call 0 none"),
    (1, JobCode::J5, b"call 2 none"),
    (1, JobCode::J5, b"call 18446744073709551617 none"),
    (1, JobCode::J5, b"call 2 nowhere 5"),
    (1, JobCode::J5, b"load 0 1"),
    (1, JobCode::J5, b"load 2 1"),
    (1, JobCode::J5, b"load 18446744073709551617 1"),
    (1, JobCode::J5, b"order 0"),
    (1, JobCode::J5, b"order 1 1 2"),
    (1, JobCode::J5, b"order 2\nsessions 0"),
    (1, JobCode::J5, b"order 18446744073709551617"),
    (1, JobCode::J5, b"call 3 none\nsessions 2"),
    (1, JobCode::J5, b"call 2 none\nsessions 99\nsessions 2"),
    (3, JobCode::J5, b"call 1 none\r\n\r\ncall 2 none"),
];

const ROWS: [(u32, JobCode, &[u8]); 26] = [
    (1, JobCode::J6, b"row nowhere 1"),
    (1, JobCode::J6, b"row K 1"),
    (1, JobCode::J6, b"row kk true null"),
    (1, JobCode::J7, b"row k 1 2"),
    (1, JobCode::J7, b"row p 1"),
    (1, JobCode::J7, b"row k true null"),
    (1, JobCode::J7, b"row p 1 \"\" 1"),
    (1, JobCode::J8, b"row k true"),
    (1, JobCode::J8, b"row k null"),
    (1, JobCode::J8, b"row k \"1\""),
    (1, JobCode::J8, b"row k 9223372036854775808"),
    (1, JobCode::J8, b"row k -9223372036854775809"),
    (1, JobCode::J8, b"row t 1"),
    (1, JobCode::J8, b"row t null"),
    (1, JobCode::J8, b"row t false"),
    (1, JobCode::J8, b"row p \"a\" 1"),
    (1, JobCode::J8, b"row p 1 null"),
    (2, JobCode::J9, b"row k 7\nrow k 7"),
    (2, JobCode::J9, b"row k 7\nrow k 007"),
    (2, JobCode::J9, b"row k 0\nrow k -0"),
    (2, JobCode::J9, b"row t \"a\\t\"\nrow t \"a\t\""),
    (2, JobCode::J9, b"row t \"\"\nrow t \"\""),
    (2, JobCode::J9, b"row p 1 \"a\"\nrow p 1 \"b\""),
    (
        3,
        JobCode::J9,
        b"row p 1 \"a\"\nrow p 2 \"a\"\nrow p 01 \"c\"",
    ),
    (3, JobCode::J9, b"row t \"1\"\nrow k 1\nrow t \"1\""),
    (2, JobCode::J8, b"row p 1 \"a\"\nrow p 1 2"),
];

const CALLS: [(u32, JobCode, &[u8]); 14] = [
    (1, JobCode::J10, b"call 1 nowhere 5"),
    (1, JobCode::J10, b"call 1 nowhere\ncall 2 none\n"),
    (1, JobCode::J11, b"call 1 none 5"),
    (1, JobCode::J11, b"call 1 m0"),
    (1, JobCode::J11, b"call 1 m0 true false"),
    (1, JobCode::J12, b"call 1 m0 true"),
    (1, JobCode::J12, b"call 1 m0 null"),
    (1, JobCode::J12, b"call 1 m0 \"5\""),
    (1, JobCode::J12, b"call 1 m0 9223372036854775808"),
    (1, JobCode::J12, b"call 1 m0 -9223372036854775809"),
    (1, JobCode::J12, b"call 1 $all -2147483649 false null"),
    (1, JobCode::J12, b"call 1 $all 2147483648 true \"\""),
    (1, JobCode::J12, b"call 1 $all 1 0 null"),
    (1, JobCode::J12, b"call 1 $all 1 true 0"),
];

const PARTS: [(u32, JobCode, &[u8]); 57] = [
    (1, JobCode::J1, b"part"),
    (1, JobCode::J1, b"part p"),
    (1, JobCode::J1, b"part p upto"),
    (1, JobCode::J1, b"part p upto x"),
    (1, JobCode::J1, b"part p upto -1"),
    (1, JobCode::J1, b"part p up 1000"),
    (1, JobCode::J1, b"part 1 upto 1000"),
    (1, JobCode::J1, b"part int upto 1000"),
    (1, JobCode::J1, b"part p upto 1000 1"),
    (1, JobCode::J1, b"part p upto 1000 budget"),
    (1, JobCode::J1, b"part p upto 1000 budget x"),
    (1, JobCode::J1, b"part p upto 1000 Budget 1"),
    (1, JobCode::J1, b"part p upto 1000 budget 1 2"),
    (1, JobCode::J1, b"part\tp upto 1000"),
    (1, JobCode::J1, b"app"),
    (1, JobCode::J1, b"app\rall\n"),
    (1, JobCode::J1, b"db all 1"),
    (1, JobCode::J1, b"db line"),
    (1, JobCode::J1, b"db line x"),
    (1, JobCode::J1, b"db lines 4"),
    (1, JobCode::J1, b"db method Main"),
    (1, JobCode::J1, b"db method Main."),
    (1, JobCode::J1, b"db method Main.m.n"),
    (1, JobCode::J1, b"db field Main.int"),
    (2, JobCode::J3, b"part p upto 1\npart p upto 2000"),
    (
        3,
        JobCode::J3,
        b"part p upto 1\npart q upto 2\npart p upto 3",
    ),
    (2, JobCode::J3, b"part p upto 999\npart p upto 1"),
    (1, JobCode::J4, b"part p upto 1001"),
    (1, JobCode::J4, b"part p upto 18446744073709551617"),
    (1, JobCode::J4, b"part p upto 999 budget 1000000000001"),
    (2, JobCode::J4, b"part p upto 5\npart q upto 1001"),
    (1, JobCode::J13, b"app all\npart p upto 1000"),
    (1, JobCode::J13, b"db line 99"),
    (1, JobCode::J13, b"db line 4"),
    (2, JobCode::J14, b"part p upto 1000\ndb line 2"),
    (2, JobCode::J14, b"part p upto 1000\napp line 3"),
    (2, JobCode::J14, b"part p upto 1000\napp line 99"),
    (
        2,
        JobCode::J14,
        b"part p upto 1000\napp line 18446744073709551620",
    ),
    (2, JobCode::J14, b"part p upto 1000\napp method Main.x"),
    (2, JobCode::J14, b"part p upto 1000\napp method x.m"),
    (2, JobCode::J14, b"part p upto 1000\napp method Main.f"),
    (2, JobCode::J14, b"part p upto 1000\napp field Main.m"),
    (2, JobCode::J15, b"part p upto 1000\ndb line 4"),
    (2, JobCode::J15, b"part p upto 1000\ndb line 05"),
    (2, JobCode::J15, b"part p upto 1000 budget 1\ndb line 5"),
    (
        2,
        JobCode::J16,
        b"part p upto 5\npart q upto 5\npart r upto 1000",
    ),
    (2, JobCode::J16, b"part p upto 5\npart q upto 4"),
    (2, JobCode::J16, b"part p upto 1000\npart q upto 1000"),
    (1, JobCode::J17, b"part p upto 999"),
    (1, JobCode::J17, b"part p upto 0 budget 1"),
    (2, JobCode::J17, b"part p upto 5\npart q upto 6"),
    (1, JobCode::J17, b"part p upto 5\npart q up 1000"),
    (1, JobCode::J17, b"part p upto 5\n#part q upto 1000"),
    (1, JobCode::J17, b"part p upto 5\npart q upto 1000\x80"),
    (3, JobCode::J1, b"part p upto 5\npart q upto 1000\ndb frob"),
    (
        9,
        JobCode::J20,
        b"part a upto 1\npart b upto 2\npart c upto 3\npart d upto 4\npart e upto 5\npart f upto 6\npart g upto 7\npart h upto 8\npart i upto 1000",
    ),
    (
        9,
        JobCode::J17,
        b"part a upto 1\npart b upto 2\npart c upto 3\npart d upto 4\npart e upto 5\npart f upto 6\npart g upto 7\npart h upto 8\npart i upto 9",
    ),
];

#[test]
fn jobs_are_read(rt: HostRuntime) -> Result<(), Fail> {
    let alloc = rt.alloc();
    for text in READ {
        let found = read(alloc, text);
        assert_eq!(rt; found.err(), None, "{text:?}");
    }
    Ok(())
}

fn all_refused(
    rt: &impl Abort,
    alloc: Global,
    cases: &[(u32, JobCode, &[u8])],
) -> Result<(), Fail> {
    for (line, code, text) in cases {
        let found = read(alloc, *text);
        assert_eq!(rt; found.err(), fault(*line, *code), "{text:?}");
    }
    Ok(())
}

#[test]
fn faults_are_told(rt: HostRuntime) -> Result<(), Fail> {
    let alloc = rt.alloc();
    all_refused(&rt, alloc, &FORMS)?;
    all_refused(&rt, alloc, &NUMBERS)?;
    all_refused(&rt, alloc, &ROWS)?;
    all_refused(&rt, alloc, &CALLS)?;
    all_refused(&rt, alloc, &PARTS)
}

// A text whose second piece stands so many times, and what is wrong with it.
type Long = (
    &'static [u8],
    usize,
    &'static [u8],
    &'static [u8],
    u32,
    Option<JobCode>,
);

const LONG: [Long; 23] = [
    (b"", 2000, b"call 1 m0 5\n#\n", b"", 0, None),
    (
        b"",
        2000,
        b"call 1 m0 5\n#\n",
        b"call 1 none",
        4001,
        Some(JobCode::J18),
    ),
    (
        b"",
        2000,
        b"call 1 m0 5\n#\n",
        b"call 1 m0 x",
        4001,
        Some(JobCode::J1),
    ),
    (
        b"",
        2000,
        b"call 1 m0 5\n#\n",
        b"call 1 m0 true",
        4001,
        Some(JobCode::J12),
    ),
    (b"", 1999, b"call 1 m0 5\n#\n", b"call 1 none", 0, None),
    (b"call 1 $all 1 true \"", 500, b"\\n", b"\"", 0, None),
    (
        b"call 1 $all 1 true \"",
        501,
        b"\\n",
        b"\"",
        1,
        Some(JobCode::J12),
    ),
    (b"row t \"", 255, b"\\n", b"\"", 0, None),
    (b"row t \"", 256, b"\\n", b"\"", 1, Some(JobCode::J8)),
    (b"row p 1 \"", 256, b"\\n", b"\"", 1, Some(JobCode::J8)),
    (b"order", 9_999, b" 1", b" 1", 0, None),
    (b"order", 10_000, b" 1", b" 1", 1, Some(JobCode::J20)),
    (b"order", 10_000, b" 1", b" 2", 1, Some(JobCode::J5)),
    (b"order", 10_000, b" 1", b" -", 1, Some(JobCode::J1)),
    (b"order", 10_000, b" 1", b"\norder 1", 2, Some(JobCode::J3)),
    (b"sessions 2\nload 1", 2000, b" 5", b"\nload 2 0", 0, None),
    (
        b"sessions 2\nload 1",
        2001,
        b" 5",
        b"",
        2,
        Some(JobCode::J20),
    ),
    (
        b"sessions 2\nload 1",
        2000,
        b" 5",
        b"\nload 1 0",
        3,
        Some(JobCode::J20),
    ),
    (
        b"sessions 2\nload 1",
        2000,
        b" 5",
        b"\nload 1 1001",
        3,
        Some(JobCode::J4),
    ),
    (
        b"sessions 2\nload 1",
        2000,
        b" 5",
        b"\nload 3 0",
        3,
        Some(JobCode::J5),
    ),
    (b"sessions 2\nload 1", 1999, b" 5", b"\nload 1 0", 0, None),
    (
        b"sessions 2\nload 1",
        1999,
        b" 5",
        b"\nload 1 0 0",
        3,
        Some(JobCode::J20),
    ),
    (b"load 2 5\nload 1", 2000, b" 5", b"\nsessions 2", 0, None),
];

fn long_text(alloc: Global, case: &Long) -> Result<Vec<u8>, AllocError> {
    let mut text = case.0.to_vec(alloc)?;
    for _ in 0..case.1 {
        text.extend_from_slice(case.2)?;
    }
    text.extend_from_slice(case.3)?;
    Ok(text)
}

#[test]
fn counts_and_lengths_have_limits(rt: HostRuntime) -> Result<(), Fail> {
    let alloc = rt.alloc();
    for case in LONG {
        let text = long_text(alloc, &case)?;
        let found = read(alloc, text.as_slice());
        let want = case
            .5
            .map(|code| JobError::Fault(JobFault { line: case.4, code }));
        assert_eq!(rt; found.err(), want, "{case:?}");
    }
    Ok(())
}

fn rows(alloc: Global, count: u32) -> Result<Vec<u8>, AllocError> {
    let mut text = Vec::new(alloc);
    for key in 0..count {
        text.extend_from_slice(b"row k ")?;
        text.extend_from_slice(Buffer::new().format(key).as_bytes())?;
        text.push(b'\n')?;
    }
    Ok(text)
}

const ROW_COUNTS: [(u32, Option<JobError>); 2] = [
    (100_000, None),
    (
        100_001,
        Some(JobError::Fault(JobFault {
            line: 100_001,
            code: JobCode::J19,
        })),
    ),
];

#[test]
fn a_job_has_at_most_100000_rows(rt: HostRuntime) -> Result<(), Fail> {
    let alloc = rt.alloc();
    for (count, want) in ROW_COUNTS {
        let text = rows(alloc, count)?;
        let found = read(alloc, text.as_slice());
        assert_eq!(rt; found.err(), want);
    }
    Ok(())
}

// What a job holds, as numbers: its settings, how many rows and calls, the loads of each session behind their count, the order.
fn numbers(alloc: Global, job: &Job) -> Result<Vec<u64>, AllocError> {
    let mut numbers = Vec::new(alloc);
    let settings = &job.settings;
    let set = [
        settings.sessions as u64,
        settings.workers as u64,
        settings.retries as u64,
        settings.alpha as u64,
        settings.latency as u64,
        settings.per_byte as u64,
        settings.profile as u64,
    ];
    numbers.extend_from_slice(&set)?;
    numbers.push(job.rows.len() as u64)?;
    numbers.push(job.calls.len() as u64)?;
    for loads in job.loads.as_slice() {
        numbers.push(loads.len() as u64)?;
        for load in loads.as_slice() {
            numbers.push(*load as u64)?;
        }
    }
    for session in job.order.as_slice() {
        numbers.push(*session as u64)?;
    }
    Ok(numbers)
}

const HELD: [(&[u8], &[u64]); 4] = [
    (b"", &[1, 1, 3, 200, 1000, 1, 50, 0, 0, 0]),
    (
        b"sessions 2\nworkers 02\nretries 0\nalpha 4\n\nlatency 5\nperbyte 6\nprofile 7",
        &[2, 2, 0, 4, 5, 6, 7, 0, 0, 0, 0],
    ),
    (
        b"row p 9 \"a\"\ncall 1 none\nrow k -08\n",
        &[1, 1, 3, 200, 1000, 1, 50, 2, 1, 0],
    ),
    (
        b"load 2 5 006\nload 1 1\nload 2 1000\norder 3 01 3\nsessions 3",
        &[
            3, 1, 3, 200, 1000, 1, 50, 0, 0, 1, 1, 3, 5, 6, 1000, 0, 3, 1, 3,
        ],
    ),
];

#[test]
fn jobs_hold_these_numbers(rt: HostRuntime) -> Result<(), Fail> {
    let alloc = rt.alloc();
    for (text, want) in HELD {
        let job = read(alloc, text)?;
        assert_eq!(rt; numbers(alloc, &job)?.as_slice(), want, "{text:?}");
    }
    Ok(())
}

fn push_number(text: &mut Vec<u8>, number: u64) -> Result<(), AllocError> {
    text.extend_from_slice(Buffer::new().format(number).as_bytes())
}

fn letter(side: Option<Side>) -> u8 {
    match side {
        None => b'-',
        Some(Side::App) => b'A',
        Some(Side::Db) => b'D',
    }
}

// The parts of a job, each with its name, its load, its budget if it has one, and its sides.
fn parts(alloc: Global, job: &Job) -> Result<Vec<u8>, AllocError> {
    let mut text = Vec::new(alloc);
    for part in job.parts.as_slice() {
        text.extend_from_slice(part.name.as_slice())?;
        text.push(b' ')?;
        push_number(&mut text, part.upto as u64)?;
        text.push(b' ')?;
        if let Some(budget) = part.budget {
            push_number(&mut text, budget)?;
            text.push(b' ')?;
        }
        for side in part.sides.sides.as_slice() {
            text.push(letter(*side))?;
        }
        text.push(b';')?;
    }
    Ok(text)
}

const SPLIT: [(&[u8], &[u8]); 9] = [
    (b"", b"app 1000 AAAAAAAAAAAAAAAAAA;"),
    (b"part p upto 1000", b"p 1000 AAAAAAAAAAAAAAAAAA;"),
    (b"part p upto 1000\ndb all", b"p 1000 DADADDDDDDDDDDDDDD;"),
    (
        b"part p upto 1000\ndb method Main.m",
        b"p 1000 DADADDDAAAAAAAAAAD;",
    ),
    (
        b"part p upto 1000\ndb all\napp method Main.n\napp line 5",
        b"p 1000 DAAAAADAADDDDDDDDA;",
    ),
    (
        b"part p upto 01000 budget 1000000000000\napp line 8\ndb line 008",
        b"p 1000 1000000000000 -A-A----D---------;",
    ),
    (
        b"part p upto 1000 budget 0\ndb all\napp field Main.f",
        b"p 1000 0 DADADDDDDDDDDDDADD;",
    ),
    (
        b"part a upto 0\ndb field Main.g\npart app upto 1000\ndb line 8\napp all\ndb field Main.f",
        b"a 0 AAAAAAAAAAAAAAAADA;app 1000 AAAAAAAAAAAAAAADAA;",
    ),
    (
        b"part a upto 1\npart b upto 2\npart c upto 3\npart d upto 4\npart e upto 5\npart f upto 6\npart g upto 7\npart h upto 1000",
        b"a 1 AAAAAAAAAAAAAAAAAA;b 2 AAAAAAAAAAAAAAAAAA;c 3 AAAAAAAAAAAAAAAAAA;d 4 AAAAAAAAAAAAAAAAAA;e 5 AAAAAAAAAAAAAAAAAA;f 6 AAAAAAAAAAAAAAAAAA;g 7 AAAAAAAAAAAAAAAAAA;h 1000 AAAAAAAAAAAAAAAAAA;",
    ),
];

#[test]
fn jobs_have_these_parts(rt: HostRuntime) -> Result<(), Fail> {
    let alloc = rt.alloc();
    for (text, want) in SPLIT {
        let job = read(alloc, text)?;
        assert_eq!(rt; parts(alloc, &job)?.as_slice(), want, "{text:?}");
    }
    Ok(())
}

const BEYOND: [(&[u8], Option<u32>); 9] = [
    (b"", None),
    (
        b"workers 2\nsessions 01\n#order 1\ncall 1 none\nrow k 1\npart p upto 1000\ndb all",
        None,
    ),
    (b"# a\nsessions 2", Some(2)),
    (b"call 1 none\norder 1\nload 1 1", Some(2)),
    (b"\nload 1 1", Some(2)),
    (b"part p upto 1\npart q upto 1000", Some(2)),
    (b"part p upto 1\ndb all\npart q upto 1000 budget 1", Some(3)),
    (b"part p upto 1000 budget 0", Some(1)),
    (b"row t \"order\"", None),
];

#[test]
fn first_lines_are_found_that_two_ends_do_not_take(rt: HostRuntime) -> Result<(), Fail> {
    for (text, want) in BEYOND {
        if text.len() < 1 << 31 {
            assert_eq!(rt; first_beyond(text), want, "{text:?}");
        }
    }
    Ok(())
}
