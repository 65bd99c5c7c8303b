//! The limits of the type rules and of tables, each at its edge.
use crate::rules::{Found, judge};
use std::alloc::Global;
use std::process::Abort;
use std::test::Fail;

// A program that is mostly a part, repeated: its begin, the part, a number from 0 behind that, the rest of the part, the
// program's end, how many there are, and what is found.
type Long = (
    &'static str,
    &'static str,
    &'static str,
    &'static str,
    usize,
    Found,
);

const CLASSES: &str = " { }\n";

// Ten `new` expressions or calls of `Db`, on ten lines.
const OBJECTS: &str =
    "() { new Main().v();\nnew Main().v();\nnew Main().v();\nnew Main().v();\nnew Main().v();\nnew Main().v();\nnew Main().v();\nnew Main().v();\nnew Main().v();\nnew Main().v(); }\n";

const BOTH: &str =
    "() { new Main().v();\nDb.query(\"SELECT id FROM t ORDER BY id\");\nnew Main().v();\nDb.query(\"SELECT id FROM t ORDER BY id\");\nnew Main().v();\nDb.query(\"SELECT id FROM t ORDER BY id\");\nnew Main().v();\nDb.query(\"SELECT id FROM t ORDER BY id\");\nnew Main().v();\nDb.query(\"SELECT id FROM t ORDER BY id\"); }\n";

const NUMBERED: [Long; 18] = [
    ("", "class C", CLASSES, "class Main { }", 499, None),
    (
        "",
        "class C",
        CLASSES,
        "class Main { }",
        500,
        Some((501, 17)),
    ),
    ("class Main { ", "int a", ";\n", "}", 200, None),
    ("class Main { ", "int a", ";\n", "}", 201, Some((201, 17))),
    ("class Main { ", "void f", "() { }\n", "}", 2000, None),
    (
        "class Main { ",
        "void f",
        "() { }\n",
        "}",
        2001,
        Some((2001, 17)),
    ),
    ("class Main { void f() {", "/*", "*/;\n", "} }", 9994, None),
    (
        "class Main { void f() {",
        "/*",
        "*/;\n",
        "} }",
        9995,
        Some((9996, 17)),
    ),
    (
        "class Main { void v() { } ",
        "void f",
        OBJECTS,
        "}",
        1000,
        None,
    ),
    (
        "class Main { void v() { } ",
        "void f",
        OBJECTS,
        "}",
        1001,
        Some((10001, 17)),
    ),
    (
        "CREATE TABLE t (id LONG); class Main { void v() { } ",
        "void f",
        BOTH,
        "}",
        1000,
        None,
    ),
    (
        "CREATE TABLE t (id LONG); class Main { void v() { } ",
        "void f",
        BOTH,
        "}",
        1001,
        Some((10001, 17)),
    ),
    (
        "",
        "CREATE TABLE t",
        " (id LONG);\n",
        "class Main { }",
        100,
        None,
    ),
    (
        "",
        "CREATE TABLE t",
        " (id LONG);\n",
        "class Main { }",
        101,
        Some((101, 16)),
    ),
    (
        "CREATE TABLE t (id LONG",
        ",\nc",
        " TEXT",
        "); class Main { }",
        15,
        None,
    ),
    (
        "CREATE TABLE t (id LONG",
        ",\nc",
        " TEXT",
        "); class Main { }",
        16,
        Some((1, 16)),
    ),
    (
        "class Main { void f(int a",
        ", int b",
        "",
        ") { } }",
        20,
        None,
    ),
    (
        "class Main { void f(int a",
        ", int b",
        "",
        ", int\nb0) { } }",
        20,
        Some((2, 1)),
    ),
];

fn numbered(alloc: Global, case: &Long) -> Result<String, Fail> {
    let (begin, part, rest, end, count, _found) = case;
    let mut text = String::new(alloc);
    text.push_str(begin)?;
    for number in 0..*count {
        let next = format!(in alloc; "{part}{number}{rest}")?;
        text.push_str(next.as_str())?;
    }
    text.push_str(end)?;
    Ok(text)
}

// A literal: what stands before it and behind it, how many letters it has, and what is found.
type Letters = (&'static str, &'static str, usize, Found);

const LETTERS: [Letters; 5] = [
    ("System.out.println(\n\"", "\");", 500, None),
    ("System.out.println(\n\"", "\");", 501, Some((3, 17))),
    ("Db.query(\n\"", "\");", 500, Some((3, 12))),
    ("Db.query(\n\"", "\");", 501, Some((3, 12))),
    (
        "Db.query(\n\"SELECT id FROM t WHERE s = ? ORDER BY id\",\n\"",
        "\");",
        501,
        Some((4, 17)),
    ),
];

fn lettered(alloc: Global, case: &Letters) -> Result<String, Fail> {
    let (before, behind, count, _found) = case;
    let mut text = String::new(alloc);
    text.push_str("CREATE TABLE t (id LONG, s TEXT); class Main { void f() {\n")?;
    text.push_str(before)?;
    for _ in 0..*count {
        text.push_str("a")?;
    }
    text.push_str(behind)?;
    text.push_str(" } }")?;
    Ok(text)
}

fn at_its_edge(rt: &impl Abort, alloc: Global, text: String, wanted: Found) -> Result<(), Fail> {
    let found = judge(alloc, text.as_bytes())?;
    assert_eq!(rt; found, wanted);
    Ok(())
}

fn all_numbered(rt: &impl Abort, alloc: Global, cases: &[Long]) -> Result<(), Fail> {
    for case in cases {
        let text = numbered(alloc, case)?;
        at_its_edge(rt, alloc, text, case.5)?;
    }
    Ok(())
}

fn all_lettered(rt: &impl Abort, alloc: Global, cases: &[Letters]) -> Result<(), Fail> {
    for case in cases {
        let text = lettered(alloc, case)?;
        at_its_edge(rt, alloc, text, case.3)?;
    }
    Ok(())
}

#[test]
fn parts_have_limits(rt: HostRuntime) -> Result<(), Fail> {
    all_numbered(&rt, rt.alloc(), &NUMBERED)
}

#[test]
fn literals_have_limits(rt: HostRuntime) -> Result<(), Fail> {
    all_lettered(&rt, rt.alloc(), &LETTERS)
}
