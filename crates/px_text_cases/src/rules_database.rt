//! Calls of `Db`: which text and which values they take, and what is told of them.
use crate::rules::{Case, all, read_program};
use px_facts::{Element, Fact, Named, Operation, Ty};
use px_sql::read_schema;
use px_types::check;
use std::alloc::Global;
use std::process::Abort;
use std::test::Fail;

// The statements begin on line 2.
const BEGIN: &str =
    "CREATE TABLE t (id LONG, s TEXT); class Main { void v() { } int g(int n) { return n; }
void f(int n, long l, boolean b, String s) { ";

const END: &str = " } }";

const CALLS: [Case; 33] = [
    ("Db.query(\"SELECT s FROM t WHERE id = ?\", n);", None),
    ("Db.query(\"SELECT s FROM t WHERE id = ?\", l);", None),
    (
        "Db.update(\n\"SELECT s FROM t WHERE id = ?\", n);",
        Some((3, 12)),
    ),
    ("Db.update(\"DELETE FROM t WHERE id = ?\", n);", None),
    (
        "Db.query(\n\"SELECT x FROM t WHERE id = ?\");",
        Some((3, 12)),
    ),
    (
        "Db.query(\n\" SELECT s FROM t ORDER BY id\");",
        Some((3, 12)),
    ),
    ("Db.update(\n\"\", n, s);", Some((3, 12))),
    (
        "Db.query(\n\"SELECT s FROM t WHERE id = ?\", b);",
        Some((2, 13)),
    ),
    (
        "Db.query(\n\"SELECT s FROM t WHERE id = ?\", n, n);",
        Some((2, 13)),
    ),
    ("Db.query(\"SELECT s, id FROM t ORDER BY id\");", None),
    (
        "Db.query(\n\"SELECT s, id FROM t ORDER BY id\", null);",
        Some((2, 13)),
    ),
    (
        "Db.update(\"UPDATE t SET s = ? WHERE id = ?\", s, n);",
        None,
    ),
    (
        "Db.update(\n\"UPDATE t SET s = ? WHERE id = ?\", n, n);",
        Some((2, 13)),
    ),
    ("Db.update(\"INSERT INTO t VALUES (?, ?)\", l, null);", None),
    (
        "Db.update(\n\"INSERT INTO t VALUES (?, ?)\", null, s);",
        Some((2, 13)),
    ),
    ("Db.query(\n);", Some((2, 12))),
    (
        "Db.query(\n(\"SELECT s, id FROM t ORDER BY id\"));",
        Some((2, 12)),
    ),
    (
        "Db.query(\n\"SELECT s, id FROM t \" + \"ORDER BY id\");",
        Some((2, 12)),
    ),
    ("Db.\nfoo(\"\");", Some((2, 3))),
    ("(\nDb).query();", Some((3, 3))),
    ("s =\nDb;", Some((3, 3))),
    // Void calls.
    (
        "Db.update(\n\"DELETE FROM t WHERE id = ?\", v());",
        Some((2, 13)),
    ),
    (
        "Db.update(\n\"DELETE FROM t WHERE id = ?\", n, v());",
        Some((2, 13)),
    ),
    (
        "Db.query(\n\"SELECT s FROM t WHERE id = ?\", v());",
        Some((2, 13)),
    ),
    (
        "Db.query(\n\"SELECT id FROM t WHERE s = ? ORDER BY id\", v());",
        Some((2, 13)),
    ),
    (
        "Db.query(\n\"SELECT id FROM t ORDER BY id\", v());",
        Some((2, 13)),
    ),
    (
        "Db.update(\n\"UPDATE t SET s = ? WHERE id = ?\", v(), n);",
        Some((2, 13)),
    ),
    (
        "Db.update(\n\"INSERT INTO t VALUES (?, ?)\", n, v());",
        Some((2, 13)),
    ),
    ("Db.update(\n\"\",\nv());", Some((3, 12))),
    (
        "Db.query(\n\"DELETE FROM t WHERE id = ?\",\nv());",
        Some((3, 12)),
    ),
    ("Db.update(\nv());", Some((2, 12))),
    ("Db.query(\nnope, v());", Some((2, 12))),
    ("Db.\nnope(v());", Some((2, 3))),
];

#[test]
fn a_call_has_a_text_and_its_values(rt: HostRuntime) -> Result<(), Fail> {
    all(&rt, rt.alloc(), BEGIN, END, &CALLS)
}

// Names in scopes, by the numbers of statements and expressions.
const SCOPES: &str =
    "class Main { int m; long n; public long f(int a) { { long b = new int[a].length; } long c = n; return this.f(a) + c; } }";

const SCOPE_FACTS: [(Ty, Named); 14] = [
    (Ty::Void, Named::Nothing),
    (Ty::Void, Named::Nothing),
    (Ty::Long, Named::Local(2)),
    (Ty::Int, Named::ArrayLength),
    (Ty::Array(Element::Int), Named::NewArray { site: 1 }),
    (Ty::Int, Named::Local(1)),
    (Ty::Long, Named::Local(3)),
    (Ty::Long, Named::Field { class: 0, place: 1 }),
    (Ty::Void, Named::Nothing),
    (Ty::Long, Named::Nothing),
    (Ty::Long, Named::Method(1)),
    (Ty::Object(0), Named::Nothing),
    (Ty::Int, Named::Local(1)),
    (Ty::Long, Named::Local(3)),
];

// Calls of `Db` have numbers in the order of the text, a `for`'s last part before its body; sites are shared with `new`.
const NUMBERS: &str = "CREATE TABLE t (id LONG, s TEXT); class Main { void f() {
for (Db.query(\"SELECT s, id FROM t ORDER BY id\"); true; Db.update(\"DELETE FROM t WHERE id = ?\", 1)) Db.query(\"SELECT s FROM t WHERE id = ?\", 1L).next();
Main m = new Main(); } }";

const NUMBER_FACTS: [(Ty, Named); 20] = [
    (Ty::Void, Named::Nothing),
    (Ty::Void, Named::Nothing),
    (Ty::Void, Named::Nothing),
    (Ty::ResultSet, Named::Query { number: 1, site: 1 }),
    (Ty::Unknown, Named::Database),
    (Ty::Text, Named::Nothing),
    (Ty::Boolean, Named::Nothing),
    (Ty::Void, Named::Nothing),
    (Ty::Int, Named::Update { number: 2 }),
    (Ty::Unknown, Named::Database),
    (Ty::Text, Named::Nothing),
    (Ty::Int, Named::Nothing),
    (Ty::Void, Named::Nothing),
    (Ty::Boolean, Named::Next),
    (Ty::ResultSet, Named::Query { number: 3, site: 2 }),
    (Ty::Unknown, Named::Database),
    (Ty::Text, Named::Nothing),
    (Ty::Long, Named::Nothing),
    (Ty::Object(0), Named::Local(1)),
    (Ty::Object(0), Named::NewObject { class: 0, site: 3 }),
];

// The parameters of each call of `Db`, by number.
const PARAMETERS: [&[Ty]; 3] = [&[], &[Ty::Long], &[Ty::Long]];

fn same_facts(rt: &impl Abort, facts: &[Fact], wanted: &[(Ty, Named)]) {
    assert_eq!(rt; facts.len(), wanted.len());
    for (fact, (ty, named)) in facts.iter().zip(wanted) {
        assert_eq!(rt; fact.ty, *ty);
        assert_eq!(rt; fact.named, *named);
    }
}

fn same_parameters(rt: &impl Abort, operations: &[Operation], wanted: &[&[Ty]]) {
    assert_eq!(rt; operations.len(), wanted.len());
    for (operation, wanted) in operations.iter().zip(wanted) {
        assert_eq!(rt; operation.params.as_slice(), *wanted);
    }
}

fn told(
    rt: &impl Abort,
    alloc: Global,
    text: &str,
    facts: &[(Ty, Named)],
    parameters: &[&[Ty]],
) -> Result<(), Fail> {
    let program = read_program(alloc, text.as_bytes())?;
    let schema = read_schema(alloc, program.tables.as_slice())?;
    let checked = check(alloc, program, schema)?;
    same_facts(rt, checked.facts.nodes.as_slice(), facts);
    same_parameters(rt, checked.facts.operations.as_slice(), parameters);
    Ok(())
}

#[test]
fn facts_are_in_the_order_of_the_text(rt: HostRuntime) -> Result<(), Fail> {
    told(&rt, rt.alloc(), SCOPES, &SCOPE_FACTS, &[])?;
    told(&rt, rt.alloc(), NUMBERS, &NUMBER_FACTS, &PARAMETERS)
}
