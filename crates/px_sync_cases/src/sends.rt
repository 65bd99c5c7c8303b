use crate::placed::sends_of;
use std::alloc::{AllocError, Global};
use std::process::Abort;

// A method of Main, the nodes that are at DB, and the sends by node.
struct Case {
    source: &'static str,
    at_db: &'static [u32],
    sends: &'static str,
}

const HEAD: &str = "CREATE TABLE t (id LONG, s TEXT);\nclass Main { long f; Main o; long[] a; ";

const CASES: [Case; 16] = [
    // Prints are at APP: print 2.
    Case {
        source: "public void m() { System.out.println(1); }",
        at_db: &[2],
        sends: "unpinned 2",
    },
    Case {
        source: "public void m() { System.out.println(1); }",
        at_db: &[1, 3],
        sends: "",
    },
    // The nodes are: the method 1, the put 2, the return 3, the fields 4 to 6.
    Case {
        source: "public void m(long x) { f = x; }",
        at_db: &[],
        sends: "",
    },
    Case {
        source: "public void m(long x) { f = x; }",
        at_db: &[4],
        sends: "2 db %0; ",
    },
    Case {
        source: "public void m(long x) { f = x; }",
        at_db: &[2],
        sends: "2 app %0; ",
    },
    Case {
        source: "public void m(long x) { f = x; }",
        at_db: &[2, 4],
        sends: "",
    },
    // A read at the other side: put 2, get 3.
    Case {
        source: "public void m(long x) { f = x; long y = f; }",
        at_db: &[3],
        sends: "2 app %0; ",
    },
    // Elements: array 2, put 3, get 4, store 5, return 6, the fields, the site 10.
    Case {
        source: "public void m(long x) { a = new long[1]; a[0] = x; }",
        at_db: &[10],
        sends: "5 all %3; ",
    },
    Case {
        source: "public void m(long x) { a = new long[1]; a[0] = x; }",
        at_db: &[9],
        sends: "3 db %0; ",
    },
    Case {
        source: "public void m(long x) { a = new long[1]; a[0] = x; }",
        at_db: &[9, 10],
        sends: "3 db %0; 5 all %3; ",
    },
    // A receiver that leads nowhere: get 2, put 3, return 4, the fields.
    Case {
        source: "public void m(long x) { o.f = x; }",
        at_db: &[5],
        sends: "",
    },
    // Rows: query 2, next 3, return 4, the fields, the site 8.
    Case {
        source: "public void m() { ResultSet r = Db.query(\"SELECT id FROM t ORDER BY id\"); r.next(); }",
        at_db: &[2],
        sends: "2 all %1; ",
    },
    Case {
        source: "public void m() { ResultSet r = Db.query(\"SELECT id FROM t ORDER BY id\"); r.next(); }",
        at_db: &[8],
        sends: "2 all %1; 3 all %1; ",
    },
    Case {
        source: "public void m() { ResultSet r = Db.query(\"SELECT id FROM t ORDER BY id\"); r.next(); }",
        at_db: &[2, 8],
        sends: "2 all %1; 3 all %1; ",
    },
    Case {
        source: "public void m() { ResultSet r = Db.query(\"SELECT id FROM t ORDER BY id\"); r.next(); }",
        at_db: &[2, 3, 8],
        sends: "",
    },
    // A query asks by its own site alone: query 2, next 3, query 4, return 5, the fields, the sites 9 and 10.
    Case {
        source: "public void m() { ResultSet r = Db.query(\"SELECT id FROM t ORDER BY id\"); r.next(); r = Db.query(\"SELECT id FROM t ORDER BY id\"); }",
        at_db: &[10],
        sends: "3 all %1; 4 all %1; ",
    },
];

fn shown(alloc: Global, case: &Case) -> Result<String, AllocError> {
    let mut text = String::new(alloc);
    text.push_str(HEAD)?;
    text.push_str(case.source)?;
    text.push_str("\n}\n")?;
    match sends_of(alloc, text.as_bytes(), case.at_db)? {
        None => Ok(String::from_str(alloc, "not accepted")?),
        Some(sends) => Ok(sends),
    }
}

fn all(rt: &impl Abort, alloc: Global, cases: &[Case]) -> Result<(), AllocError> {
    for case in cases {
        let sends = shown(alloc, case)?;
        let source = case.source;
        assert_eq!(rt; sends.as_str(), case.sends, "{source}");
    }
    Ok(())
}

#[test]
fn sends_stand_where_they_are_needed(rt: HostRuntime) -> Result<(), AllocError> {
    all(&rt, rt.alloc(), &CASES)
}
