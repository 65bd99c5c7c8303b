use crate::text::text_of;
use px_lowering::lower;
use px_parse::parse;
use px_sql::read_schema;
use px_types::check;
use std::alloc::{AllocError, Global};
use std::process::Abort;

// A body of a method of Main, and the statements of its code without their numbers.
struct Case {
    source: &'static str,
    code: &'static str,
}

const HEAD: &str =
    "CREATE TABLE t (id LONG, s TEXT);\nclass Main {\n  long f; Main o; long[] a;\n  void v() { return; }\n  long w(long x) { return x; }\n  boolean b(boolean x) { return x; }\n";

// The most bytes of a text that these tests read, as of a file.
const MOST: usize = 1_048_576;

fn code_of(alloc: Global, bytes: &[u8]) -> Result<Option<String>, AllocError> {
    if bytes.len() > MOST {
        return Ok(None);
    }
    let Ok(program) = parse(alloc, bytes) else {
        return Ok(None);
    };
    let Ok(schema) = read_schema(alloc, program.tables.as_slice()) else {
        return Ok(None);
    };
    let Ok(checked) = check(alloc, program, schema) else {
        return Ok(None);
    };
    let code = lower(alloc, &checked)?;
    let text = text_of(alloc, &code)?;
    Ok(Some(text))
}

// The lines of the method `m`, whose name and number of slots come first.
fn lines_of_m(alloc: Global, text: &str) -> Result<String, AllocError> {
    let mut lines = String::new(alloc);
    let mut inside = false;
    for line in text.lines() {
        if line.starts_with("method ") {
            inside = line.contains(" Main.m ");
            continue;
        }
        if line.starts_with("lines") {
            inside = false;
        }
        if inside {
            let shown = line.trim_start_matches(|c: char| c.is_ascii_digit());
            lines.push_str(shown.trim())?;
            lines.push_str("; ")?;
        }
    }
    Ok(lines)
}

const CASES: [Case; 19] = [
    Case {
        source: "long m() { return (long) 5; }",
        code: "op widen %1 5; return %1; end; ",
    },
    Case {
        source: "long m() { long y = 5; return y; }",
        code: "set %1 5L; return %1; end; ",
    },
    Case {
        source: "long m(int a) { long y = a + 1; return y; }",
        code: "op add %3 %1 1; op widen %2 %3; return %2; end; ",
    },
    Case {
        source: "int m(int x) { x--; return x; }",
        code: "op sub %1 %1 1; return %1; end; ",
    },
    Case {
        source: "int m() { return -(5); }",
        code: "op neg %1 5; return %1; end; ",
    },
    Case {
        source: "int m() { return -5; }",
        code: "return -5; end; ",
    },
    Case {
        source: "String m(String s) { s += s + 1; return s; }",
        code: "op concat %2 %1 1; op concat %1 %1 %2; return %1; end; ",
    },
    Case {
        source: "boolean m(boolean x, boolean y, boolean z) { return (x && y) || z; }",
        code: "set %4 %1; if %4; set %4 %2; else; end; if %4; else; set %4 %3; end; return %4; end; ",
    },
    Case {
        source: "boolean m(boolean x, boolean y, boolean z) { boolean r = x && (y || z); return r; }",
        code: "set %5 %1; if %5; set %6 %2; if %6; else; set %6 %3; end; set %5 %6; else; end; set %4 %5; return %4; end; ",
    },
    Case {
        source: "boolean m(boolean x) { return b(x) && b(x); }",
        code: "call %2 %0 Main.b %1; if %2; call %2 %0 Main.b %1; else; end; return %2; end; ",
    },
    Case {
        source: "void m(int n) { for (int i = 0; i < n; v()) { i++; } }",
        code: "set %2 0; loop; op lt %3 %2 %1; test %3; op add %2 %2 1; call - %0 Main.v; end; return; end; ",
    },
    Case {
        source: "void m() { w(1); }",
        code: "call %1 %0 Main.w 1L; return; end; ",
    },
    Case {
        source: "void m(int i) { w(i); }",
        code: "op widen %2 %1; call %3 %0 Main.w %2; return; end; ",
    },
    Case {
        source: "void m(int i) { a[i] = i; }",
        code: "get %2 %0 Main.a; op widen %3 %1; store %2 %1 %3; return; end; ",
    },
    Case {
        source: "void m(int i) { o.f = i + i; }",
        code: "get %2 %0 Main.o; op add %3 %1 %1; op widen %4 %3; put %2 Main.f %4; return; end; ",
    },
    Case {
        source: "long m() { ResultSet r = Db.query(\"SELECT id, s FROM t WHERE id = ?\", 1); r.next(); System.out.println(r.getString(2)); return r.getLong(1); }",
        code: "query %1 1 1 1L; next %2 %1; text %3 %1 2; print %3; long %4 %1 1; return %4; end; ",
    },
    Case {
        source: "int m(int i) { return Db.update(\"INSERT INTO t VALUES (?, ?)\", i, \"x\"); }",
        code: "op widen %2 %1; update %3 1 %2 \"x\"; return %3; end; ",
    },
    Case {
        source: "int m(boolean x) { if (x) { return 1; } else { return 2; } }",
        code: "if %1; return 1; else; return 2; end; end; ",
    },
    Case {
        source: "int m(String s) { int[] k = new int[s.length()]; return k.length; }",
        code: "op length %3 %1; array %2 int %3 1; len %4 %2; return %4; end; ",
    },
];

fn shown(alloc: Global, source: &str) -> Result<String, AllocError> {
    let mut text = String::new(alloc);
    text.push_str(HEAD)?;
    text.push_str(source)?;
    text.push_str("\n}\n")?;
    match code_of(alloc, text.as_bytes())? {
        None => Ok(String::new(alloc)),
        Some(text) => lines_of_m(alloc, text.as_str()),
    }
}

fn all(rt: &impl Abort, alloc: Global, cases: &[Case]) -> Result<(), AllocError> {
    for case in cases {
        let code = shown(alloc, case.source)?;
        let source = case.source;
        assert_eq!(rt; code.as_str(), case.code, "{source}");
    }
    Ok(())
}

// Two names for one object.
const TWO_NAMES: &str =
    "class Box {\nlong v;\n}\nclass Main {\nBox make() {\nreturn new Box();\n}\npublic long f() {\nBox p = make();\nBox q = make();\nBox r = p;\nr.v = 5;\nreturn p.v + q.v;\n}\n}\n";

// The method `make` is 1 and `f` is 2, `new Box()` is site 1, and node 8 writes the field that node 9 reads.
const TWO_NAMES_CODE: &str =
    "field Box.v\nmethod 1 Main.make 2\n2 new %1 Box 1\n3 return %1\nend\nmethod 4 Main.f 7\n5 call %1 %0 Main.make\n6 call %2 %0 Main.make\n7 set %3 %1\n8 put %3 Box.v 5L\n9 get %4 %1 Box.v\n10 get %5 %2 Box.v\n11 op add %6 %4 %5\n12 return %6\nend\nlines 5 6 6 8 9 10 11 12 13 13 13 13 2\n";

fn whole(alloc: Global, source: &str) -> Result<String, AllocError> {
    match code_of(alloc, source.as_bytes())? {
        None => Ok(String::new(alloc)),
        Some(text) => Ok(text),
    }
}

fn numbered(rt: &impl Abort, alloc: Global) -> Result<(), AllocError> {
    let code = whole(alloc, TWO_NAMES)?;
    assert_eq!(rt; code.as_str(), TWO_NAMES_CODE);
    Ok(())
}

#[test]
fn methods_sites_and_nodes_are_numbered_in_the_order_of_the_text(
    rt: HostRuntime,
) -> Result<(), AllocError> {
    numbered(&rt, rt.alloc())
}

#[test]
fn sources_are_lowered_as_written(rt: HostRuntime) -> Result<(), AllocError> {
    all(&rt, rt.alloc(), &CASES)
}
