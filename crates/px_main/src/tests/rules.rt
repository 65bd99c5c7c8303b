//! The type rules, one case for each of their sentences. A breach stands at the begin of the second line.
use super::{CHECK, over, sink};
use px_outside::Sink;
use std::alloc::Global;
use std::process::Abort;
use std::test::Fail;

// A program, and the code of the rule that it breaks; 0 where it keeps them all.
type Case = (&'static str, u8);

// Names: what is declared once, what they stand for, and what may be named how.
const NAMES: [Case; 39] = [
    ("class A { } class\nA { } class Main { }", 1),
    (
        "class Main { public int f() { return 1; } } class\nMain { }",
        1,
    ),
    ("class Main { int a; long\na; }", 1),
    ("class Main { void f() { } int\nf(int n) { return n; } }", 1),
    ("class Main { void f(int a, long\na) { } }", 1),
    ("class Main { void f(int a) { int\na = 1; } }", 1),
    ("class Main { void f() { int a = 1; { long\na = 2; } } }", 1),
    ("class Main { void f() { { int a = 1; } int a = 2; } }", 0),
    ("class Main { int f; int f() { return f; } }", 0),
    (
        "class A { } class Main { void f() { int A = 1; A = 2; } }",
        0,
    ),
    ("class Main {\nBx b; }", 2),
    ("class Main { public\nBx f() { return null; } }", 2),
    ("class Main { void f(\nBx[] b) { } }", 2),
    ("class Main { int f() { return new\nBx[1].length; } }", 2),
    ("class Main { void f() {\nx = 1; } }", 3),
    ("class Main { void f() {\nx = 1; int x = 2; } }", 3),
    ("class Main { void f() { { int x = 1; }\nx = 2; } }", 3),
    ("class Main { void f() { int x =\nx; } }", 3),
    ("class Main { int x; int f() { return x; } }", 0),
    ("class Main { int x; void f() {\nx += 1; } }", 3),
    ("class Main { int x; void f() {\nx++; } }", 3),
    ("class Main { void f() {\ng(); } }", 4),
    ("class Main { int f(int[] a) { return a.\nsize; } }", 4),
    ("class Main { void f(int[] a) { a.\nlength = 1; } }", 4),
    ("class Main { int f(int n) { return n.\nx; } }", 4),
    ("class Main { int f() { return -2147483648.\nx; } }", 4),
    ("class Main { void f() { f().\nf(); } }", 4),
    ("class Main { int f(String s) { return s.\nsize(); } }", 4),
    ("class Main { int f(String s) { return s.length(); } }", 0),
    ("class Main { public int[]\nf() { return null; } }", 14),
    ("class Main { public void\nf(Main m) { } }", 14),
    (
        "class Main { public String f(String s) { return s; } int[] g() { return null; } }",
        0,
    ),
    ("class A { }\n", 14),
    (
        "class A { private int x; } class Main { int f(A a) { return a.\nx; } }",
        15,
    ),
    (
        "class A { private void g() { } } class Main { void f(A a) { a.\ng(); } }",
        15,
    ),
    (
        "class Main { private int x; int f(Main m) { return m.x; } }",
        0,
    ),
    ("class\nSystem { } class Main { }", 18),
    ("class Main { void f(int\nString) { int System = 1; } }", 18),
    (
        "class Main { void System() { } int String() { return 1; } }",
        0,
    ),
];

// Values: arguments, types, literals.
const VALUES: [Case; 31] = [
    ("class Main { void f(int n) {\nf(); } }", 5),
    ("class Main { void f(int n) {\nf(true, 1); } }", 5),
    (
        "class Main { int f(String s) { return s.\nlength(1); } }",
        5,
    ),
    ("class Main { void f(int n) {\nf(true); } }", 6),
    ("class Main { int f() {\nreturn true; } }", 6),
    ("class Main { void f(int n) {\nif (n) ; } }", 6),
    ("class Main { void f(int n) {\nwhile (n) ; } }", 6),
    ("class Main { int f(int[] a, long i) { return\na[i]; } }", 6),
    ("class Main { int f(int n) { return\nn[0]; } }", 6),
    (
        "class Main { int f(boolean b) { return 1 + (\nb + 1); } }",
        6,
    ),
    ("class Main { boolean f(int n) { return\n!n; } }", 6),
    ("class Main { void f() {\nint x = 1L; } }", 6),
    ("class Main { void f(int n) {\nn = 1L; } }", 6),
    ("class Main { void f() {\nSystem.out.println(null); } }", 6),
    ("class Main { void f(String s) {\ns += null; } }", 6),
    ("class Main { String f() { return\nnull + null; } }", 6),
    ("class Main { void g() { } void f() {\nint x = g(); } }", 6),
    ("class Main { void f(boolean b) {\nb++; } }", 6),
    (
        "class Main { void f() { for (\nint i = true; i < 1; i++) ; } }",
        6,
    ),
    ("class Main { long f(int n) { return n; } }", 0),
    (
        "class Main { void f(Main m, int[] a, String s) { m = null; a = null; s = null; } }",
        0,
    ),
    ("class Main { boolean f() { return null == null; } }", 0),
    (
        "class Main { String f(int n) { return n + \"x\" + true; } }",
        0,
    ),
    (
        "class Main { boolean f(String s) { return s\n== \"x\"; } }",
        7,
    ),
    (
        "class Main { boolean f(String s) { return s == null; } }",
        0,
    ),
    ("class Main { int f() { return\n2147483648; } }", 11),
    ("class Main { int f() { return -(\n2147483648); } }", 11),
    ("class Main { int f() { return -2147483648; } }", 0),
    (
        "class Main { long f() { return\n9223372036854775808L; } }",
        11,
    ),
    (
        "class Main { long f() { return -9223372036854775808L; } }",
        0,
    ),
    ("class Main { long f() { return 2147483648L; } }", 0),
];

// Statements that go on or end.
const ENDS: [Case; 15] = [
    ("class Main { void f() { return;\n; } }", 8),
    ("class Main { void f() { while (true) ; int x = 1; } }", 0),
    (
        "class Main { void f(boolean b) { if (b) return; else return;\n; } }",
        8,
    ),
    (
        "class Main { int f(boolean b) { if (b) return 1; return 2; } }",
        0,
    ),
    ("class Main { int\nf() { } }", 9),
    ("class Main { int\nf(boolean b) { if (b) return 1; } }", 9),
    (
        "class Main { int\nf(boolean b) { while (b) return 1; } }",
        9,
    ),
    ("class Main { int\nf() { while (true) ; } }", 9),
    (
        "class Main { int\nf() { for (int i = 0; true; i++) ; } }",
        9,
    ),
    ("class Main { public int[]\nf() { } }", 9),
    ("class Main { void f() {\nreturn 1; } }", 10),
    ("class Main { int f() {\nreturn; } }", 10),
    ("class Main { void f() { return; } }", 0),
    // The first of two breaches.
    ("class Main { int\nf() { x = 1; } }", 9),
    ("class Main { void f() { int a =\nx; int a = 1; } }", 3),
];

fn judged(rt: &impl Abort, alloc: Global, program: &[u8], text: &[u8]) -> Result<(), Fail> {
    let mut sink = sink(alloc);
    over(alloc, &CHECK, program, b"", &mut sink)?;
    assert_eq!(rt; sink.taken(), text, "{program:?}");
    Ok(())
}

fn all(rt: &impl Abort, alloc: Global, cases: &[Case]) -> Result<(), Fail> {
    for (program, code) in cases {
        let text = match *code {
            0 => format!(in alloc; "ok\n")?,
            code => format!(in alloc; "program 2 T{code}\n")?,
        };
        judged(rt, alloc, program.as_bytes(), text.as_bytes())?;
    }
    Ok(())
}

#[test]
fn names_keep_the_rules(rt: HostRuntime) -> Result<(), Fail> {
    all(&rt, rt.alloc(), &NAMES)
}

#[test]
fn values_keep_the_rules(rt: HostRuntime) -> Result<(), Fail> {
    all(&rt, rt.alloc(), &VALUES)
}

#[test]
fn statements_keep_the_rules(rt: HostRuntime) -> Result<(), Fail> {
    all(&rt, rt.alloc(), &ENDS)
}
