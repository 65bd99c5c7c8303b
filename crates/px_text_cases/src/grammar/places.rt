//! Texts that are programs, and texts with the line at which they are refused. Where it is one token that is refused, it stands on a line alone.
use super::{parse_line, within};
use std::alloc::{AllocError, Global};

// A text, and the line at which it is refused; none where it is a program.
type Case = (&'static [u8], Option<u32>);

// Tokens.
const TEXTS: [Case; 9] = [
    (b"", Some(1)),
    (b"\n\n", Some(3)),
    (b"class C { } // the end", None),
    (b"class C { /* \\u0041 */ }", None),
    (b"class C { long\n\\u0041; }", Some(2)),
    (b"class C { void f() { s =\n\"\\u0041\"; } }", Some(2)),
    (b"class C {\n/*/ }", Some(2)),
    (b"class C {\n/* \x7f */ }", Some(2)),
    (b"class C {\n// \x7f\n}", Some(2)),
];

// Tables, classes and members.
const DECLARATIONS: [Case; 20] = [
    (b"class C { }", None),
    (b"public class C { } class D { }", None),
    (b"\nprivate\n class C { }", Some(2)),
    (b"\nfinal\n class C { }", Some(2)),
    (b"class C { }\n;\n", Some(2)),
    (b"CREATE TABLE t (a LONG, b TEXT); class C { }", None),
    (b"CREATE TABLE t (a LONG);\n", Some(2)),
    (b"CREATE TABLE t (\n)\n; class C { }", Some(2)),
    (b"CREATE TABLE t (a\nlong\n); class C { }", Some(2)),
    (b"class C { }\nCREATE\n TABLE t (a LONG);", Some(2)),
    (
        b"class C { private long x; public D[] y; ResultSet z; String s; int CREATE; }",
        None,
    ),
    (
        b"class C { void f() throws SQLException { } int[] g(long a, boolean[] b) { } }",
        None,
    ),
    (b"class C { void f() throws\nIOException\n { } }", Some(2)),
    (b"class C { void x\n;\n }", Some(2)),
    (b"class C { void\n[\n] x() { } }", Some(2)),
    (b"class C { int[]\n[\n] x; }", Some(2)),
    (b"class C { long f(long a,\n)\n { } }", Some(2)),
    (b"class C { long x\n=\n 1; }", Some(2)),
    (b"class C { static\nlong x; }", Some(1)),
    (b"class\nint\n { }", Some(2)),
];

// Statements of a method.
const STATEMENTS: [Case; 52] = [
    (b"{ ; } ; return; return a;", None),
    (
        b"int x = 1; D y = a; ResultSet[] z = b; String[] s = c;",
        None,
    ),
    (b"int x\n;\n", Some(2)),
    (b"if (a)\nint\n x = 1;", Some(2)),
    (
        b"a = 1; a.b = 1; a[1] = 1; f().b = 1; new D().b = 1; this.b[1].c = 1;",
        None,
    ),
    (
        b"(b).v = 1; 5.f = 3; \"a\".f = 3; new int[1].x[2] = 3;",
        None,
    ),
    (b"(x)\n=\n 1;", Some(2)),
    (b"this\n=\n 3;", Some(2)),
    (b"f()\n=\n 3;", Some(2)),
    (b"a = b\n=\n c;", Some(2)),
    (b"new D()\n=\n 1;", Some(2)),
    (b"5\n=\n 1;", Some(2)),
    (b"(\nint\n) f();", Some(2)),
    (b"System.out.f();", None),
    (b"}\n}\n}", Some(3)),
    (
        b"a += 1; a -= 1; a *= 1; a /= 1; a %= 1; a &= 1; a |= 1; a ^= 1;",
        None,
    ),
    (b"a <<= 1; a >>= 1; a >>>= 1; a++; a--;", None),
    (b"a.b\n++\n;", Some(2)),
    (b"a[1]\n+=\n 1;", Some(2)),
    (b"\n++\na;", Some(2)),
    (b"a\n+\n b;", Some(2)),
    (b"\n-\nx;", Some(2)),
    (b"\n!\nf();", Some(2)),
    (
        b"f(); f(a, b + c); a.f(); a.f().g(); a[1].f(); this.f(); (a).f();",
        None,
    ),
    (b"new D()\n;\n", Some(2)),
    (b"new D().go();", None),
    (b"(f())\n;\n", Some(2)),
    (b"a\n;\n", Some(2)),
    (b"a.b\n;\n", Some(2)),
    (b"f(a\n;\n", Some(2)),
    (b"f(\n,\na);", Some(2)),
    (
        b"if (a) ; if (a) ; else ; if (a) if (b) ; else ; else ;",
        None,
    ),
    (b"if (a) ; else ;\nelse\n ;", Some(2)),
    (b"if (a) if (b) ; else ; else ;\nelse\n ;", Some(2)),
    (b"if (a) { } else ;", None),
    (b"if\na\n ;", Some(2)),
    (b"while (a) { b(); } while (a) if (b) ; else ;", None),
    (
        b"for (int i = 0; i < n; i++) a[i] = i; for (i = 0; a; f()) ;",
        None,
    ),
    (b"for (\n;\n a; i++) ;", Some(2)),
    (b"for (i = 0;\n;\n i++) ;", Some(2)),
    (b"for (i = 0; a;\n)\n ;", Some(2)),
    (b"for (i = 0; a; int\ni = 1) ;", Some(1)),
    (
        b"System.out.println(1); System.out.println(a + b); System.out.print(1);",
        None,
    ),
    (b"System.out.println(\n)\n;", Some(2)),
    (b"System.out.println(1)\n.\nx();", Some(2)),
    (b"System.out.println\n= 1;", None),
    (
        b"for (System.out.println(); a; System.out.println(1).x()) ;",
        None,
    ),
    (
        b"System = 1; System s = a; System[] t = b; System.out = c; System.out[1] = d;",
        None,
    ),
    (b"\ntry\n { } catch (RuntimeException e) { }", Some(2)),
    (b"return a\nb\n;", Some(2)),
    (b"return\n", Some(2)),
    (b"a = 1\n}\n", Some(2)),
];

// Values.
const VALUES: [Case; 25] = [
    (
        b"a || b && c | d ^ e & f == g != h < i <= j > k >= l << m >> n >>> o + p - q * r / s % t",
        None,
    ),
    (b"- ! ~ (int) (long) - a", None),
    (b"(a) + (b) - (-c)", None),
    (b"a\n++\nb", Some(2)),
    (b"\n+\na", Some(2)),
    (b"a + - b - -b", None),
    (b"(int) a.b(c)[d] + 1", None),
    (b"(\nboolean\n) a", Some(2)),
    (b"(int\n[\n]) a", Some(2)),
    (b"(D)\na\n", Some(2)),
    (b"true && false || null == this", None),
    (b"\"a\\n\\t\\\"\\\\\" + 1 + 2L + 3l", None),
    (b"new D().x.f(1, 2)[3].length", None),
    (b"new int[n].length + new D[2].x[3]", None),
    (b"new int[3]\n[\n4]", Some(2)),
    (b"new String() == new ResultSet()", None),
    (b"new ResultSet[3].length", None),
    (b"new D[3]\n[\n4]", Some(2)),
    (b"new int\n(\n)", Some(2)),
    (b"new D(\n1\n)", Some(2)),
    (b"f(a)\n(\nb)", Some(2)),
    (b"a.\n1\n", Some(2)),
    (b"a[\n]\n", Some(2)),
    (b"a ==\n", Some(2)),
    (b"a\n?\n b : c", Some(2)),
];

#[test]
fn texts_are_refused_at_these_lines(rt: HostRuntime) -> Result<(), AllocError> {
    for (text, line) in TEXTS {
        assert_eq!(rt; parse_line(rt.alloc(), text)?, line, "at {text:?}");
    }
    Ok(())
}

#[test]
fn declarations_are_refused_at_these_lines(rt: HostRuntime) -> Result<(), AllocError> {
    for (text, line) in DECLARATIONS {
        assert_eq!(rt; parse_line(rt.alloc(), text)?, line, "at {text:?}");
    }
    Ok(())
}

#[test]
fn statements_are_refused_at_these_lines(rt: HostRuntime) -> Result<(), AllocError> {
    for (text, line) in STATEMENTS {
        let whole = within(rt.alloc(), b"class C { void f() { ", text, b" } }")?;
        assert!(rt; whole.len() < 2000);
        assert_eq!(rt; parse_line(rt.alloc(), &whole)?, line, "at {text:?}");
    }
    Ok(())
}

#[test]
fn values_are_refused_at_these_lines(rt: HostRuntime) -> Result<(), AllocError> {
    for (text, line) in VALUES {
        let whole = within(rt.alloc(), b"class C { int f() { return ", text, b"; } }")?;
        assert!(rt; whole.len() < 2000);
        assert_eq!(rt; parse_line(rt.alloc(), &whole)?, line, "at {text:?}");
    }
    Ok(())
}
