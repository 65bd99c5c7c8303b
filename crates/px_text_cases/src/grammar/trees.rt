//! The trees of texts.

use super::printed::Printed;
use super::within;
use px_parse::{ParseError, parse};
use std::alloc::Global;
use std::process::Abort;

// A text, and its tree.
type Case = (&'static [u8], &'static [u8]);

// Returned values.
const EXPRESSIONS: [Case; 41] = [
    (b"17", b"17"),
    (b"5L + 6l", b"(+ 5L 6L)"),
    (b"\"a\\n\\t\\\"\\\\n\"", b"\"a\n\t\"\\n\""),
    (b"true", b"true"),
    (b"false", b"false"),
    (b"null", b"null"),
    (b"this", b"this"),
    (b"out", b"out"),
    (b"(a + b)", b"(group (+ a b))"),
    (b"f()", b"(own f)"),
    (b"f(a)", b"(own f a)"),
    (
        b"f(a + b, g(c, d), (e))",
        b"(own f (+ a b) (own g c d) (group e))",
    ),
    (b"new D()", b"(new D)"),
    (b"new D().x", b"(field (new D) x)"),
    (b"new int[a + 1]", b"(array int (+ a 1))"),
    (b"new String[3].length", b"(field (array String 3) length)"),
    (b"new D[2].x[3]", b"(index (field (array class D 2) x) 3)"),
    (b"new ResultSet[b]", b"(array class ResultSet b)"),
    (b"a.b", b"(field a b)"),
    (b"this.a[b].c", b"(field (index (field this a) b) c)"),
    (b"a.b(c)[d]", b"(index (call a b c) d)"),
    (b"a[b].c(d, e)", b"(call (index a b) c d e)"),
    (b"-a.b", b"(- (field a b))"),
    (b"!-~a", b"(! (- (~ a)))"),
    (b"(int) -a", b"(int (- a))"),
    (b"(long) (int) a.b", b"(long (int (field a b)))"),
    (b"(a) - b", b"(- (group a) b)"),
    (b"-a * b", b"(* (- a) b)"),
    (b"a + b * c", b"(+ a (* b c))"),
    (b"a * b + c", b"(+ (* a b) c)"),
    (b"a - b - c", b"(- (- a b) c)"),
    (
        b"a || b && c | d ^ e & f",
        b"(|| a (&& b (| c (^ d (& e f)))))",
    ),
    (
        b"a & b ^ c | d && e || f",
        b"(|| (&& (| (^ (& a b) c) d) e) f)",
    ),
    (
        b"a == b < c << d + e * f",
        b"(== a (< b (<< c (+ d (* e f)))))",
    ),
    (
        b"a * b + c >> d >= e != f",
        b"(!= (>= (>> (+ (* a b) c) d) e) f)",
    ),
    (b"a + b * c - d", b"(- (+ a (* b c)) d)"),
    (b"a < b == c < d", b"(== (< a b) (< c d))"),
    (b"a % b / c * d", b"(* (/ (% a b) c) d)"),
    (b"a >>> b > c <= d", b"(<= (> (>>> a b) c) d)"),
    (b"a || b || c && d && e", b"(|| (|| a b) (&& (&& c d) e))"),
    (b"a | b | c == d == e", b"(| (| a b) (== (== c d) e))"),
];

// Statements of a method.
const STATEMENTS: [Case; 20] = [
    (b"a = b + c;", b"(= a (+ b c))"),
    (b"a.b[c] = d;", b"(= (index (field a b) c) d)"),
    (
        b"a += 1; a -= 2; a *= 3; a /= 4; a %= 5; a &= 6; a |= 7; a ^= 8;",
        b"(+= a 1) (-= a 2) (*= a 3) (/= a 4) (%= a 5) (&= a 6) (|= a 7) (^= a 8)",
    ),
    (
        b"a <<= 1; a >>= 2; a >>>= b + c;",
        b"(<<= a 1) (>>= a 2) (>>>= a (+ b c))",
    ),
    (b"a++; b--;", b"(++ a) (-- b)"),
    (b"f(a);", b"(do (own f a))"),
    (b"new D().go();", b"(do (call (new D) go))"),
    (
        b"int x = 1; D y = a; ResultSet z = b; long u = c; boolean v = d;",
        b"(local int x 1) (local class D y a) (local ResultSet z b) (local long u c) (local boolean v d)",
    ),
    (
        b"String[] x = a; D[] y = b; ResultSet[] z = c; int[] u = d;",
        b"(local String[] x a) (local class D[] y b) (local class ResultSet[] z c) (local int[] u d)",
    ),
    (
        b"if (a) if (b) ; else c();",
        b"(if a (if b (empty) (do (own c))))",
    ),
    (
        b"if (a) if (b) ; else ; else c();",
        b"(if a (if b (empty) (empty)) (do (own c)))",
    ),
    (
        b"if (a) { } else if (b) ; else c();",
        b"(if a (block) (if b (empty) (do (own c))))",
    ),
    (
        b"if (a) while (b) if (c) ; else d();",
        b"(if a (while b (if c (empty) (do (own d)))))",
    ),
    (b"while (a) { b(); }", b"(while a (block (do (own b))))"),
    (
        b"for (int i = 0; i < n; i++) a[i] = i;",
        b"(for (local int i 0) (< i n) (++ i) (= (index a i) i))",
    ),
    (
        b"for (i = 0; a; f()) ;",
        b"(for (= i 0) a (do (own f)) (empty))",
    ),
    (b"return; { ; { } }", b"(return) (block (empty) (block))"),
    (
        b"System.out.println(a + b); System.out.print(1);",
        b"(print (+ a b)) (do (call (field System out) print 1))",
    ),
    (
        b"System.out.println = 1;",
        b"(= (field (field System out) println) 1)",
    ),
    (
        b"for (System.out.println(); a; System.out.println(1)) ;",
        b"(for (do (call (field System out) println)) a (do (call (field System out) println 1)) (empty))",
    ),
];

const DECLARATIONS: [Case; 2] = [
    (
        b"CREATE TABLE t (id LONG, b TEXT); CREATE TABLE u (TEXT LONG); class C { }",
        b" (table t id LONG b TEXT) (table u TEXT LONG) (class C)",
    ),
    (
        b"public class C { private int[] x; ResultSet y; public D z; public void f(long a, D[] b) throws SQLException { } private boolean g() { } } class D { String f() { } }",
        b" (class C (field private int[] x) (field ResultSet y) (field public class D z) (method public void f (params long a class D[] b) (block)) (method private boolean g (params) (block))) (class D (method String f (params) (block)))",
    ),
];

// With the numbers of nodes behind `#`, and those of tokens behind `@`: the first and the last of a method, and the first of a node.
const NUMBERED: [Case; 3] = [
    (
        b"class C { void f() { if (a) if (b) ; else ; } }",
        b" (class C@1 (method@3@19 void f@4 (params) #0@7 (block #1@8 (if #2@10 a@10 #3@12 (if #4@14 b@14 #5@16 (empty) #6@18 (empty))))))",
    ),
    (
        b"class C { } class D { long x; long f() { return a - b * c - d; } }",
        b" (class C@1) (class D@5 (field long@7 x@8) (method@10@24 long@10 f@11 (params) #0@14 (block #1@15 (return #2@16 (-@21 #3@16 (-@17 #4@16 a@16 #5@18 (*@19 #6@18 b@18 #7@20 c@20)) #8@22 d@22)))))",
    ),
    (
        b"class C { int f() { return (int) -g(a, new D[1])[2].x; } }",
        b" (class C@1 (method@3@29 int@3 f@4 (params) #0@7 (block #1@8 (return #2@9 (int #3@12 (- #4@13 (field #5@13 (index #6@13 (own g@13 #7@15 a@15 #8@17 (array class D@18 #9@20 1)) #10@24 2) x@27)))))))",
    ),
];

fn has_tree(
    rt: &impl Abort,
    alloc: Global,
    text: &[u8],
    tree: &[u8],
    numbered: bool,
) -> Result<(), ParseError> {
    assert!(rt; text.len() < 2000);
    let program = parse(alloc, text)?;
    let mut printed = Printed::new(alloc, numbered);
    printed.program(&program)?;
    assert_eq!(rt; printed.text.as_slice(), tree, "at {text:?}");
    Ok(())
}

#[test]
fn values_have_these_trees(rt: HostRuntime) -> Result<(), ParseError> {
    let alloc = rt.alloc();
    for (text, tree) in EXPRESSIONS {
        let whole = within(alloc, b"class C { int f() { return ", text, b"; } }")?;
        let want = within(
            alloc,
            b" (class C (method int f (params) (block (return ",
            tree,
            b"))))",
        )?;
        has_tree(&rt, alloc, &whole, &want, false)?;
    }
    Ok(())
}

#[test]
fn statements_have_these_trees(rt: HostRuntime) -> Result<(), ParseError> {
    let alloc = rt.alloc();
    for (text, tree) in STATEMENTS {
        let whole = within(alloc, b"class C { void f() { ", text, b" } }")?;
        let want = within(
            alloc,
            b" (class C (method void f (params) (block ",
            tree,
            b")))",
        )?;
        has_tree(&rt, alloc, &whole, &want, false)?;
    }
    Ok(())
}

#[test]
fn declarations_have_these_trees(rt: HostRuntime) -> Result<(), ParseError> {
    for (text, tree) in DECLARATIONS {
        has_tree(&rt, rt.alloc(), text, tree, false)?;
    }
    Ok(())
}

#[test]
fn nodes_have_these_numbers(rt: HostRuntime) -> Result<(), ParseError> {
    for (text, tree) in NUMBERED {
        has_tree(&rt, rt.alloc(), text, tree, true)?;
    }
    Ok(())
}
