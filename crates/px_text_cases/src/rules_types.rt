//! Which breach is found where others stand beside it: void calls, and operands of unknown type.
use crate::rules::{Case, all};
use std::test::Fail;

// The statements begin on line 2.
const BEGIN: &str =
    "class Other { private void hidden(int n) { } } class Main { void v() { } int g(int n) { return n; } Main m() { return this; }
void f(Main o, Other x, ResultSet r, int[] a, int n, long l, boolean b, String s) { ";

const END: &str = " } }";

// A void call is no value.
const VOID: [Case; 36] = [
    ("v();", None),
    ("n =\n1 +\nv();", Some((3, 6))),
    ("n =\nv() + 1;", Some((3, 6))),
    ("n =\n-v();", Some((3, 6))),
    ("b =\n!v();", Some((3, 6))),
    ("n =\n(int) v();", Some((3, 6))),
    ("b =\nv() == null;", Some((3, 6))),
    ("b =\nb && v();", Some((3, 6))),
    ("n =\nn << v();", Some((3, 6))),
    ("s =\n\"x\" + v();", Some((3, 6))),
    ("n =\nv() +\nnope;", Some((3, 6))),
    ("n =\nnope + v();", Some((3, 3))),
    ("n =\na[v()];", Some((3, 6))),
    ("n =\n(\nnope)[v()];", Some((3, 6))),
    ("if (\nv()) ;", Some((2, 6))),
    ("while (\nv()) ;", Some((2, 6))),
    ("for (n = 1;\nv(); n++) ;", Some((2, 6))),
    ("v().\nm();", Some((3, 4))),
    ("n = v().\nx;", Some((3, 4))),
    ("a =\nnew int[v()];", Some((3, 6))),
    ("int i =\nv();", Some((2, 6))),
    ("Bx y =\nv();", Some((2, 2))),
    ("n =\nv();", Some((2, 6))),
    ("nope =\nv();", Some((2, 3))),
    ("o.\nnope = v();", Some((2, 6))),
    ("a[0] =\nv();", Some((2, 6))),
    ("n +=\nv();", Some((2, 6))),
    ("s +=\nv();", Some((2, 6))),
    ("return\nv();", Some((2, 10))),
    ("} int h() {\nreturn\nv();", Some((3, 6))),
    ("System.out.println(\nv());", Some((2, 6))),
    ("for (\nSystem.out.println(v()); b; n++) ;", Some((3, 3))),
    ("n =\n(v());", Some((2, 6))),
    ("n =\n(v()) + 1;", Some((3, 6))),
    ("b = (\nv() < 1);", Some((3, 6))),
    ("x = new Other[v()];", Some((2, 6))),
];

// As an argument it breaks rule 6 where the type that is wanted is known, and only there.
const ARGUMENTS: [Case; 30] = [
    ("g(\nv());", Some((2, 6))),
    ("n = o\n.g(\nv());", Some((2, 6))),
    ("g(\ng(v()));", Some((3, 6))),
    ("g((\nv()));", Some((2, 6))),
    ("o.\nnope(v());", Some((3, 4))),
    ("o.\nnope(1, v(), v());", Some((3, 4))),
    ("nope(v());", Some((2, 4))),
    ("o.\nnope(\ng(v()));", Some((3, 4))),
    ("g(o.\nnope(v()));", Some((3, 4))),
    ("nope.f(v());", Some((2, 3))),
    ("n.\nf(v());", Some((3, 4))),
    ("a.\nlength(v());", Some((3, 4))),
    ("v().\nm(v());", Some((3, 4))),
    ("o.\ng(v(), 1);", Some((3, 5))),
    ("o.\ng(1, v());", Some((3, 5))),
    ("o.\nm(v());", Some((3, 5))),
    ("g(v(), v());", Some((2, 5))),
    ("x.\nhidden(v());", Some((2, 6))),
    ("x.\nhidden(1, v());", Some((3, 5))),
    ("u(v()); } void u(\nBx y) {", Some((3, 2))),
    ("u(v()); } void u(\nBx[] y) {", Some((3, 2))),
    ("u(1, v()); } void u(int k,\nBx y) {", Some((3, 2))),
    ("s.\nequals(v());", Some((2, 6))),
    ("s.\nequals(v(), s);", Some((3, 5))),
    ("s.\nlength(v());", Some((3, 5))),
    ("s.\nnope(v());", Some((3, 4))),
    ("r.\nnext(v());", Some((3, 5))),
    ("r.\ngetLong(v());", Some((2, 6))),
    ("r.\ngetString(v());", Some((2, 6))),
    ("r.\ngetLong(v(), 1);", Some((3, 5))),
];

// What the type is of an expression in which one is unknown: where it is known and doesn't fit, the statement breaks rule 6.
const UNKNOWN: [Case; 30] = [
    ("b =\n1 + nope;", Some((3, 3))),
    ("b =\nnope + 1;", Some((3, 3))),
    ("b =\nnull + nope;", Some((3, 3))),
    ("b =\nl - nope;", Some((3, 3))),
    ("b =\nnope * l;", Some((3, 3))),
    ("b =\nn / nope;", Some((3, 3))),
    ("b =\nnope % n;", Some((3, 3))),
    ("n =\nb & nope;", Some((3, 3))),
    ("n =\nnope | b;", Some((3, 3))),
    ("n =\nb ^ nope;", Some((3, 3))),
    ("b =\n-nope;", Some((3, 3))),
    ("b =\n~nope;", Some((3, 3))),
    ("b =\nnope << n;", Some((3, 3))),
    ("b =\nn << nope;", Some((2, 6))),
    ("n =\ns + nope;", Some((2, 6))),
    ("n =\nnope + s;", Some((2, 6))),
    ("n =\nnope < 1;", Some((2, 6))),
    ("n =\nnope == null;", Some((2, 6))),
    ("n =\nnope && b;", Some((2, 6))),
    ("n =\n!nope;", Some((2, 6))),
    ("b =\n(int) nope;", Some((2, 6))),
    ("b =\ng(nope);", Some((2, 6))),
    ("b =\ng(nope, nope);", Some((2, 6))),
    ("n =\ntrue -\nnope;", Some((3, 6))),
    ("n =\nthis.\nnope - true;", Some((3, 6))),
    ("n =\nthis.\nnope - 1;", Some((4, 4))),
    ("b =\nthis.\nnope && 1;", Some((3, 6))),
    ("b =\nthis.\nnope == 1;", Some((4, 4))),
    ("a[b] =\nnope;", Some((2, 6))),
    ("nope[b] =\n1;", Some((2, 3))),
];

#[test]
fn a_void_call_is_no_value(rt: HostRuntime) -> Result<(), Fail> {
    all(&rt, rt.alloc(), BEGIN, END, &VOID)
}

#[test]
fn a_void_argument_is_judged_where_a_type_is_wanted(rt: HostRuntime) -> Result<(), Fail> {
    all(&rt, rt.alloc(), BEGIN, END, &ARGUMENTS)
}

#[test]
fn arithmetic_beside_an_unknown_type_is_unknown(rt: HostRuntime) -> Result<(), Fail> {
    all(&rt, rt.alloc(), BEGIN, END, &UNKNOWN)
}
