//! What `check` answers, and the faults of programs that are served.
use super::{CHECK, Case, all, over, sink};
use std::test::Fail;

const CHECKED: [Case; 15] = [
    (
        "nothing is needed but Main",
        "class Main {\n}\n",
        "",
        0,
        "ok\n",
    ),
    (
        "only a name is assigned with an operator",
        "class Box { int[] all; }\npublic class Main {\n  Box box;\n  public int f(int n, String s) throws SQLException {\n    for (int i = 0; i < n; i++) { if (s.equals(\"x\") || !(i >>> 1 == 2)) ; else box.all[i] += 1; }\n    System.out.println(\"n\" + n);\n    box = new Box();\n    box.all = new int[n];\n    while (box != null && n > 0) n--;\n    return (int) 5L + box.all.length + s.length();\n  }\n}\n",
        "",
        5,
        "program 5 Syntax\n",
    ),
    (
        "loops, arrays, texts, calls and casts",
        "class Box { int[] all; }\npublic class Main {\n  Box box;\n  public int f(int n, String s) throws SQLException {\n    for (int i = 0; i < n; i++) { if (s.equals(\"x\") || !(i >>> 1 == 2)) ; else box.all[i] = 1; }\n    System.out.println(\"n\" + n);\n    box = new Box();\n    box.all = new int[n];\n    while (box != null && n > 0) n--;\n    return (int) 5L + box.all.length + s.length();\n  }\n}\n",
        "",
        0,
        "ok\n",
    ),
    (
        "a brace too many",
        "class Main {\n}\n}\n",
        "",
        5,
        "program 3 Syntax\n",
    ),
    (
        "a text that isn't closed",
        "class Main { String s() { return \"ab",
        "",
        5,
        "program 1 Syntax\n",
    ),
    (
        "the end is a token",
        "class Main {\n\n",
        "",
        5,
        "program 3 Syntax\n",
    ),
    (
        "the place comes before the rules",
        "class Main { void f() { x = 1; }\n  void f( }",
        "",
        5,
        "program 2 Syntax\n",
    ),
    (
        "a table",
        "CREATE TABLE t (id LONG);\nclass Main { }\n",
        "",
        0,
        "ok\n",
    ),
    (
        "a use of tables, in no program",
        "class Main {\n  ResultSet\n",
        "",
        5,
        "program 3 Syntax\n",
    ),
    (
        "CREATE is a name elsewhere",
        "class Main { long CREATE; }",
        "",
        0,
        "ok\n",
    ),
    (
        "texts are compared",
        "class Main {\npublic boolean f(String a, String b) {\nreturn a == b;\n}\n}\n",
        "",
        5,
        "program 3 T7\n",
    ),
    ("no class Main", "class A { }\n", "", 5, "program 2 T14\n"),
    (
        "a name that isn't declared",
        "class Main {\n  void f() {\n    x = 1;\n  }\n}\n",
        "",
        5,
        "program 3 T3\n",
    ),
    (
        "the first of two breaches",
        "class Main {\n  int f() { return 1; x = 2; }\n}\n",
        "",
        5,
        "program 2 T9\n",
    ),
    (
        "a private member of another class",
        "class A { private int x; }\nclass Main {\n  int f(A a) { return a.x; }\n}\n",
        "",
        5,
        "program 3 T15\n",
    ),
];

#[test]
fn programs_are_checked(rt: HostRuntime) -> Result<(), Fail> {
    all(&rt, rt.alloc(), &CHECK, &CHECKED)
}

#[test]
fn check_reads_its_program_alone(rt: HostRuntime) -> Result<(), Fail> {
    let alloc = rt.alloc();
    for (words, status, text) in [(["check", "p"], 0, "ok\n"), (["check", "q"], 2, "")] {
        let mut sink = sink(alloc);
        let found = over(alloc, &words, b"class Main { }", b"", &mut sink)?;
        assert_eq!(rt; found, status);
        assert_eq!(rt; sink.taken(), text.as_bytes());
    }
    Ok(())
}
