//! What `run` answers over whole files.
use super::{Case, JOB, PROGRAM, RUN, TEXT, all, run, sink};
use std::test::Fail;

const DONE: [Case; 6] = [
    ("sums wrap round", PROGRAM, JOB, 0, TEXT),
    (
        "no member and no call",
        "class Main {\n}",
        "",
        0,
        "calls\ntables\nheaps\nheap 1\n0 Main\ndone\n",
    ),
    (
        "fields in the order of the file, at zero",
        "class Main { long b; public void f() { } private long a; }",
        "# no call\n\n",
        0,
        "calls\ntables\nheaps\nheap 1\n0 Main 0 0\ndone\n",
    ),
    (
        "a void method replies void, and what it wrote stays",
        "class Main { long a; long b; public void set(long x, long y) { this.a = x; b = a - y; } public long sum() { return a + b; } }",
        "call 1 set 5 7\ncall 1 sum\n",
        0,
        "calls\ncall 1 1 void\ncall 1 2 3\ntables\nheaps\nheap 1\n0 Main 5 -2\ndone\n",
    ),
    (
        "products before sums, and from the left",
        "class Main { public long f(long a) { return a - 2 - 3 * a + -(a - 1); } }",
        "call 1 f 10",
        0,
        "calls\ncall 1 1 -31\ntables\nheaps\nheap 1\n0 Main\ndone\n",
    ),
    (
        "ints wrap round at 32 bits, longs at 64",
        "class Main { public long a() { return 2147483647 + 1; } public long b() { return 2147483647 + 1L; } }",
        "call 1 a\ncall 1 b\n",
        0,
        "calls\ncall 1 1 -2147483648\ncall 1 2 2147483648\ntables\nheaps\nheap 1\n0 Main\ndone\n",
    ),
];

const PROGRAM_REFUSED: [Case; 6] = [
    (
        "a key that is a text",
        "\nCREATE TABLE t (id TEXT);\nclass Main { }\n",
        "",
        5,
        "program 2 T16\n",
    ),
    (
        "a name that isn't declared",
        "class Main { void f() { x = 1; } }",
        "",
        5,
        "program 1 T3\n",
    ),
    (
        "a class that isn't closed",
        "class Main {",
        "",
        5,
        "program 1 Syntax\n",
    ),
    ("an empty file", "", "", 5, "program 1 Syntax\n"),
    (
        "a result set, in no program",
        "class Main {\n  ResultSet\n",
        "",
        5,
        "program 3 Syntax\n",
    ),
    (
        "a program before its job",
        "class Main {",
        "nothing",
        5,
        "program 1 Syntax\n",
    ),
];

const JOB_REFUSED: [Case; 11] = [
    ("a row of no table", PROGRAM, "row t 1", 6, "job 1 J6\n"),
    (
        "a part for less than the full load",
        PROGRAM,
        "part p upto 999",
        6,
        "job 1 J17\n",
    ),
    (
        "an unknown entry",
        PROGRAM,
        "call 1 sub 4",
        6,
        "job 1 J10\n",
    ),
    (
        "an argument too few",
        PROGRAM,
        "call 1 add",
        6,
        "job 1 J11\n",
    ),
    (
        "an argument too many",
        PROGRAM,
        "call 1 add 4 4",
        6,
        "job 1 J11\n",
    ),
    (
        "an unknown session",
        PROGRAM,
        "call 2 add 4",
        6,
        "job 1 J5\n",
    ),
    (
        "a number past its range",
        PROGRAM,
        "call 1 add 9223372036854775808",
        6,
        "job 1 J12\n",
    ),
    (
        "a text for a number",
        PROGRAM,
        "call 1 add \"x\"",
        6,
        "job 1 J12\n",
    ),
    ("no value", PROGRAM, "call 1 add x", 6, "job 1 J1\n"),
    (
        "the first line that is wrong",
        PROGRAM,
        "call 1 add 4\n# a comment\ncall 1 add\ncall 2 add 4\n",
        6,
        "job 3 J11\n",
    ),
    (
        "a method that is no entry",
        "class Main { private void f() { } }",
        "call 1 f",
        6,
        "job 1 J10\n",
    ),
];

#[test]
fn jobs_are_run(rt: HostRuntime) -> Result<(), Fail> {
    all(&rt, rt.alloc(), &RUN, &DONE)
}

#[test]
fn programs_are_refused(rt: HostRuntime) -> Result<(), Fail> {
    all(&rt, rt.alloc(), &RUN, &PROGRAM_REFUSED)
}

#[test]
fn jobs_are_refused(rt: HostRuntime) -> Result<(), Fail> {
    all(&rt, rt.alloc(), &RUN, &JOB_REFUSED)
}

#[test]
fn a_program_has_at_most_a_mebibyte(rt: HostRuntime) -> Result<(), Fail> {
    let alloc = rt.alloc();
    for (length, text) in [
        (1_048_576, "program 1 Syntax\n"),
        (1_048_577, "program 0 TooLong\n"),
    ] {
        let program = vec![in alloc; b' '; length]?;
        let mut sink = sink(alloc);
        let status = run(alloc, program.as_slice(), b"", &mut sink)?;
        assert_eq!(rt; status, 5);
        assert_eq!(rt; sink.taken(), text.as_bytes());
    }
    Ok(())
}

#[test]
fn a_job_has_at_most_sixteen_mebibytes(rt: HostRuntime) -> Result<(), Fail> {
    let alloc = rt.alloc();
    let job = vec![in alloc; b'\n'; 16_777_217]?;
    let mut sink = sink(alloc);
    let status = run(alloc, PROGRAM.as_bytes(), job.as_slice(), &mut sink)?;
    assert_eq!(rt; status, 6);
    assert_eq!(rt; sink.taken(), b"job 0 J2\n".as_slice());
    Ok(())
}

const LONG_ARRAYS: &str =
    "class Main { public int f(int n) { long[] a = new long[n]; return a.length; } }";

const LONG_CALLS: &str = "sessions 3\ncall 1 f 50000\ncall 2 f 50001\ncall 3 f -1\n";

const LONG_REPLIES: &str = "calls
call 1 1 50000
call 2 1 threw HeapFull
call 3 1 threw NegativeArraySizeException
tables
heaps
heap 1
0 Main
1 ";

#[test]
fn an_array_has_at_most_fifty_thousand_cells(rt: HostRuntime) -> Result<(), Fail> {
    let alloc = rt.alloc();
    let mut sink = sink(alloc);
    let status = run(
        alloc,
        LONG_ARRAYS.as_bytes(),
        LONG_CALLS.as_bytes(),
        &mut sink,
    )?;
    assert_eq!(rt; status, 0);
    // The heap behind it has a line of these cells.
    assert!(rt; sink.taken().starts_with(LONG_REPLIES.as_bytes()));
    Ok(())
}
