//! What `solo` answers over whole files. What its messages weigh was found by `bench/solo.py`.
use super::{Case, JOB, PROGRAM, SOLO, all};
use std::test::Fail;

const DONE: [Case; 5] = [
    (
        "no member and no call",
        "class Main {\n}",
        "",
        0,
        "history\ntables\nheaps\nheap 1\n0 Main\ndone\n",
    ),
    (
        "all at APP, where the job has no part",
        PROGRAM,
        JOB,
        0,
        "history
begin 1 1 1
end 1 11 part app avg 0 moves 0 bytes 9 rehome 0
begin 1 2 1
end 1 -9223372036854775797 part app avg 0 moves 0 bytes 9 rehome 0
tables
heaps
heap 1
0 Main -9223372036854775796
done
",
    ),
    (
        "APP reads what DB wrote between two statements of its own",
        "class Main {
long a;
long b;
public long f() {
this.a = 1;
this.b = 2;
return this.b;
}
}
",
        "part p upto 1000\ndb line 6\ncall 1 f\n",
        0,
        "history
begin 1 1 1
end 1 2 part p avg 0 moves 2 bytes 93 rehome 0
tables
heaps
heap 1
0 Main 1 2
done
",
    ),
    (
        "four writes, each at the other side than the one before",
        "class Main {
long a;
long b;
long c;
long d;
public void f() {
this.a = 1;
this.b = 2;
this.c = 3;
this.d = 4;
}
}
",
        "part p upto 1000
db line 8
db line 10
db field Main.b
db field Main.d
call 1 f
",
        0,
        "history
begin 1 1 1
end 1 void part p avg 0 moves 4 bytes 122 rehome 0
tables
heaps
heap 1
0 Main 1 2 3 4
done
",
    ),
    (
        "all at DB",
        "class Main {
long n;
public long f() {
n = n + 1;
return n;
}
}
",
        "part low upto 1000\ndb all\ncall 1 f\n",
        0,
        "history
begin 1 1 1
end 1 1 part low avg 0 moves 2 bytes 89 rehome 0
tables
heaps
heap 1
0 Main 1
done
",
    ),
];

const LATER: &str =
    "class Main {\nlong n;\npublic void f(long x) {\nn = x;\nif (x > 0) {\nn = 0;\n}\n}\n}\n";

const REFUSED: [Case; 13] = [
    (
        "a program before its job",
        "class Main {",
        "nothing",
        5,
        "program 1 Syntax\n",
    ),
    (
        "a load past the full one",
        PROGRAM,
        "part p upto 1001",
        6,
        "job 1 J4\n",
    ),
    (
        "a side before the part",
        PROGRAM,
        "db line 5",
        6,
        "job 1 J13\n",
    ),
    (
        "an unknown field",
        PROGRAM,
        "part p upto 1000\ndb field Main.z",
        6,
        "job 2 J14\n",
    ),
    (
        "a last part that doesn't serve up to the full load",
        PROGRAM,
        "part p upto 999",
        6,
        "job 1 J17\n",
    ),
    (
        "a part with a budget",
        PROGRAM,
        "part p upto 1000 budget 5",
        6,
        "job 1 Later\n",
    ),
    (
        "a second part",
        PROGRAM,
        "part p upto 900\npart q upto 1000",
        6,
        "job 2 Later\n",
    ),
    (
        "a statement that two ends don't take, before the job",
        LATER,
        "nothing",
        5,
        "program 5 Later\n",
    ),
    (
        "a second session",
        PROGRAM,
        "sessions 2\ncall 1 add 4",
        6,
        "job 1 Later\n",
    ),
    (
        "an order",
        PROGRAM,
        "call 1 add 4\norder 1",
        6,
        "job 2 Later\n",
    ),
    (
        "another fault before a line that two ends don't take",
        PROGRAM,
        "load 1 5\ncall 1 sub 4",
        6,
        "job 2 J10\n",
    ),
    (
        "a row of an unknown table",
        PROGRAM,
        "row t 1",
        6,
        "job 1 J6\n",
    ),
    (
        "an unknown entry",
        PROGRAM,
        "call 1 sub 4",
        6,
        "job 1 J10\n",
    ),
];

#[test]
fn calls_are_reported(rt: HostRuntime) -> Result<(), Fail> {
    all(&rt, rt.alloc(), &SOLO, &DONE)
}

#[test]
fn files_are_refused(rt: HostRuntime) -> Result<(), Fail> {
    all(&rt, rt.alloc(), &SOLO, &REFUSED)
}
