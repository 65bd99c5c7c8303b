//! What `split` answers over whole files.
use super::{Case, all};
use std::test::Fail;

const SPLIT: [&str; 3] = ["split", "p", "j"];

const COUNTS: &str = "class Main {
long a;
long b;
public long f() {
this.a = 1;
this.b = 2;
return this.b;
}
}
";

const ASKS: &str = "CREATE TABLE t (k LONG, n TEXT);
class Main {
int[] all;
public int f(long k) {
all = new int[3];
ResultSet r = Db.query(\"SELECT n FROM t WHERE k = ?\", k);
while (r.next()) {
all[0] = all[0] + 1;
System.out.println(r.getString(1) + \"\\n\");
}
if (all[0] == 0) {
return -1;
}
return g(all[0]);
}
private int g(int x) {
return x * 2;
}
}
";

const SHOWN: [Case; 2] = [
    (
        "what DB writes and APP keeps is sent",
        COUNTS,
        "part p upto 1000\ndb line 6\ncall 1 f\n",
        0,
        "part p
field Main.a APP
field Main.b APP
method 1 APP Main.f 2
2 APP put %0 Main.a 1L
3 DB put %0 Main.b 2L
sendAPP %0
4 APP get %1 %0 Main.b
5 APP return %1
end
",
    ),
    (
        "two parts; elements and an array's field are sent, a result set at DB isn't",
        ASKS,
        "part quiet upto 300\ndb all\napp method Main.g\napp line 11\npart busy upto 1000\ncall 1 f 7\n",
        0,
        "part quiet
field Main.all DB
site 1 DB
site 2 DB
method 1 DB Main.f 17
2 DB array %3 int 3 1
3 DB put %0 Main.all %3
sendDB %0
4 DB query %2 1 2 %1
loop
5 DB next %4 %2
6 DB test %4
7 DB get %5 %0 Main.all
8 DB get %6 %0 Main.all
9 DB load %7 %6 0
10 DB op add %8 %7 1
11 DB store %5 0 %8
sendNative %5
12 DB text %9 %2 1
13 DB op concat %10 %9 \"\\n\"
14 APP print %10
end
15 APP get %11 %0 Main.all
16 APP load %12 %11 0
17 APP op eq %13 %12 0
18 APP if %13
19 DB return -1
else
end
20 DB get %14 %0 Main.all
21 DB load %15 %14 0
22 DB call %16 %0 Main.g %15
23 DB return %16
end
method 24 APP Main.g 3
25 APP op mul %2 %1 2
26 APP return %2
end
part busy
field Main.all APP
site 1 APP
site 2 APP
method 1 APP Main.f 17
2 APP array %3 int 3 1
3 APP put %0 Main.all %3
4 APP query %2 1 2 %1
loop
5 APP next %4 %2
6 APP test %4
7 APP get %5 %0 Main.all
8 APP get %6 %0 Main.all
9 APP load %7 %6 0
10 APP op add %8 %7 1
11 APP store %5 0 %8
12 APP text %9 %2 1
13 APP op concat %10 %9 \"\\n\"
14 APP print %10
end
15 APP get %11 %0 Main.all
16 APP load %12 %11 0
17 APP op eq %13 %12 0
18 APP if %13
19 APP return -1
else
end
20 APP get %14 %0 Main.all
21 APP load %15 %14 0
22 APP call %16 %0 Main.g %15
23 APP return %16
end
method 24 APP Main.g 3
25 APP op mul %2 %1 2
26 APP return %2
end
",
    ),
];

#[test]
fn parts_are_shown(rt: HostRuntime) -> Result<(), Fail> {
    let alloc = rt.alloc();
    all(&rt, alloc, &SPLIT, &SHOWN)
}

const REFUSED: [Case; 3] = [
    (
        "a part with a budget",
        COUNTS,
        "part quiet upto 300\npart busy upto 1000 budget 50\n",
        6,
        "job 2 Later\n",
    ),
    (
        "a print at DB",
        ASKS,
        "part p upto 1000\ndb line 9\n",
        6,
        "job 2 J15\n",
    ),
    (
        "a program that is none",
        "class Main { long }",
        "",
        5,
        "program 1 Syntax\n",
    ),
];

#[test]
fn these_are_refused(rt: HostRuntime) -> Result<(), Fail> {
    let alloc = rt.alloc();
    all(&rt, alloc, &SPLIT, &REFUSED)
}
