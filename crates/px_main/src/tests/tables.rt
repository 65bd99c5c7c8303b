//! Tables: what calls of `Db` answer and leave, and what is wrong with them.
use super::{CHECK, Case, RUN, all};
use std::test::Fail;

const BANK: &str = "CREATE TABLE account (id LONG, owner TEXT, balance LONG);
class Main {
  long count;
  public long transfer(long from, long to, long amount) {
    ResultSet a = Db.query(\"SELECT balance FROM account WHERE id = ?\", from);
    if (!a.next()) {
      return -1;
    }
    long have = a.getLong(1);
    if (have < amount) {
      System.out.println(\"short by \" + (amount - have));
      return 0;
    }
    ResultSet b = Db.query(\"SELECT balance FROM account WHERE id = ?\", to);
    if (!b.next()) {
      return -1;
    }
    Db.update(\"UPDATE account SET balance = ? WHERE id = ?\", have - amount, from);
    Db.update(\"UPDATE account SET balance = ? WHERE id = ?\", b.getLong(1) + amount, to);
    count = count + 1;
    return amount;
  }
}
";

// One table of two longs, and every form on it.
const PAIRS: &str = "CREATE TABLE t (id LONG, v LONG);
class Main {
  public int set(long k, long v) { return Db.update(\"UPDATE t SET v = ? WHERE id = ?\", v, k); }
  public int add(long k, long v) { return Db.update(\"INSERT INTO t VALUES (?, ?)\", k, v); }
  public int drop(long k) { return Db.update(\"DELETE FROM t WHERE id = ?\", k); }
  public boolean has(long k) { ResultSet r = Db.query(\"SELECT v FROM t WHERE id = ?\", k); return r.next(); }
  public long get(long k) { ResultSet r = Db.query(\"SELECT v FROM t WHERE id = ?\", k); r.next(); return r.getLong(1); }
  public String with(long v) { ResultSet r = Db.query(\"SELECT id FROM t WHERE v = ? ORDER BY id\", v); return keys(r, 1); }
  public String all() { return keys(Db.query(\"select v, id from t order by id\"), 2); }
  private String keys(ResultSet r, int i) { String s = \"\"; while (r.next()) { s += r.getLong(i) + \" \"; } return s; }
}
";

// Texts, and what is asked too often or too long.
const TEXTS: &str = "CREATE TABLE t (id LONG, a TEXT, b TEXT);
class Main {
  public int add(long k, String a, String b) { return Db.update(\"INSERT INTO t VALUES (?, ?, ?)\", k, a, b); }
  public int twice(int n, String b) {
    String s = \"\";
    for (int i = 0; i < n; i++) { s += \"x\"; }
    return Db.update(\"UPDATE t SET a = ?, b = ? WHERE id = ?\", s, s + b, 1);
  }
  public int often(int n) { for (int i = 0; i < n; i++) { Db.update(\"DELETE FROM t WHERE id = ?\", i + 10); } return n; }
  public int nulls(int n) { for (int i = 0; i < n; i++) { Db.update(\"DELETE FROM t WHERE id = ?\", 10); } String s = null; return Db.update(\"INSERT INTO t VALUES (?, ?, ?)\", 1, s, \"\"); }
  public String text(int i, int rows) {
    ResultSet r = Db.query(\"SELECT a, id FROM t ORDER BY id\");
    for (int k = 0; k < rows; k++) { r.next(); }
    return r.getString(i);
  }
  public long number(int i) { ResultSet r = Db.query(\"SELECT a, id FROM t ORDER BY id\"); r.next(); return r.getLong(i); }
  public boolean none() { ResultSet r = null; return r.next(); }
}
";

const RUNS: [Case; 7] = [
    (
        "payments",
        BANK,
        "row account 1 \"ann\" 100\nrow account 2 \"bob\" 50\ncall 1 transfer 1 2 30\ncall 1 transfer 1 2 200\n",
        0,
        "calls\ncall 1 1 30\ncall 1 2 0\nprint 1 \"short by 130\"\ntables\ntable account\nrow 1 \"ann\" 70\nrow 2 \"bob\" 80\nheaps\nheap 1\n0 Main 1\n1 Rows 1 100\n2 Rows 1 50\n3 Rows 1 70\ndone\n",
    ),
    (
        "a payment to oneself",
        BANK,
        "row account 1 \"ann\" 100\ncall 1 transfer 1 1 10\n",
        0,
        "calls\ncall 1 1 10\ntables\ntable account\nrow 1 \"ann\" 110\nheaps\nheap 1\n0 Main 1\n1 Rows 1 100\n2 Rows 1 100\ndone\n",
    ),
    (
        "a throw undoes the tables",
        "CREATE TABLE t (id LONG, v LONG);\nclass Main { public int f(int z) { Db.update(\"UPDATE t SET v = ? WHERE id = ?\", 9, 1); return 1 / z; } public long g() { ResultSet r = Db.query(\"SELECT v FROM t WHERE id = ?\", 1); r.next(); return r.getLong(1); } }\n",
        "row t 1 5\ncall 1 f 0\ncall 1 g\n",
        0,
        "calls\ncall 1 1 threw ArithmeticException\ncall 1 2 5\ntables\ntable t\nrow 1 5\nheaps\nheap 1\n0 Main\n1 Rows 1 5\ndone\n",
    ),
    (
        "each form on an empty table",
        PAIRS,
        "call 1 set 1 1\ncall 1 drop 1\ncall 1 has 1\ncall 1 get 1\ncall 1 with 1\ncall 1 all\ncall 1 add 1 2\n",
        0,
        "calls\ncall 1 1 0\ncall 1 2 0\ncall 1 3 false\ncall 1 4 threw SQLException\ncall 1 5 \"\"\ncall 1 6 \"\"\ncall 1 7 1\ntables\ntable t\nrow 1 2\nheaps\nheap 1\n0 Main\n1 Rows 1\n2 Rows 1\n3 Rows 1\ndone\n",
    ),
    (
        "keys are numbers, in their order, at the ends of their range",
        PAIRS,
        "row t 10 1\nrow t 9223372036854775807 2\nrow t 9 2\nrow t -9223372036854775808 1\nrow t -1 3\ncall 1 all\ncall 1 with 2\ncall 1 add 009 7\ncall 1 drop -9223372036854775808\ncall 1 get 9223372036854775807\ncall 1 set 9 5\ncall 1 set 8 5\n",
        0,
        "calls\ncall 1 1 \"-9223372036854775808 -1 9 10 9223372036854775807 \"\ncall 1 2 \"9 9223372036854775807 \"\ncall 1 3 threw SQLException\ncall 1 4 1\ncall 1 5 2\ncall 1 6 1\ncall 1 7 0\ntables\ntable t\nrow -1 3\nrow 9 5\nrow 10 1\nrow 9223372036854775807 2\nheaps\nheap 1\n0 Main\n1 Rows 6 1 -9223372036854775808 3 -1 2 9 1 10 2 9223372036854775807\n2 Rows 3 9 9223372036854775807\n3 Rows 1 2\ndone\n",
    ),
    (
        "sessions have heaps of their own, and the tables in common",
        PAIRS,
        "call 2 add 1 5\nsessions 3\ncall 1 get 1\ncall 2 set 1 6\ncall 1 get 1\n",
        0,
        "calls\ncall 2 1 1\ncall 1 1 5\ncall 2 2 1\ncall 1 2 6\ntables\ntable t\nrow 1 6\nheaps\nheap 1\n0 Main\n1 Rows 1 5\n2 Rows 1 6\nheap 2\n0 Main\nheap 3\n0 Main\ndone\n",
    ),
    (
        "nulls, long texts, too many operations, and columns that aren't there",
        TEXTS,
        "row t 1 \"a\" \"\"\ncall 1 add 2 \"\" null\ncall 1 twice 255 \"\"\ncall 1 twice 250 \"\"\ncall 1 twice 251 \"\"\ncall 1 twice 249 \"abcdefg\"\ncall 1 twice 1 \"a\"\ncall 1 often 100\ncall 1 often 101\ncall 1 nulls 100\ncall 1 text 1 0\ncall 1 text 1 1\ncall 1 text 1 2\ncall 1 text 0 1\ncall 1 text 3 1\ncall 1 text 2 1\ncall 1 number 2\ncall 1 number 1\ncall 1 none\n",
        0,
        "calls\ncall 1 1 threw SQLException\ncall 1 2 threw TextTooLong\ncall 1 3 1\ncall 1 4 threw TextTooLong\ncall 1 5 threw TextTooLong\ncall 1 6 1\ncall 1 7 100\ncall 1 8 threw OpsOut\ncall 1 9 threw SQLException\ncall 1 10 threw SQLException\ncall 1 11 \"x\"\ncall 1 12 threw SQLException\ncall 1 13 threw SQLException\ncall 1 14 threw SQLException\ncall 1 15 threw SQLException\ncall 1 16 1\ncall 1 17 threw SQLException\ncall 1 18 threw NullPointerException\ntables\ntable t\nrow 1 \"x\" \"xa\"\nheaps\nheap 1\n0 Main\n1 Rows 1 \"x\" 1\n2 Rows 1 \"x\" 1\ndone\n",
    ),
];

const FAULTS: [Case; 14] = [
    (
        "a form that is none",
        "CREATE TABLE t (id LONG, v LONG);\nclass Main {\npublic int put(long k, long x) {\nreturn Db.update(\"DELETE FROM t\");\n}\n}\n",
        "",
        5,
        "program 4 T12\n",
    ),
    (
        "a query that is none",
        "CREATE TABLE t (id LONG);\nclass Main {\nvoid f() {\nDb.query(\"DELETE FROM t WHERE id = ?\", 1); } }",
        "",
        5,
        "program 4 T12\n",
    ),
    (
        "a text that isn't written",
        "CREATE TABLE t (id LONG);\nclass Main {\nvoid f(String s) {\nDb.update(\n(\"DELETE FROM t WHERE id = ?\"), 1); } }",
        "",
        5,
        "program 4 T12\n",
    ),
    (
        "a text on its own line",
        "CREATE TABLE t (id LONG);\nclass Main {\nvoid f(String s) {\nDb.update(\n\"DELETE FROM t WHERE id =\", 1); } }",
        "",
        5,
        "program 5 T12\n",
    ),
    (
        "a parameter too few",
        "CREATE TABLE t (id LONG);\nclass Main {\nvoid f() {\nDb.update(\n\"DELETE FROM t WHERE id = ?\"); } }",
        "",
        5,
        "program 4 T13\n",
    ),
    (
        "a text for a number",
        "CREATE TABLE t (id LONG);\nclass Main {\nvoid f() {\nDb.update(\n\"DELETE FROM t WHERE id = ?\",\n\"1\"); } }",
        "",
        5,
        "program 4 T13\n",
    ),
    (
        "a null for a number",
        "CREATE TABLE t (id LONG);\nclass Main {\nvoid f() {\nDb.update(\"DELETE FROM t WHERE id = ?\", null); } }",
        "",
        5,
        "program 4 T13\n",
    ),
    (
        "a null for a text",
        "CREATE TABLE t (id LONG, a TEXT);\nclass Main {\nvoid f() {\nDb.update(\"UPDATE t SET a = ? WHERE id = ?\", null, 1); } }",
        "",
        0,
        "ok\n",
    ),
    (
        "what is in a parameter comes first",
        "CREATE TABLE t (id LONG);\nclass Main {\nvoid f() {\nDb.query(x, 1); Db.query(\"\"); } }",
        "",
        5,
        "program 4 T12\n",
    ),
    (
        "a Db that isn't called",
        "class Main {\nvoid f() {\nDb.foo(); } }",
        "",
        5,
        "program 3 T3\n",
    ),
    (
        "a key that is a text",
        "\nCREATE TABLE t (id TEXT);\nclass Main { int f() { } }",
        "",
        5,
        "program 2 T16\n",
    ),
    (
        "the second of two tables with one name",
        "CREATE TABLE t (id LONG);\nCREATE TABLE\nt (id LONG);\nclass Main { }",
        "",
        5,
        "program 3 T16\n",
    ),
    (
        "two result sets",
        "class Main {\nboolean f(ResultSet r, ResultSet s) { return r == s || r != null; } ResultSet g() { return null; } }",
        "",
        0,
        "ok\n",
    ),
    (
        "an entry with a result set",
        "class Main {\npublic void f(ResultSet r) { } }",
        "",
        5,
        "program 2 T14\n",
    ),
];

const JOBS: [Case; 9] = [
    ("too few values", PAIRS, "row t 1", 6, "job 1 J7\n"),
    (
        "a key again",
        PAIRS,
        "row t 1 0\nrow t 001 2\n",
        6,
        "job 2 J9\n",
    ),
    ("no value", PAIRS, "call 1 set 1 x", 6, "job 1 J1\n"),
    (
        "a text for a long",
        PAIRS,
        "call 1 set 1 \"x\"",
        6,
        "job 1 J12\n",
    ),
    (
        "no second session",
        PAIRS,
        "call 2 set 1 1",
        6,
        "job 1 J5\n",
    ),
    ("no such table", PAIRS, "\nrow u 1 2\n", 6, "job 2 J6\n"),
    ("a null in a row", PAIRS, "row t 1 null\n", 6, "job 1 J8\n"),
    (
        "a setting again",
        PAIRS,
        "sessions 17\nsessions 2\n",
        6,
        "job 1 J4\n",
    ),
    (
        "a fault before a side line's",
        PAIRS,
        "frob\ndb all\n",
        6,
        "job 1 J1\n",
    ),
];

#[test]
fn tables_are_asked(rt: HostRuntime) -> Result<(), Fail> {
    all(&rt, rt.alloc(), &RUN, &RUNS)
}

#[test]
fn calls_of_db_are_judged(rt: HostRuntime) -> Result<(), Fail> {
    all(&rt, rt.alloc(), &CHECK, &FAULTS)
}

#[test]
fn rows_are_judged(rt: HostRuntime) -> Result<(), Fail> {
    all(&rt, rt.alloc(), &RUN, &JOBS)
}
