//! What programs mean. The answers are those of Java 17 for the same program; limits and their throws are this project's own.
use super::{Case, RUN, all};
use std::test::Fail;

// What is run before what, and what a throw leaves.
const ORDER: [Case; 15] = [
    (
        "operands from the left, whatever binds them",
        "class Main { int p(int n) { System.out.println(n); return n; } public int f() { return p(1) + p(2) * p(3) - (p(4) - p(5)); } public boolean g() { return p(6) < p(7) == (p(8) > p(9)); } }",
        "call 1 f\ncall 1 g\n",
        0,
        "calls\ncall 1 1 8\nprint 1 \"1\"\nprint 1 \"2\"\nprint 1 \"3\"\nprint 1 \"4\"\nprint 1 \"5\"\ncall 1 2 false\nprint 1 \"6\"\nprint 1 \"7\"\nprint 1 \"8\"\nprint 1 \"9\"\ntables\nheaps\nheap 1\n0 Main\ndone\n",
    ),
    (
        "an array, its index, and the value that it is given",
        "class Main { int[] c; int p(int n) { System.out.println(n); return n; } int[] a() { System.out.println(\"array\"); return c; } public int f() { c = new int[3]; a()[p(1)] = p(7); return a()[p(1)]; } }",
        "call 1 f\n",
        0,
        "calls\ncall 1 1 7\nprint 1 \"array\"\nprint 1 \"1\"\nprint 1 \"7\"\nprint 1 \"array\"\nprint 1 \"1\"\ntables\nheaps\nheap 1\n0 Main #1\n1 int[] 0 7 0\ndone\n",
    ),
    (
        "an object before the value that its field is given",
        "class Main { int v; int p(int n) { System.out.println(n); return n; } Main m() { System.out.println(\"object\"); return this; } public int f() { m().v = p(7); return m().v; } }",
        "call 1 f\n",
        0,
        "calls\ncall 1 1 7\nprint 1 \"object\"\nprint 1 \"7\"\nprint 1 \"object\"\ntables\nheaps\nheap 1\n0 Main 7\ndone\n",
    ),
    (
        "a receiver before the arguments, these from the left, and then the method",
        "class Main { int p(int n) { System.out.println(n); return n; } Main m() { System.out.println(\"receiver\"); return this; } int g(int a, int b) { System.out.println(\"method\"); return a * 10 + b; } public int f() { return m().g(p(1), m().g(p(2), p(3))); } }",
        "call 1 f\n",
        0,
        "calls\ncall 1 1 33\nprint 1 \"receiver\"\nprint 1 \"1\"\nprint 1 \"receiver\"\nprint 1 \"2\"\nprint 1 \"3\"\nprint 1 \"method\"\nprint 1 \"method\"\ntables\nheaps\nheap 1\n0 Main\ndone\n",
    ),
    (
        "a left operand keeps its value",
        "class Main { long n; long up() { n = n + 1; return n; } public long f() { return n + up() * n + up() - n; } public long g() { n = n * 10 + up(); return n; } }",
        "call 1 f\ncall 1 g\n",
        0,
        "calls\ncall 1 1 1\ncall 1 2 23\ntables\nheaps\nheap 1\n0 Main 23\ndone\n",
    ),
    (
        "an index and an array are read before the value is made",
        "class Main { int i; int[] b; int[] c; int next() { i = i + 1; c = new int[2]; return i; } public int f() { b = new int[2]; c = b; c[i] = next() + 6; return c[0]; } }",
        "call 1 f\n",
        0,
        "calls\ncall 1 1 0\ntables\nheaps\nheap 1\n0 Main 1 #1 #2\n1 int[] 7 0\n2 int[] 0 0\ndone\n",
    ),
    (
        "an object is read before the value is made",
        "class B { int v; B n; } class Main { B a; B b; int next() { b = new B(); return 7; } public int f() { a = new B(); b = a; b.v = next(); b.n = a; return b.v; } }",
        "call 1 f\n",
        0,
        "calls\ncall 1 1 0\ntables\nheaps\nheap 1\n0 Main #1 #2\n1 B 7 null\n2 B 0 #1\ndone\n",
    ),
    (
        "the value is made before a null object is met",
        "class B { int v; } class Main { int d(int z) { return 1 / z; } public void f(int z) { B b = null; b.v = d(z); } public int g() { B b = null; return b.v; } }",
        "call 1 f 0\ncall 1 f 1\ncall 1 g\n",
        0,
        "calls\ncall 1 1 threw ArithmeticException\ncall 1 2 threw NullPointerException\ncall 1 3 threw NullPointerException\ntables\nheaps\nheap 1\n0 Main\ndone\n",
    ),
    (
        "the value is made before a null array is met",
        "class Main { int d(int z) { return 1 / z; } public void f(int i, int z) { int[] a = null; a[1 / i] = d(z); } public int g(int z) { int[] a = null; return a[d(z)]; } public void h(int i, int z) { int[] a = null; a[i] = z; } }",
        "call 1 f 0 1\ncall 1 f 1 0\ncall 1 f 1 1\ncall 1 g 0\ncall 1 g 1\ncall 1 h 9 1\ncall 1 h -1 1\n",
        0,
        "calls\ncall 1 1 threw ArithmeticException\ncall 1 2 threw ArithmeticException\ncall 1 3 threw NullPointerException\ncall 1 4 threw ArithmeticException\ncall 1 5 threw NullPointerException\ncall 1 6 threw NullPointerException\ncall 1 7 threw NullPointerException\ntables\nheaps\nheap 1\n0 Main\ndone\n",
    ),
    (
        "the value is made before the index is tested",
        "class Main { int d(int z) { return 1 / z; } public int f(int i, int z) { int[] a = new int[2]; a[i] = d(z); return 1 / a[0]; } public int g(int i) { int[] a = new int[2]; return 1 / a[i]; } }",
        "call 1 f 2 0\ncall 1 f 2 1\ncall 1 f -1 1\ncall 1 f 0 0\ncall 1 f 1 1\ncall 1 g 1\ncall 1 g 2\ncall 1 g -1\ncall 1 g -2147483648\n",
        0,
        "calls\ncall 1 1 threw ArithmeticException\ncall 1 2 threw ArrayIndexOutOfBoundsException\ncall 1 3 threw ArrayIndexOutOfBoundsException\ncall 1 4 threw ArithmeticException\ncall 1 5 threw ArithmeticException\ncall 1 6 threw ArithmeticException\ncall 1 7 threw ArrayIndexOutOfBoundsException\ncall 1 8 threw ArrayIndexOutOfBoundsException\ncall 1 9 threw ArrayIndexOutOfBoundsException\ntables\nheaps\nheap 1\n0 Main\ndone\n",
    ),
    (
        "the arguments are made before a null receiver is met",
        "class Main { int d(int z) { return 1 / z; } Main no() { return null; } void g(int n) { } public void f(int z) { no().g(d(z)); } public boolean h(int z) { String s = null; return s.equals(\"\" + d(z)); } }",
        "call 1 f 0\ncall 1 f 1\ncall 1 h 0\ncall 1 h 1\n",
        0,
        "calls\ncall 1 1 threw ArithmeticException\ncall 1 2 threw NullPointerException\ncall 1 3 threw ArithmeticException\ncall 1 4 threw NullPointerException\ntables\nheaps\nheap 1\n0 Main\ndone\n",
    ),
    (
        "the size is made before it is tested",
        "class Main { int d(int z) { return 1 / z; } public int f(int z) { return new int[d(z) - 2].length; } public int g(int n) { return new Main[n].length; } }",
        "call 1 f 0\ncall 1 f 1\ncall 1 g -2147483648\n",
        0,
        "calls\ncall 1 1 threw ArithmeticException\ncall 1 2 threw NegativeArraySizeException\ncall 1 3 threw NegativeArraySizeException\ntables\nheaps\nheap 1\n0 Main\ndone\n",
    ),
    (
        "operands that aren't needed aren't run",
        "class Main { boolean t(int n) { System.out.println(n); return true; } boolean u(int n) { System.out.println(n); return false; } public boolean f() { return u(1) && t(2) || t(3) && u(4) || u(5); } public boolean g() { return u(1) & t(2) | t(3) ^ u(4); } public boolean h() { return !(t(1) || u(2)) && t(3); } public boolean i(int z) { int[] a = null; return z != 0 && 1 / z == 1 || a == null || a.length > 0; } }",
        "call 1 f\ncall 1 g\ncall 1 h\ncall 1 i 0\ncall 1 i 1\n",
        0,
        "calls\ncall 1 1 false\nprint 1 \"1\"\nprint 1 \"3\"\nprint 1 \"4\"\nprint 1 \"5\"\ncall 1 2 true\nprint 1 \"1\"\nprint 1 \"2\"\nprint 1 \"3\"\nprint 1 \"4\"\ncall 1 3 false\nprint 1 \"1\"\ncall 1 4 true\ncall 1 5 true\ntables\nheaps\nheap 1\n0 Main\ndone\n",
    ),
    (
        "null has no length, no field, no method",
        "class Main { int v; int g() { return 1; } public int f(int k, String s) { int[] a = null; Main m = null; if (k == 0) return a.length; if (k == 1) return s.length(); if (k == 2) return m.v; if (k == 3) return m.g(); if (s.equals(\"x\")) return 7; return 8; } public boolean e(String s, String t) { return s.equals(t); } }",
        "call 1 f 0 null\ncall 1 f 1 null\ncall 1 f 2 null\ncall 1 f 3 null\ncall 1 f 4 null\ncall 1 f 4 \"x\"\ncall 1 f 4 \"X\"\ncall 1 f 1 \"abc\"\ncall 1 e \"a\" null\ncall 1 e null \"a\"\ncall 1 e null null\ncall 1 e \"\" \"\"\n",
        0,
        "calls\ncall 1 1 threw NullPointerException\ncall 1 2 threw NullPointerException\ncall 1 3 threw NullPointerException\ncall 1 4 threw NullPointerException\ncall 1 5 threw NullPointerException\ncall 1 6 7\ncall 1 7 8\ncall 1 8 3\ncall 1 9 false\ncall 1 10 threw NullPointerException\ncall 1 11 threw NullPointerException\ncall 1 12 true\ntables\nheaps\nheap 1\n0 Main 0\ndone\n",
    ),
    (
        "a throw undoes its call, and no other",
        "class Main { int n; int[] a; public int f(int z) { n = n + 1; a = new int[n]; a[0] = 5; System.out.println(\"n\" + n); a[0] = 1 / z; return n; } public int g(int z) { a[0] = 9; System.out.println(a[0]); return 1 / z; } }",
        "call 1 g 1\ncall 1 f 0\ncall 1 f 1\ncall 1 g 0\ncall 1 f 0\ncall 1 g 1\ncall 1 g 0\n",
        0,
        "calls\ncall 1 1 threw NullPointerException\ncall 1 2 threw ArithmeticException\ncall 1 3 1\nprint 1 \"n1\"\ncall 1 4 threw ArithmeticException\ncall 1 5 threw ArithmeticException\ncall 1 6 1\nprint 1 \"9\"\ncall 1 7 threw ArithmeticException\ntables\nheaps\nheap 1\n0 Main 1 #1\n1 int[] 9\ndone\n",
    ),
];

// Operators, texts, scopes, calls.
const VALUES: [Case; 15] = [
    (
        "quotients go towards zero, and remainders have the sign of the left",
        "class Main { public int q(int a, int b) { return a / b; } public int r(int a, int b) { return a % b; } public long lq(long a, int b) { return a / b; } public long lr(int a, long b) { return a % b; } }",
        "call 1 q -7 2\ncall 1 q 7 -2\ncall 1 r -7 2\ncall 1 r 7 -2\ncall 1 r -7 -2\ncall 1 q -2147483648 -1\ncall 1 r -2147483648 -1\ncall 1 q 1 0\ncall 1 r 1 0\ncall 1 lq -9223372036854775808 -1\ncall 1 lq -9223372036854775808 -2\ncall 1 lr -2147483648 -1\ncall 1 lr -2147483648 4294967296\ncall 1 lq 0 0\ncall 1 lr 0 0\n",
        0,
        "calls\ncall 1 1 -3\ncall 1 2 -3\ncall 1 3 -1\ncall 1 4 1\ncall 1 5 -1\ncall 1 6 -2147483648\ncall 1 7 0\ncall 1 8 threw ArithmeticException\ncall 1 9 threw ArithmeticException\ncall 1 10 -9223372036854775808\ncall 1 11 4611686018427387904\ncall 1 12 0\ncall 1 13 -2147483648\ncall 1 14 threw ArithmeticException\ncall 1 15 threw ArithmeticException\ntables\nheaps\nheap 1\n0 Main\ndone\n",
    ),
    (
        "sums and products wrap",
        "class Main { public int a(int x, int y) { return x + y; } public int s(int x, int y) { return x - y; } public int m(int x, int y) { return x * y; } public int n(int x) { return -x; } public long ml(long x, int y) { return x * y; } public long w(int x) { return x * x + 1L; } public long v(int x) { long y = x * x; return y; } public int i(int x) { return ~x; } }",
        "call 1 a 2147483647 1\ncall 1 a -2147483648 -1\ncall 1 s -2147483648 1\ncall 1 s 0 -2147483648\ncall 1 m 65536 65536\ncall 1 m 65535 65537\ncall 1 m -2147483648 -1\ncall 1 n -2147483648\ncall 1 ml 9223372036854775807 2\ncall 1 ml -9223372036854775808 -1\ncall 1 w 65536\ncall 1 v 46341\ncall 1 i 2147483647\ncall 1 i -1\n",
        0,
        "calls\ncall 1 1 -2147483648\ncall 1 2 2147483647\ncall 1 3 2147483647\ncall 1 4 -2147483648\ncall 1 5 0\ncall 1 6 -1\ncall 1 7 -2147483648\ncall 1 8 -2147483648\ncall 1 9 -2\ncall 1 10 -9223372036854775808\ncall 1 11 1\ncall 1 12 -2147479015\ncall 1 13 -2147483648\ncall 1 14 0\ntables\nheaps\nheap 1\n0 Main\ndone\n",
    ),
    (
        "a shift is of its left operand's type, by the low bits",
        "class Main { public int a(int x, int n) { return x << n; } public int b(int x, long n) { return x >> n; } public int c(int x, int n) { return x >>> n; } public long d(long x, int n) { return x << n; } public long e(long x, long n) { return x >>> n; } public long g(int x, int n) { return x << n; } }",
        "call 1 a 1 31\ncall 1 a 1 32\ncall 1 a 1 33\ncall 1 a 1 -1\ncall 1 b -8 1\ncall 1 b -8 33\ncall 1 b -8 4294967297\ncall 1 b -8 -1\ncall 1 c -8 1\ncall 1 c -1 31\ncall 1 c -1 32\ncall 1 c -1 -1\ncall 1 d 1 63\ncall 1 d 1 64\ncall 1 d 1 -1\ncall 1 e -1 1\ncall 1 e -1 65\ncall 1 e -1 4294967296\ncall 1 e -1 -1\ncall 1 g 1 31\ncall 1 g 3 32\n",
        0,
        "calls\ncall 1 1 -2147483648\ncall 1 2 1\ncall 1 3 2\ncall 1 4 -2147483648\ncall 1 5 -4\ncall 1 6 -4\ncall 1 7 -4\ncall 1 8 -1\ncall 1 9 2147483644\ncall 1 10 1\ncall 1 11 -1\ncall 1 12 1\ncall 1 13 -9223372036854775808\ncall 1 14 1\ncall 1 15 -9223372036854775808\ncall 1 16 9223372036854775807\ncall 1 17 9223372036854775807\ncall 1 18 -1\ncall 1 19 1\ncall 1 20 -2147483648\ncall 1 21 3\ntables\nheaps\nheap 1\n0 Main\ndone\n",
    ),
    (
        "casts",
        "class Main { public int n(long a) { return (int) a; } public long w(int a) { return (long) a; } public int s(long a) { return (int) (a >> 32) + (int) a * 2; } public long o(int a) { return (long) a << 32 | (long) a & 4294967295L; } public int m(long a) { return -(int) -a; } }",
        "call 1 n 4294967295\ncall 1 n 4294967296\ncall 1 n 2147483648\ncall 1 n -2147483649\ncall 1 n -9223372036854775808\ncall 1 n 9223372036854775807\ncall 1 w -2147483648\ncall 1 s 4294967301\ncall 1 o -2\ncall 1 o 2147483647\ncall 1 m -2147483648\n",
        0,
        "calls\ncall 1 1 -1\ncall 1 2 0\ncall 1 3 -2147483648\ncall 1 4 2147483647\ncall 1 5 0\ncall 1 6 -1\ncall 1 7 -2147483648\ncall 1 8 11\ncall 1 9 -4294967298\ncall 1 10 9223372034707292159\ncall 1 11 -2147483648\ntables\nheaps\nheap 1\n0 Main\ndone\n",
    ),
    (
        "each compound assignment",
        "class Main { public int f(int x, int y) { x += y; System.out.println(x); x -= 3; System.out.println(x); x *= y; System.out.println(x); x /= 4; System.out.println(x); x %= 100; System.out.println(x); x <<= y; System.out.println(x); x >>= 3; System.out.println(x); x >>>= 28; System.out.println(x); x |= 8; System.out.println(x); x &= 13; System.out.println(x); x ^= y; return x; } public boolean b(boolean x, boolean y) { x |= y; System.out.println(x); x &= y; System.out.println(x); x ^= true; return x; } public long l(long x) { x <<= 65L; x -= 1L + x; x >>>= 1L; x /= -2L; return x; } public String s(String x) { x += x + 1; x += \"\" + null; return x; } public int z(int x) { x /= x; return x; } public int o(int x) { x *= 1 + x - 1 / 2; x -= x - 1 - 1; return x; } }",
        "call 1 f 7 5\ncall 1 f -100 33\ncall 1 b false true\ncall 1 b true false\ncall 1 l 5\ncall 1 s \"a\"\ncall 1 s null\ncall 1 z 0\ncall 1 z -3\ncall 1 o 6\n",
        0,
        "calls\ncall 1 1 13\nprint 1 \"12\"\nprint 1 \"9\"\nprint 1 \"45\"\nprint 1 \"11\"\nprint 1 \"11\"\nprint 1 \"352\"\nprint 1 \"44\"\nprint 1 \"0\"\nprint 1 \"8\"\nprint 1 \"8\"\ncall 1 2 44\nprint 1 \"-67\"\nprint 1 \"-70\"\nprint 1 \"-2310\"\nprint 1 \"-577\"\nprint 1 \"-77\"\nprint 1 \"-154\"\nprint 1 \"-20\"\nprint 1 \"15\"\nprint 1 \"15\"\nprint 1 \"13\"\ncall 1 3 false\nprint 1 \"true\"\nprint 1 \"true\"\ncall 1 4 true\nprint 1 \"true\"\nprint 1 \"false\"\ncall 1 5 -4611686018427387903\ncall 1 6 \"aa1null\"\ncall 1 7 \"nullnull1null\"\ncall 1 8 threw ArithmeticException\ncall 1 9 1\ncall 1 10 2\ntables\nheaps\nheap 1\n0 Main\ndone\n",
    ),
    (
        "`++` and `--` wrap round",
        "class Main { public int u(int x) { x++; return x; } public int d(int x) { x--; return x; } public long lu(long x) { x++; x++; return x; } public long ld(long x) { x--; return x; } }",
        "call 1 u 2147483647\ncall 1 d -2147483648\ncall 1 lu 9223372036854775807\ncall 1 lu 2147483646\ncall 1 ld -9223372036854775808\ncall 1 ld -2147483648\n",
        0,
        "calls\ncall 1 1 -2147483648\ncall 1 2 2147483647\ncall 1 3 -9223372036854775807\ncall 1 4 2147483648\ncall 1 5 9223372036854775807\ncall 1 6 -2147483649\ntables\nheaps\nheap 1\n0 Main\ndone\n",
    ),
    (
        "texts are joined from the left",
        "class Main { public String a(String s, int n, long l, boolean b) { return 1 + n + s + n + 1 + l + b + null; } public String b(String s) { return null + s + (1 + 2) + -1 + (s == null); } public String c(String s, String t) { String u = s + t; return u + u.length() + u.equals(t + s); } public String d(boolean b, long l) { return b + \":\" + l * 2 + !b; } public int e() { return (\"\" + -2147483648 + -9223372036854775808L).length(); } }",
        "call 1 a \"s\" 2 -3 true\ncall 1 a null -2 9223372036854775807 false\ncall 1 b \"x\"\ncall 1 b null\ncall 1 c \"ab\" \"ab\"\ncall 1 c \"a\" null\ncall 1 c null null\ncall 1 d true -4\ncall 1 e\n",
        0,
        "calls\ncall 1 1 \"3s21-3truenull\"\ncall 1 2 \"-1null-219223372036854775807falsenull\"\ncall 1 3 \"nullx3-1false\"\ncall 1 4 \"nullnull3-1true\"\ncall 1 5 \"abab4true\"\ncall 1 6 \"anull5false\"\ncall 1 7 \"nullnull8true\"\ncall 1 8 \"true:-8false\"\ncall 1 9 31\ntables\nheaps\nheap 1\n0 Main\ndone\n",
    ),
    (
        "texts are printed and replied with their escapes",
        "class Main { public String f(String s) { System.out.println(\"a\\tb\\n\\\"c\\\\\"); System.out.println(s); System.out.println(s + \"\\n\"); return \"\\\\n\" + s; } public int n(String s) { return s.length(); } }",
        "call 1 f \"t\\t\\\"q\\\"\\\\\\n\"\ncall 1 f \"\"\ncall 1 f null\ncall 1 n \"\\n\\t\\\"\\\\\"\n",
        0,
        "calls\ncall 1 1 \"\\\\nt\\t\\\"q\\\"\\\\\\n\"\nprint 1 \"a\\tb\\n\\\"c\\\\\"\nprint 1 \"t\\t\\\"q\\\"\\\\\\n\"\nprint 1 \"t\\t\\\"q\\\"\\\\\\n\\n\"\ncall 1 2 \"\\\\n\"\nprint 1 \"a\\tb\\n\\\"c\\\\\"\nprint 1 \"\"\nprint 1 \"\\n\"\ncall 1 3 \"\\\\nnull\"\nprint 1 \"a\\tb\\n\\\"c\\\\\"\nprint 1 \"null\"\nprint 1 \"null\\n\"\ncall 1 4 4\ntables\nheaps\nheap 1\n0 Main\ndone\n",
    ),
    (
        "each type is printed and replied",
        "class Main { public void f(int i, long l, boolean b, String s) { System.out.println(i); System.out.println(l); System.out.println(b); System.out.println(s); System.out.println(\"null\"); System.out.println(i + l); System.out.println(i < l); System.out.println(-9223372036854775808L); } public String s(String x) { return x; } public long l(int x) { return x; } public boolean b(boolean x) { return !x; } }",
        "call 1 f -2147483648 9223372036854775807 false null\ncall 1 s null\ncall 1 s \"null\"\ncall 1 l -1\ncall 1 b false\n",
        0,
        "calls\ncall 1 1 void\nprint 1 \"-2147483648\"\nprint 1 \"9223372036854775807\"\nprint 1 \"false\"\nprint 1 \"null\"\nprint 1 \"null\"\nprint 1 \"9223372034707292159\"\nprint 1 \"true\"\nprint 1 \"-9223372036854775808\"\ncall 1 2 null\ncall 1 3 \"null\"\ncall 1 4 -1\ncall 1 5 true\ntables\nheaps\nheap 1\n0 Main\ndone\n",
    ),
    (
        "comparisons of ints and longs",
        "class Main { public boolean c(int x, long y) { return x == y && y == x && x <= y && !(x != y) && !(y > x); } public boolean l(int x, long y) { return x < y; } public boolean g(long x, int y) { return x >= y; } public long d(int x) { return -x; } public long e(int x) { return x >>> 28; } public boolean t(boolean a, boolean b) { return (a == b) != (a ^ b) & (a != !b | a); } }",
        "call 1 c -1 -1\ncall 1 c -1 4294967295\ncall 1 l 2147483647 2147483648\ncall 1 l -2147483648 -2147483649\ncall 1 g 4294967296 0\ncall 1 g -4294967296 0\ncall 1 d -2147483648\ncall 1 e -1\ncall 1 t true false\ncall 1 t false false\ncall 1 t false true\n",
        0,
        "calls\ncall 1 1 true\ncall 1 2 false\ncall 1 3 true\ncall 1 4 false\ncall 1 5 true\ncall 1 6 false\ncall 1 7 -2147483648\ncall 1 8 15\ncall 1 9 true\ncall 1 10 true\ncall 1 11 false\ntables\nheaps\nheap 1\n0 Main\ndone\n",
    ),
    (
        "references are the same or not",
        "class Main { Main m; boolean e(Main a, Main b) { return a == b; } public boolean f(int k) { if (k == 0) return e(this, this); if (k == 1) return e(this, m); if (k == 2) return m == null; if (k == 3) return null == null; int[] a = null; return a != null; } public boolean s(String s) { return s == null; } }",
        "call 1 f 0\ncall 1 f 1\ncall 1 f 2\ncall 1 f 3\ncall 1 f 4\ncall 1 s null\ncall 1 s \"null\"\n",
        0,
        "calls\ncall 1 1 true\ncall 1 2 false\ncall 1 3 true\ncall 1 4 true\ncall 1 5 false\ncall 1 6 true\ncall 1 7 false\ntables\nheaps\nheap 1\n0 Main null\ndone\n",
    ),
    (
        "scopes and shadows",
        "class Main { int x; int i; int k(int x) { return x + this.x; } public int f(int n) { int s = 0; for (int i = 0; i < n; i++) { int x = i * i; s += x; } for (int i = n; i > 0; i -= 2) s += i; { int x = 100; s += x; } for (i = 0; i < n; s += i) { i = i + 1; if (i == 3) { x = i; this.i = 5; } } int x = s; this.x = this.x + x; return x; } public int g(int x) { x = x + this.x; int f = k(x); return f + f(0) + i; } }",
        "call 1 f 4\ncall 1 g 1\ncall 1 f 2\n",
        0,
        "calls\ncall 1 1 128\ncall 1 2 363\ncall 1 3 106\ntables\nheaps\nheap 1\n0 Main 337 2\ndone\n",
    ),
    (
        "each turn of a loop begins its locals anew",
        "class Main { public int f(int n) { int s = 0; int k = 0; while (k < n) { int t = 0; for (int j = k; j < n; j++) { if (j % 2 == 0) t += j; else { t--; } } s = s * 10 + t; k++; } return s; } public int g(int n) { for (int i = 0; i < 100; i++) { for (int j = 0; j < i; j++) if (i * j > n) return i * 100 + j; } return -1; } public int h(boolean a, boolean b) { if (a) if (b) return 1; else return 2; return 3; } }",
        "call 1 f 5\ncall 1 f 0\ncall 1 g 20\ncall 1 g 9999\ncall 1 h true true\ncall 1 h true false\ncall 1 h false true\n",
        0,
        "calls\ncall 1 1 44534\ncall 1 2 0\ncall 1 3 604\ncall 1 4 -1\ncall 1 5 1\ncall 1 6 2\ncall 1 7 3\ntables\nheaps\nheap 1\n0 Main\ndone\n",
    ),
    (
        "calls of calls",
        "class Main { int odd(int n) { if (n == 0) return 0; return even(n - 1); } int even(int n) { if (n == 0) return 1; return odd(n - 1); } public int e(int n) { return even(n); } public long fac(int n) { if (n < 2) return 1; return n * fac(n - 1); } public int fib(int n) { if (n < 2) return n; return fib(n - 1) + fib(n - 2); } void hanoi(int n, String a, String b, String c) { if (n == 0) return; hanoi(n - 1, a, c, b); System.out.println(a + c); hanoi(n - 1, b, a, c); } public void h(int n) { hanoi(n, \"a\", \"b\", \"c\"); } public int ack(int m, int n) { if (m == 0) return n + 1; if (n == 0) return ack(m - 1, 1); return ack(m - 1, ack(m, n - 1)); } }",
        "call 1 e 77\ncall 1 e 78\ncall 1 fac 20\ncall 1 fac 21\ncall 1 fib 15\ncall 1 h 3\ncall 1 ack 2 3\n",
        0,
        "calls\ncall 1 1 0\ncall 1 2 1\ncall 1 3 2432902008176640000\ncall 1 4 -4249290049419214848\ncall 1 5 610\ncall 1 6 void\nprint 1 \"ac\"\nprint 1 \"ab\"\nprint 1 \"cb\"\nprint 1 \"ac\"\nprint 1 \"ba\"\nprint 1 \"bc\"\nprint 1 \"ac\"\ncall 1 7 9\ntables\nheaps\nheap 1\n0 Main\ndone\n",
    ),
    (
        "arguments are copies, and references are shared",
        "class B { int v; B up(int n) { v = v + n; return this; } } class Main { B b; int[] a; void set(int n, B b, int[] a) { n = 9; b.v = n; a[0] = n; b = null; a = null; } public int f(int n) { b = new B(); a = new int[2]; set(n, b, a); return n * 100 + b.v * 10 + a[0]; } public int g() { b.up(1).up(2); B c = b; c.up(30).v = b.v + 100; a[a[1]] = a[a[1]] + c.v; (b).v = (b).v + 1; return b.v; } }",
        "call 1 f 3\ncall 1 g\n",
        0,
        "calls\ncall 1 1 399\ncall 1 2 143\ntables\nheaps\nheap 1\n0 Main #1 #2\n1 B 143\n2 int[] 151 0\ndone\n",
    ),
];

// What new objects and arrays hold.
const DEFAULTS: [Case; 5] = [
    (
        "a new object's fields, in the order of the file",
        "class A { String s; int i; A a; boolean b; long l; int[] x; String[] t; Main m; } class Main { A a; boolean b; long l; String s; int i; long[] x; public void f() { a = new A(); } public String g() { return a.s + a.i + a.b + a.l + (a.a == null) + (a.x == null) + (a.t == null) + (a.m == null); } }",
        "call 1 f\ncall 1 g\n",
        0,
        "calls\ncall 1 1 void\ncall 1 2 \"null0false0truetruetruetrue\"\ntables\nheaps\nheap 1\n0 Main #1 false 0 null 0 null\n1 A null 0 null false 0 null null null\ndone\n",
    ),
    (
        "a new array's elements, by their type",
        "class A { int v; } class Main { int[] i; long[] l; boolean[] b; String[] s; A[] a; Main[] m; public void f(int n) { i = new int[n]; l = new long[n]; b = new boolean[n]; s = new String[n]; a = new A[n]; m = new Main[n]; } public String g(int k) { return s[k] + i[k] + b[k] + l[k] + (a[k] == null) + (m[k] == null); } }",
        "call 1 f 2\ncall 1 g 1\n",
        0,
        "calls\ncall 1 1 void\ncall 1 2 \"null0false0truetrue\"\ntables\nheaps\nheap 1\n0 Main #1 #2 #3 #4 #5 #6\n1 int[] 0 0\n2 long[] 0 0\n3 boolean[] false false\n4 String[] null null\n5 A[] null null\n6 Main[] null null\ndone\n",
    ),
    (
        "arrays of no elements",
        "class Main { int[] i; long[] l; boolean[] b; String[] s; Main[] m; public int f(int n) { i = new int[n]; l = new long[n]; b = new boolean[n]; s = new String[n]; m = new Main[n]; return i.length + m.length; } public String g(int k) { return s[k]; } }",
        "call 1 f 0\ncall 1 g 0\ncall 1 g -1\n",
        0,
        "calls\ncall 1 1 0\ncall 1 2 threw ArrayIndexOutOfBoundsException\ncall 1 3 threw ArrayIndexOutOfBoundsException\ntables\nheaps\nheap 1\n0 Main #1 #2 #3 #4 #5\n1 int[]\n2 long[]\n3 boolean[]\n4 String[]\n5 Main[]\ndone\n",
    ),
    (
        "the object of a session at first",
        "class A { int v; } class Main { int i; long l; boolean b; String s; A a; Main m; int[] x; A[] y; String[] z; public String f() { return s + i + l + b + (a == null) + (m == null) + (x == null) + (y == null) + (z == null); } }",
        "call 1 f\n",
        0,
        "calls\ncall 1 1 \"null00falsetruetruetruetruetrue\"\ntables\nheaps\nheap 1\n0 Main 0 0 false null null null null null null\ndone\n",
    ),
    (
        "a class's objects are apart, and keep what they hold",
        "class A { int v; A n; String s; } class Main { A[] a; public void f() { a = new A[3]; for (int i = 0; i < 3; i++) { a[i] = new A(); a[i].v = i; if (i > 0) a[i].n = a[i - 1]; } a[1].s = \"\" + a[2].v; } }",
        "call 1 f\n",
        0,
        "calls\ncall 1 1 void\ntables\nheaps\nheap 1\n0 Main #1\n1 A[] #2 #3 #4\n2 A 0 null null\n3 A 1 #2 \"2\"\n4 A 2 #3 null\ndone\n",
    ),
];

// The last that passes and the first that throws. A call that would leave a large heap or many lines ends in a throw of its own.
const LIMITS: [Case; 19] = [
    (
        "ends of the types",
        "class Main { public long a(long x, long y) { return x / y; } public long b(long x, long y) { return x % y; } public int c(int x, int y) { return x << y; } public int d(long x) { return (int) x; } }",
        "call 1 a -9223372036854775808 -1\ncall 1 b -9223372036854775808 -1\ncall 1 a -7 2\ncall 1 b -7 2\ncall 1 c 1 33\ncall 1 c 1 -1\ncall 1 d 4294967301\ncall 1 a 1 0\n",
        0,
        "calls\ncall 1 1 -9223372036854775808\ncall 1 2 0\ncall 1 3 -3\ncall 1 4 -1\ncall 1 5 2\ncall 1 6 -2147483648\ncall 1 7 5\ncall 1 8 threw ArithmeticException\ntables\nheaps\nheap 1\n0 Main\ndone\n",
    ),
    (
        "the order of throws",
        "class Main { long n; public void f(int z) { n = 7; int[] a = null; a[9] = 1 / z; } }",
        "call 1 f 0\ncall 1 f 1\n",
        0,
        "calls\ncall 1 1 threw ArithmeticException\ncall 1 2 threw NullPointerException\ntables\nheaps\nheap 1\n0 Main 0\ndone\n",
    ),
    (
        "a call has 100,000 tests of loops",
        "class Main { public int f(int n) { int i = 0; while (i < n) i++; return i; } }",
        "call 1 f 99999\ncall 1 f 100000\n",
        0,
        "calls\ncall 1 1 99999\ncall 1 2 threw TurnsOut\ntables\nheaps\nheap 1\n0 Main\ndone\n",
    ),
    (
        "an entry and the methods of a text are no turns",
        "class Main { public int f(String s) { int k = 0; for (int i = 0; i < 10001; i++) k += s.length() + s.length() + s.length() + s.length() + s.length() + s.length() + s.length() + s.length() + s.length() + s.length(); return k; } }",
        "call 1 f \"a\"\n",
        0,
        "calls\ncall 1 1 100010\ntables\nheaps\nheap 1\n0 Main\ndone\n",
    ),
    (
        "a test counts after it was evaluated",
        "class Main { public int f(int n) { for (int i = 0; 1 / (n - i) >= 0; i++) ; return 0; } }",
        "call 1 f 100000\n",
        0,
        "calls\ncall 1 1 threw ArithmeticException\ntables\nheaps\nheap 1\n0 Main\ndone\n",
    ),
    (
        "a call meets null first, then its turn, then its frame, and all that after its arguments",
        "class Main { void end(Main m, int z) { m.end(this, 1 / z); } public void f(int n, int k, int z, boolean no) { if (n > 0) { f(n - 1, k, z, no); return; } for (int i = 0; i < k; i++) ; Main m = this; if (no) m = null; m.end(m, 1 / z); } }",
        "call 1 f 198 0 1 false\ncall 1 f 199 0 1 false\ncall 1 f 199 0 0 false\ncall 1 f 199 0 1 true\ncall 1 f 199 99799 1 false\ncall 1 f 199 99800 1 false\ncall 1 f 199 99800 0 true\ncall 1 f 199 99800 1 true\n",
        0,
        "calls\ncall 1 1 threw StackOverflowError\ncall 1 2 threw StackOverflowError\ncall 1 3 threw ArithmeticException\ncall 1 4 threw NullPointerException\ncall 1 5 threw StackOverflowError\ncall 1 6 threw TurnsOut\ncall 1 7 threw ArithmeticException\ncall 1 8 threw NullPointerException\ntables\nheaps\nheap 1\n0 Main\ndone\n",
    ),
    (
        "a frame ends with its method",
        "class Main { int d(int n) { if (n == 0) return 1; return d(n - 1); } public int f(int n, int k) { int s = 0; for (int i = 0; i < k; i++) s = s + d(n); return s + d(n) * d(n); } }",
        "call 1 f 198 3\ncall 1 f 199 1\ncall 1 f 198 0\n",
        0,
        "calls\ncall 1 1 4\ncall 1 2 threw StackOverflowError\ncall 1 3 1\ntables\nheaps\nheap 1\n0 Main\ndone\n",
    ),
    (
        "an array has at most 50,000 elements",
        "class Main { public int f(int n) { long[] a = new long[n]; return 1 / (a.length - n); } public int g(int n) { return new boolean[n].length; } }",
        "call 1 f 50000\ncall 1 f 50001\ncall 1 f 2147483647\ncall 1 f -1\ncall 1 g 50001\ncall 1 f 50000\n",
        0,
        "calls\ncall 1 1 threw ArithmeticException\ncall 1 2 threw HeapFull\ncall 1 3 threw HeapFull\ncall 1 4 threw NegativeArraySizeException\ncall 1 5 threw HeapFull\ncall 1 6 threw ArithmeticException\ntables\nheaps\nheap 1\n0 Main\ndone\n",
    ),
    (
        "a call has 200 frames",
        "class Main { public int f(int n) { if (n == 0) return 0; return 1 + f(n - 1); } int d(int n) { if (n > 0) d(n - 1); return n; } public int g(int n) { return d(n); } }",
        "call 1 f 199\ncall 1 f 200\ncall 1 g 198\ncall 1 g 199\n",
        0,
        "calls\ncall 1 1 199\ncall 1 2 threw StackOverflowError\ncall 1 3 198\ncall 1 4 threw StackOverflowError\ntables\nheaps\nheap 1\n0 Main\ndone\n",
    ),
    (
        "an object counts one and its cells",
        "class Main { public int f(int n) { long[] a = new long[50000]; boolean[] b = new boolean[n]; return 1 / (b.length - n); } }",
        "call 1 f 49997\ncall 1 f 49998\ncall 1 f 49997\n",
        0,
        "calls\ncall 1 1 threw ArithmeticException\ncall 1 2 threw HeapFull\ncall 1 3 threw ArithmeticException\ntables\nheaps\nheap 1\n0 Main\ndone\n",
    ),
    (
        "the first object counts too",
        "class Main { int v; String s; public int f(int n) { v = 1; int[] a = new int[50000]; String[] b = new String[n]; return 1 / (b.length - n); } }",
        "call 1 f 49995\ncall 1 f 49996\n",
        0,
        "calls\ncall 1 1 threw ArithmeticException\ncall 1 2 threw HeapFull\ntables\nheaps\nheap 1\n0 Main 0 null\ndone\n",
    ),
    (
        "a full heap has no room",
        "class E { } class B { int v; } class Main { public int f(int n, int k) { int[] a = new int[50000]; int[] b = new int[n]; if (k == 0) { E e = new E(); } if (k == 1) { B c = new B(); } if (k == 2) { int[] c = new int[0]; } if (k == 3) { int[] c = new int[-1]; } return 1 / (b.length - n); } }",
        "call 1 f 49996 0\ncall 1 f 49997 0\ncall 1 f 49995 1\ncall 1 f 49996 1\ncall 1 f 49996 2\ncall 1 f 49997 2\ncall 1 f 49997 3\n",
        0,
        "calls\ncall 1 1 threw ArithmeticException\ncall 1 2 threw HeapFull\ncall 1 3 threw ArithmeticException\ncall 1 4 threw HeapFull\ncall 1 5 threw ArithmeticException\ncall 1 6 threw HeapFull\ncall 1 7 threw NegativeArraySizeException\ntables\nheaps\nheap 1\n0 Main\ndone\n",
    ),
    (
        "a call prints at most 1,000 lines",
        "class Main { public int f(int n, int z) { for (int i = 0; i < n; i++) System.out.println(\"\"); return 1 / z; } public void g(int z) { for (int i = 0; i < 1000; i++) System.out.println(true); System.out.println(1 / z); } }",
        "call 1 f 1000 0\ncall 1 f 1001 0\ncall 1 g 0\ncall 1 g 1\n",
        0,
        "calls\ncall 1 1 threw ArithmeticException\ncall 1 2 threw PrintsOut\ncall 1 3 threw ArithmeticException\ncall 1 4 threw PrintsOut\ntables\nheaps\nheap 1\n0 Main\ndone\n",
    ),
    (
        "a call prints at most 20,000 bytes, and no ends of lines count",
        "class Main { public int f(int n, String t) { String s = \"\"; for (int i = 0; i < n; i++) s += \"1234567890\"; for (int i = 0; i < 40; i++) System.out.println(s); System.out.println(t); return 1 / (s.length() - n * 10); } }",
        "call 1 f 50 \"\"\ncall 1 f 50 \"a\"\ncall 1 f 49 \"\"\n",
        0,
        "calls\ncall 1 1 threw ArithmeticException\ncall 1 2 threw PrintsOut\ncall 1 3 threw ArithmeticException\ntables\nheaps\nheap 1\n0 Main\ndone\n",
    ),
    (
        "what is printed counts as it is shown",
        "class Main { public int f(int n, int k) { String s = \"12345678901234567890123456789012345678901234567890\"; for (int i = 0; i < 399; i++) System.out.println(s); String t = \"\\\"\\\\\"; for (int i = 0; i < n; i++) t += \"a\"; System.out.println(t); String no = null; if (k == 0) System.out.println(no); if (k == 1) System.out.println(false); if (k == 2) System.out.println(-100); if (k == 3) System.out.println(10000L); return 1 / (n - n); } }",
        "call 1 f 48 4\ncall 1 f 49 4\ncall 1 f 44 0\ncall 1 f 45 0\ncall 1 f 43 1\ncall 1 f 44 1\ncall 1 f 44 2\ncall 1 f 45 2\ncall 1 f 43 3\ncall 1 f 44 3\n",
        0,
        "calls\ncall 1 1 threw ArithmeticException\ncall 1 2 threw PrintsOut\ncall 1 3 threw ArithmeticException\ncall 1 4 threw PrintsOut\ncall 1 5 threw ArithmeticException\ncall 1 6 threw PrintsOut\ncall 1 7 threw ArithmeticException\ncall 1 8 threw PrintsOut\ncall 1 9 threw ArithmeticException\ncall 1 10 threw PrintsOut\ntables\nheaps\nheap 1\n0 Main\ndone\n",
    ),
    (
        "a text has at most 500 bytes",
        "class Main { String t(int n) { String s = \"\"; for (int i = 0; i < n; i++) s += \"a\"; return s; } public int f(int n) { return t(n).length(); } public int g(int n, int k) { String s = t(n); String no = null; if (k == 0) return (s + null).length(); if (k == 1) return (no + s).length(); if (k == 2) return (-2147483648 + s).length(); if (k == 3) return (s + false).length(); if (k == 4) return (s + s).length(); return (s + \"\").length(); } }",
        "call 1 f 500\ncall 1 f 501\ncall 1 g 496 0\ncall 1 g 497 0\ncall 1 g 496 1\ncall 1 g 497 1\ncall 1 g 489 2\ncall 1 g 490 2\ncall 1 g 495 3\ncall 1 g 496 3\ncall 1 g 250 4\ncall 1 g 251 4\ncall 1 g 500 5\n",
        0,
        "calls\ncall 1 1 500\ncall 1 2 threw TextTooLong\ncall 1 3 500\ncall 1 4 threw TextTooLong\ncall 1 5 500\ncall 1 6 threw TextTooLong\ncall 1 7 500\ncall 1 8 threw TextTooLong\ncall 1 9 500\ncall 1 10 threw TextTooLong\ncall 1 11 500\ncall 1 12 threw TextTooLong\ncall 1 13 500\ntables\nheaps\nheap 1\n0 Main\ndone\n",
    ),
    (
        "a text is too long after both of its operands were made",
        "class Main { public int f(int n, int z) { String s = \"\"; for (int i = 0; i < n; i++) s += \"a\"; return (s + \"aa\" + 1 / z).length(); } public int g(int n, int z) { String s = \"\"; for (int i = 0; i < n; i++) s += \"a\"; return (s + 1 / z).length(); } }",
        "call 1 f 497 1\ncall 1 f 498 1\ncall 1 f 498 0\ncall 1 f 499 0\ncall 1 g 499 1\ncall 1 g 500 1\ncall 1 g 500 0\n",
        0,
        "calls\ncall 1 1 500\ncall 1 2 threw TextTooLong\ncall 1 3 threw ArithmeticException\ncall 1 4 threw TextTooLong\ncall 1 5 500\ncall 1 6 threw TextTooLong\ncall 1 7 threw ArithmeticException\ntables\nheaps\nheap 1\n0 Main\ndone\n",
    ),
    (
        "what a session keeps counts in its next calls, also what nothing holds",
        "class Main { int[] k; public void keep(int z) { k = new int[10]; k[0] = 1 / z; } public int f(int n) { long[] a = new long[50000]; boolean[] b = new boolean[n]; return 1 / (b.length - n); } }",
        "call 1 f 49996\ncall 1 f 49997\ncall 1 keep 0\ncall 1 f 49996\ncall 1 keep 1\ncall 1 f 49985\ncall 1 f 49986\ncall 1 keep 1\ncall 1 f 49974\ncall 1 f 49975\n",
        0,
        "calls\ncall 1 1 threw ArithmeticException\ncall 1 2 threw HeapFull\ncall 1 3 threw ArithmeticException\ncall 1 4 threw ArithmeticException\ncall 1 5 void\ncall 1 6 threw ArithmeticException\ncall 1 7 threw HeapFull\ncall 1 8 void\ncall 1 9 threw ArithmeticException\ncall 1 10 threw HeapFull\ntables\nheaps\nheap 1\n0 Main #2\n1 int[] 1 0 0 0 0 0 0 0 0 0\n2 int[] 1 0 0 0 0 0 0 0 0 0\ndone\n",
    ),
    (
        "the methods of a text need no frame",
        "class Main { public int f(int n, String s) { if (n == 0) return s.length(); return f(n - 1, s); } }",
        "call 1 f 199 \"abc\"\ncall 1 f 199 null\ncall 1 f 200 \"abc\"\n",
        0,
        "calls\ncall 1 1 3\ncall 1 2 threw NullPointerException\ncall 1 3 threw StackOverflowError\ntables\nheaps\nheap 1\n0 Main\ndone\n",
    ),
];

#[test]
fn what_is_run_comes_in_order(rt: HostRuntime) -> Result<(), Fail> {
    all(&rt, rt.alloc(), &RUN, &ORDER)
}

#[test]
fn values_are_those_of_java(rt: HostRuntime) -> Result<(), Fail> {
    all(&rt, rt.alloc(), &RUN, &VALUES)
}

#[test]
fn what_is_new_has_its_defaults(rt: HostRuntime) -> Result<(), Fail> {
    all(&rt, rt.alloc(), &RUN, &DEFAULTS)
}

#[test]
fn each_limit_is_met(rt: HostRuntime) -> Result<(), Fail> {
    all(&rt, rt.alloc(), &RUN, &LIMITS)
}
