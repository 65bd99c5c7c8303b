//! Which texts mean which statement of SQL, and which tables may be declared.
use crate::rules::read_program;
use px_sql::{SchemaError, is_select, parameters, read_schema, read_statement};
use px_value::{ColumnType, Schema, Statement};
use std::alloc::{AllocError, Global};
use std::process::Abort;
use std::test::Fail;

const TABLES: &str = "CREATE TABLE t (id LONG, a LONG, B TEXT, c_$1 LONG);
CREATE TABLE from (order LONG, select LONG, by LONG, where LONG);
CREATE TABLE one (k LONG);
class Main { }";

// A text, and what it means: its form, its table, its columns and another column; the types of its parameters, l and t.
type Case = (&'static str, &'static str, &'static str);

const MEANT: [Case; 18] = [
    (
        "SELECT id, B, B FROM t WHERE id = ?",
        "key 0 [0, 2, 2] 0",
        "l",
    ),
    ("select id,B,B from t where id=?", "key 0 [0, 2, 2] 0", "l"),
    (
        "SeLeCt  id  ,  B,B   FROM  t WhErE id   =  ?",
        "key 0 [0, 2, 2] 0",
        "l",
    ),
    (
        "SELECT a FROM t WHERE c_$1 = ? ORDER BY id",
        "column 0 [1] 3",
        "l",
    ),
    (
        "select a from t where B=?order by id",
        "column 0 [1] 2",
        "t",
    ),
    ("SELECT k FROM one ORDER BY k", "all 2 [0] 0", ""),
    (
        "UPDATE t SET B = ?, a = ? WHERE id = ?",
        "update 0 [2, 1] 0",
        "tll",
    ),
    ("update t set B=?,a=?where id=?", "update 0 [2, 1] 0", "tll"),
    ("INSERT INTO t VALUES (?, ?, ?, ?)", "insert 0 [] 0", "lltl"),
    ("insert into t values(?,?,?,?)", "insert 0 [] 0", "lltl"),
    (
        "INSERT INTO t VALUES ( ? , ? , ? , ? )",
        "insert 0 [] 0",
        "lltl",
    ),
    ("INSERT INTO one VALUES (?)", "insert 2 [] 0", "l"),
    ("DELETE FROM t WHERE id = ?", "delete 0 [] 0", "l"),
    // Names may be spelled like keywords.
    (
        "SELECT select, where FROM from WHERE order = ?",
        "key 1 [1, 3] 0",
        "l",
    ),
    (
        "SELECT by FROM from WHERE where=? ORDER BY order",
        "column 1 [2] 3",
        "l",
    ),
    ("select order from from order by order", "all 1 [0] 0", ""),
    (
        "UPDATE from SET where = ? WHERE order = ?",
        "update 1 [3] 0",
        "ll",
    ),
    ("SELECT B FROM t WHERE id = ?", "key 0 [2] 0", "l"),
];

const MEANINGLESS: [&str; 42] = [
    "SELECT a FROM t WHERE a = ?",
    "SELECT a FROM t WHERE id = ? ORDER BY id",
    "SELECT a FROM t WHERE a = ? ORDER BY a",
    "SELECT a FROM t ORDER BY a",
    "SELECT a FROM t",
    "SELECT FROM t WHERE id = ?",
    "SELECT a b FROM t WHERE id = ?",
    "SELECT a, FROM t WHERE id = ?",
    "SELECT b FROM t WHERE id = ?",
    "SELECT k FROM t WHERE id = ?",
    "SELECT a FROM T WHERE id = ?",
    "SELECT a FROM s WHERE id = ?",
    "SELECT a FROM t WHERE ID = ?",
    "SELECT a FROM t WHERE id = ?;",
    "SELECT a FROM t WHERE id = 1",
    "SELECT SELECT FROM from ORDER BY order",
    "UPDATE t SET id = ? WHERE id = ?",
    "UPDATE t SET a = ?, a = ? WHERE id = ?",
    "UPDATE t SET a = ?, WHERE id = ?",
    "UPDATE t SET WHERE id = ?",
    "UPDATE t SET a = ? WHERE a = ?",
    "UPDATE t SET a = ?",
    "INSERT INTO t VALUES (?, ?, ?)",
    "INSERT INTO t VALUES (?, ?, ?, ?, ?)",
    "INSERT INTO t VALUES ()",
    "INSERT INTO t VALUES ?, ?, ?, ?",
    "DELETE FROM t WHERE a = ?",
    "DELETE FROM t",
    "DROP FROM t WHERE id = ?",
    "DELETE",
    "",
    // Spaces stand between, and are no other byte.
    " ",
    " DELETE FROM t WHERE id = ?",
    "DELETE FROM t WHERE id = ? ",
    "DELETE\tFROM t WHERE id = ?",
    "DELETE\nFROM t WHERE id = ?",
    "DELETEFROM t WHERE id = ?",
    "DELETE FROM tWHERE id = ?",
    "DELETE FROM t WHERE i d = ?",
    "DELETE FROM t WHERE id = ??",
    "DELETE FROM t WHERE id == ?",
    "DELETE FROM t WHERE id = ?\n",
];

// Tables, and the place of the first that may not be declared.
const DECLARED: [(&str, Option<u32>); 8] = [
    ("CREATE TABLE t (id LONG); class Main { }", None),
    (
        "CREATE TABLE t (id LONG); CREATE TABLE t (id LONG); class Main { }",
        Some(1),
    ),
    (
        "CREATE TABLE t (id LONG); CREATE TABLE T (id LONG, ID TEXT); class Main { }",
        None,
    ),
    (
        "CREATE TABLE t (id LONG); CREATE TABLE u (id LONG, a LONG, id TEXT); class Main { }",
        Some(1),
    ),
    (
        "CREATE TABLE t (id LONG); CREATE TABLE u (id TEXT, a LONG); CREATE TABLE t (id LONG); class Main { }",
        Some(1),
    ),
    (
        "CREATE TABLE u (a LONG, b LONG, c LONG, d LONG, e LONG, f LONG, g LONG, h LONG, i LONG, j LONG, k LONG, l LONG, m LONG, n LONG, o LONG, p LONG); class Main { }",
        None,
    ),
    (
        "CREATE TABLE u (a LONG, b LONG, c LONG, d LONG, e LONG, f LONG, g LONG, h LONG, i LONG, j LONG, k LONG, l LONG, m LONG, n LONG, o LONG, p LONG, q LONG); class Main { }",
        Some(0),
    ),
    ("class Main { }", None),
];

fn declared(alloc: Global, text: &str) -> Result<Result<Schema, SchemaError>, Fail> {
    let program = read_program(alloc, text.as_bytes())?;
    Ok(read_schema(alloc, program.tables.as_slice()))
}

fn first_bad(alloc: Global, text: &str) -> Result<Option<u32>, Fail> {
    match declared(alloc, text)? {
        Ok(_) => Ok(None),
        Err(SchemaError::BadTable { index }) => Ok(Some(index)),
        Err(SchemaError::NoMemory) => Err(AllocError)?,
    }
}

// A statement's form, its table, its columns and another column.
fn shown(alloc: Global, statement: &Statement) -> Result<String, AllocError> {
    let (form, table, columns, other) = match statement {
        Statement::ByKey { table, columns } => ("key", table, columns.as_slice(), 0),
        Statement::ByColumn {
            table,
            columns,
            column,
        } => ("column", table, columns.as_slice(), *column),
        Statement::All { table, columns } => ("all", table, columns.as_slice(), 0),
        Statement::Update { table, columns } => ("update", table, columns.as_slice(), 0),
        Statement::Insert { table } => ("insert", table, [].as_slice(), 0),
        Statement::Delete { table } => ("delete", table, [].as_slice(), 0),
    };
    Ok(format!(in alloc; "{form} {table} {columns:?} {other}")?)
}

fn types(alloc: Global, schema: &Schema, statement: &Statement) -> Result<String, AllocError> {
    let types = parameters(alloc, schema, statement)?;
    let mut shown = String::new(alloc);
    for ty in types.as_slice() {
        shown.push_str(match ty {
            ColumnType::Long => "l",
            ColumnType::Text => "t",
        })?;
    }
    Ok(shown)
}

fn means(rt: &impl Abort, alloc: Global, schema: &Schema, case: &Case) -> Result<(), Fail> {
    let (text, meant, parameters) = case;
    match read_statement(alloc, schema, text.as_bytes())? {
        Some(statement) => {
            assert_eq!(rt; shown(alloc, &statement)?.as_str(), *meant, "{text:?}");
            assert_eq!(rt;
                types(alloc, schema, &statement)?.as_str(),
                *parameters,
                "{text:?}"
            );
            let is_query = text.starts_with("S") || text.starts_with("s");
            assert_eq!(rt; is_select(&statement), is_query, "{text:?}");
        }
        None => panic!(rt; "{text:?}"),
    }
    Ok(())
}

fn all_mean(rt: &impl Abort, alloc: Global, schema: &Schema, cases: &[Case]) -> Result<(), Fail> {
    for case in cases {
        means(rt, alloc, schema, case)?;
    }
    Ok(())
}

fn none_means(rt: &impl Abort, alloc: Global, schema: &Schema, texts: &[&str]) -> Result<(), Fail> {
    for text in texts {
        assert!(rt;
            read_statement(alloc, schema, text.as_bytes())?.is_none(),
            "{text:?}"
        );
    }
    Ok(())
}

#[test]
fn texts_mean_statements(rt: HostRuntime) -> Result<(), Fail> {
    let schema = declared(rt.alloc(), TABLES)??;
    all_mean(&rt, rt.alloc(), &schema, &MEANT)?;
    none_means(&rt, rt.alloc(), &schema, &MEANINGLESS)
}

fn long_select(alloc: Global, columns: usize) -> Result<Vec<u8>, AllocError> {
    let mut text = b"SELECT a".to_vec(alloc)?;
    for _ in 1..columns {
        text.extend_from_slice(b",a")?;
    }
    text.extend_from_slice(b" FROM t ORDER BY id")?;
    Ok(text)
}

#[test]
fn a_list_is_bounded(rt: HostRuntime) -> Result<(), Fail> {
    let alloc = rt.alloc();
    let schema = declared(alloc, TABLES)??;
    for (columns, wanted) in [(255, true), (256, false), (100000, false)] {
        let text = long_select(alloc, columns)?;
        let found = read_statement(alloc, &schema, text.as_slice())?;
        assert_eq!(rt; found.is_some(), wanted, "{columns}");
    }
    Ok(())
}

fn all_declared(rt: &impl Abort, alloc: Global, cases: &[(&str, Option<u32>)]) -> Result<(), Fail> {
    for (text, wanted) in cases {
        let found = first_bad(alloc, text)?;
        assert_eq!(rt; found, *wanted, "{text}");
    }
    Ok(())
}

#[test]
fn tables_keep_a_rule(rt: HostRuntime) -> Result<(), Fail> {
    all_declared(&rt, rt.alloc(), &DECLARED)
}
