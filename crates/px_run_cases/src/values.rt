//! What of values, operators and tables no clause says.
mod java;

use itoa::Buffer;
use px_ops::{OPS, Op, OpError, OpRow, Ty, apply};
use px_value::{AddError, Header, Heap, Kind, Text, Value, Values};
use std::alloc::{AllocError, Global};
use std::test::Fail;

const INTS: [i32; 5] = [0, 1, -1, i32::MIN, i32::MAX];

const LONGS: [i64; 5] = [0, 1, -1, i64::MIN, i64::MAX];

fn text(alloc: Global, bytes: &[u8]) -> Result<Value, AllocError> {
    Ok(Value::Text(Text::from_vec(bytes.to_vec(alloc)?)))
}

// The operands of a type, by their place.
fn operand(alloc: Global, ty: Ty, place: usize) -> Result<Option<Value>, AllocError> {
    match (ty, place) {
        (Ty::Int, _) => Ok(INTS.get(place).map(|n| Value::Int(*n))),
        (Ty::Long, _) => Ok(LONGS.get(place).map(|n| Value::Long(*n))),
        (Ty::Bool, 0) => Ok(Some(Value::Bool(false))),
        (Ty::Bool, 1) => Ok(Some(Value::Bool(true))),
        (Ty::Text, 0) => Ok(Some(text(alloc, b"")?)),
        (Ty::Text, 1) => Ok(Some(text(alloc, b"a")?)),
        (Ty::Text, 2) => Ok(Some(Value::Null)),
        (Ty::Ref, 0) => Ok(Some(Value::Null)),
        (Ty::Ref, 1) => Ok(Some(Value::Ref(0))),
        (Ty::Ref, 2) => Ok(Some(Value::Ref(1))),
        (_, _) => Ok(None),
    }
}

fn push_value(line: &mut Vec<u8>, value: &Value) -> Result<(), AllocError> {
    match value {
        Value::Int(n) => line.extend_from_slice(Buffer::new().format(*n).as_bytes()),
        Value::Long(n) => line.extend_from_slice(Buffer::new().format(*n).as_bytes()),
        Value::Bool(true) => line.extend_from_slice(b"true"),
        Value::Bool(false) => line.extend_from_slice(b"false"),
        Value::Text(t) => {
            line.push(b'[')?;
            line.extend_from_slice(t.as_slice())?;
            line.push(b']')?;
            Ok(())
        }
        _ => line.extend_from_slice(b"odd"),
    }
}

fn push_given(line: &mut Vec<u8>, given: Result<Value, OpError>) -> Result<(), AllocError> {
    if !line.is_empty() {
        line.push(b' ')?;
    }
    match given {
        Ok(value) => push_value(line, &value),
        Err(OpError::Thrown(_)) => line.extend_from_slice(b"threw"),
        Err(OpError::NoMemory) => Err(AllocError),
    }
}

fn is_unary(op: Op) -> bool {
    matches!(
        op,
        Op::Neg | Op::Inv | Op::Not | Op::Widen | Op::Narrow | Op::Length
    )
}

fn line(alloc: Global, row: &OpRow) -> Result<Vec<u8>, AllocError> {
    let mut line = Vec::new(alloc);
    for i in 0..5 {
        for k in 0..5 {
            if is_unary(row.op) && i != k {
                continue;
            }
            if let (Some(a), Some(b)) = (
                operand(alloc, row.left, i)?,
                operand(alloc, row.right, k)?,
            ) {
                push_given(&mut line, apply(alloc, row.op, &a, &b))?;
            }
        }
    }
    Ok(line)
}

#[test]
fn each_row_gives_what_java_gives(rt: HostRuntime) -> Result<(), Fail> {
    let alloc = rt.alloc();
    for (row, given) in OPS.iter().zip(java::GIVEN.iter()) {
        assert_eq!(rt; line(alloc, row)?.as_slice(), given.as_bytes());
    }
    Ok(())
}

// An operand on the left and on the right of the text `a`.
const JOINED: [(Ty, usize, &[u8]); 4] = [
    (Ty::Int, 3, b"[-2147483648a] [a-2147483648]"),
    (
        Ty::Long,
        3,
        b"[-9223372036854775808a] [a-9223372036854775808]",
    ),
    (Ty::Bool, 1, b"[truea] [atrue]"),
    (Ty::Text, 2, b"[nulla] [anull]"),
];

fn joined(alloc: Global, ty: Ty, place: usize) -> Result<Vec<u8>, AllocError> {
    let mut line = Vec::new(alloc);
    let other = text(alloc, b"a")?;
    if let Some(value) = operand(alloc, ty, place)? {
        push_given(&mut line, apply(alloc, Op::Concat, &value, &other))?;
        push_given(&mut line, apply(alloc, Op::Concat, &other, &value))?;
    }
    Ok(line)
}

#[test]
fn all_types_but_references_are_joined(rt: HostRuntime) -> Result<(), Fail> {
    let alloc = rt.alloc();
    for (ty, place, want) in JOINED {
        assert_eq!(rt; joined(alloc, ty, place)?.as_slice(), want);
    }
    Ok(())
}

const COPIED: [(Ty, usize, &[u8]); 4] = [
    (Ty::Int, 3, b"-2147483648"),
    (Ty::Bool, 1, b"true"),
    (Ty::Text, 0, b"[]"),
    (Ty::Text, 1, b"[a]"),
];

fn copied(alloc: Global, ty: Ty, place: usize) -> Result<Vec<u8>, AllocError> {
    let mut line = Vec::new(alloc);
    if let Some(value) = operand(alloc, ty, place)? {
        push_value(&mut line, &value.copy(alloc)?)?;
    }
    Ok(line)
}

#[test]
fn values_are_copied(rt: HostRuntime) -> Result<(), Fail> {
    let alloc = rt.alloc();
    for (ty, place, want) in COPIED {
        assert_eq!(rt; copied(alloc, ty, place)?.as_slice(), want);
    }
    Ok(())
}

// Objects that are added one after the other, and the place of each.
const ADDED: [(Kind, u32, Result<u32, AddError>); 7] = [
    (Kind::Object(0), 1, Ok(0)),
    (Kind::Array(1), 2, Ok(1)),
    (Kind::Array(0), 50_001, Err(AddError::HeapFull)),
    (Kind::Array(0), 50_000, Ok(2)),
    (Kind::Array(0), 49_992, Ok(3)),
    (Kind::Object(0), 1, Err(AddError::HeapFull)),
    (Kind::Object(0), 0, Ok(4)),
];

fn nulls(alloc: Global, length: u32) -> Result<Values, AllocError> {
    let mut cells = Values::new(alloc);
    for _ in 0..length {
        cells.push(Value::Null)?;
    }
    Ok(cells)
}

#[test]
fn objects_are_added_while_there_is_room(rt: HostRuntime) -> Result<(), Fail> {
    let alloc = rt.alloc();
    let mut heap = Heap::new(alloc);
    for (kind, length, want) in ADDED {
        let cells = nulls(alloc, length)?;
        assert_eq!(rt; cells.len(), length as usize);
        let header = Header {
            kind,
            site: 0,
            length,
        };
        assert_eq!(rt; heap.add(header, cells), want);
    }
    Ok(())
}
