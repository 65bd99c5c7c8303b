//! A heap of one array, written, closed and taken back; lines that are printed.
use px_acts::{Prints, Store, load, make_array, sent, store_element};
use px_value::{Heap, Value, Values};
use std::alloc::{AllocError, Global};
use std::test::Fail;

// An array of three ints, or nothing where none can be made.
fn store_of_one(alloc: Global) -> Result<Store, AllocError> {
    let mut store = Store::new(alloc, Heap::new(alloc));
    match make_array(alloc, &mut store, 0, 1, &Value::Int(3)) {
        Ok(_) => Ok(store),
        Err(_) => Err(AllocError),
    }
}

fn wrote(store: &mut Store, index: i32, value: i32) -> bool {
    match store_element(store, &Value::Ref(0), &Value::Int(index), Value::Int(value)) {
        Ok(done) => done.wrote.is_some(),
        Err(_) => false,
    }
}

// The element, or -1 where it throws.
fn element(alloc: Global, store: &Store, index: i32) -> i32 {
    match load(alloc, store, &Value::Ref(0), &Value::Int(index)) {
        Ok(Value::Int(n)) => n,
        _ => -1,
    }
}

#[test]
fn what_was_written_since_the_close_is_taken_back(rt: HostRuntime) -> Result<(), Fail> {
    let alloc = rt.alloc();
    let mut store = store_of_one(alloc)?;
    store.close();
    for turn in 0..1000 {
        assert!(rt; wrote(&mut store, 1, turn));
    }
    assert_eq!(rt; element(alloc, &store, 1), 999);
    store.roll_back();
    assert_eq!(rt; element(alloc, &store, 1), 0);
    Ok(())
}

#[test]
fn what_was_closed_stays(rt: HostRuntime) -> Result<(), Fail> {
    let alloc = rt.alloc();
    let mut store = store_of_one(alloc)?;
    assert!(rt; wrote(&mut store, 2, 7));
    store.close();
    assert!(rt; wrote(&mut store, 2, 8));
    store.roll_back();
    assert_eq!(rt; element(alloc, &store, 2), 7);
    assert_eq!(rt; element(alloc, &store, 3), -1);
    Ok(())
}

fn printed(alloc: Global, value: &Value) -> Result<bool, AllocError> {
    let mut prints = Prints::new(alloc);
    let came = prints.print_line(alloc, value);
    Ok(came.is_ok() && prints.as_slice().len() == 1)
}

#[test]
fn lines_are_printed(rt: HostRuntime) -> Result<(), Fail> {
    let alloc = rt.alloc();
    assert!(rt; printed(alloc, &Value::Int(-5))?);
    assert!(rt; printed(alloc, &Value::Null)?);
    Ok(())
}

#[test]
fn values_are_sent(rt: HostRuntime) -> Result<(), Fail> {
    let alloc = rt.alloc();
    let mut values = Values::new(alloc);
    values.push(Value::Long(1))?;
    assert!(rt; sent(values).is_ok());
    Ok(())
}
