//! What of files and sinks no clause says.
use px_outside::{
    File, MemoryShelf, MemorySink, ReadError, StdShelf, StdSink, WriteFault, read_i64, read_u64,
    read_whole, write_all,
};
use std::test::Fail;
use std::{env, fs, process};

#[test]
fn a_sink_that_fails_keeps_a_front(rt: HostRuntime) -> Result<(), Fail> {
    let alloc = rt.alloc();
    let mut sink = MemorySink::new(alloc, 1, vec![in alloc; 3]?);
    assert_eq!(rt; write_all(&mut sink, b"history"), Err(WriteFault));
    assert_eq!(rt; sink.taken(), b"hi".as_slice());
    assert_eq!(rt; write_all(&mut sink, b"gh"), Ok(()));
    assert_eq!(rt; sink.taken(), b"high".as_slice());
    Ok(())
}

#[test]
fn a_file_is_read_up_to_its_limit(rt: HostRuntime) -> Result<(), Fail> {
    let alloc = rt.alloc();
    let name = b"a".to_vec(alloc)?;
    let bytes = b"four".to_vec(alloc)?;
    let files = vec![in alloc; File { name, bytes }]?;
    let mut shelf = MemoryShelf::new(files, vec![in alloc; 8]?);
    let read = read_whole(alloc, &mut shelf, "a", 4)?;
    assert_eq!(rt; read.as_slice(), b"four".as_slice());
    let read = read_whole(alloc, &mut shelf, "a", 3);
    assert_eq!(rt; read.err(), Some(ReadError::TooLong));
    let read = read_whole(alloc, &mut shelf, "b", 3);
    assert_eq!(rt; read.err(), Some(ReadError::ReadFault));
    // The seventh call reads the file, and the eighth looks for its end.
    let read = read_whole(alloc, &mut shelf, "a", 4)?;
    assert_eq!(rt; read.len(), 4);
    let read = read_whole(alloc, &mut shelf, "a", 5);
    assert_eq!(rt; read.err(), Some(ReadError::ReadFault));
    Ok(())
}

#[test]
fn the_system_has_files_and_an_output(rt: HostRuntime) -> Result<(), Fail> {
    let alloc = rt.alloc();
    // Two runs at once have a file each.
    let folder = env::temp_dir(&rt)?;
    let run = process::id(rt.process());
    let path = format!(in alloc; "{}/px_run_cases_{run}", folder.display())?;
    let text = vec![in alloc; b'x'; 100_000]?;
    fs::write(&rt, &path, text.as_slice())?;
    let mut shelf = StdShelf::new(&rt);
    let read = read_whole(alloc, &mut shelf, &path, 100_000);
    fs::remove_file(&rt, &path)?;
    assert!(rt; read? == text);
    let read = read_whole(alloc, &mut shelf, &path, 100_000);
    assert_eq!(rt; read.err(), Some(ReadError::ReadFault));
    let read = read_whole(alloc, &mut shelf, "/", 100_000);
    assert_eq!(rt; read.err(), Some(ReadError::ReadFault));
    let read = read_whole(alloc, &mut shelf, "/dev/zero", 100_000);
    assert_eq!(rt; read.err(), Some(ReadError::TooLong));
    let mut sink = StdSink::new(&rt);
    assert_eq!(rt; write_all(&mut sink, b"written\n"), Ok(()));
    Ok(())
}

// A text, and the numbers that it is.
const NUMBERS: [(&str, Option<u64>, Option<i64>); 15] = [
    ("", None, None),
    ("-", None, None),
    ("+1", None, None),
    ("--1", None, None),
    ("1x", None, None),
    ("0", Some(0), Some(0)),
    ("-0", None, Some(0)),
    ("00000000000000000000000000000007", Some(7), Some(7)),
    (
        "9223372036854775807",
        Some(9223372036854775807),
        Some(i64::MAX),
    ),
    ("9223372036854775808", Some(9223372036854775808), None),
    ("-9223372036854775808", None, Some(i64::MIN)),
    ("-9223372036854775809", None, None),
    ("18446744073709551615", Some(u64::MAX), None),
    ("18446744073709551616", None, None),
    ("99999999999999999999999999999999", None, None),
];

#[test]
fn numbers_are_decimal(rt: HostRuntime) -> Result<(), Fail> {
    for (text, unsigned, signed) in NUMBERS {
        assert_eq!(rt; read_u64(text.as_bytes()), unsigned, "{text}");
        assert_eq!(rt; read_i64(text.as_bytes()), signed, "{text}");
    }
    Ok(())
}
