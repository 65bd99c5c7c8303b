//! Words that are no command, and an outside that fails.
use super::{JOB, PROGRAM, RUN, TEXT, shelf, sink, status};
use px_outside::{MemorySink, StdShelf, StdSink};
use std::fmt::Display;
use std::io::{self, ErrorKind};
use std::test::Fail;

#[test]
fn other_words_are_no_command(rt: HostRuntime) -> Result<(), Fail> {
    let alloc = rt.alloc();
    let mut shelf = shelf(alloc, PROGRAM.as_bytes(), JOB.as_bytes(), Vec::new(alloc))?;
    let mut sink = sink(alloc);
    let words: [&[&str]; 12] = [
        &[],
        &["run"],
        &["run", "p"],
        &["run", "p", "j", "x"],
        &["run", "", "j"],
        &["run", "p", ""],
        &["check", ""],
        &["check", "p", "j"],
        &["Run", "p", "j"],
        &["solo", "p"],
        &["solo", "p", ""],
        &["solos", "p", "j"],
    ];
    for words in words {
        let status = status(alloc, words, &mut shelf, &mut sink)?;
        assert_eq!(rt; status, 1, "{words:?}");
        assert!(rt; sink.taken().is_empty(), "{words:?}");
    }
    Ok(())
}

#[test]
fn a_read_may_fail(rt: HostRuntime) -> Result<(), Fail> {
    let alloc = rt.alloc();
    // Each file takes two reads: its bytes, and its end.
    for (fails, want, text) in [(1, 2, ""), (2, 2, ""), (3, 2, ""), (4, 2, ""), (5, 0, TEXT)] {
        let fails = vec![in alloc; fails]?;
        let mut shelf = shelf(alloc, PROGRAM.as_bytes(), JOB.as_bytes(), fails)?;
        let mut sink = sink(alloc);
        let status = status(alloc, &RUN, &mut shelf, &mut sink)?;
        assert_eq!(rt; status, want);
        assert_eq!(rt; sink.taken(), text.as_bytes());
    }
    Ok(())
}

// A program, and words that name a file that isn't there: both are read before the program is judged.
const MISSING: [(&str, [&str; 3]); 4] = [
    (PROGRAM, ["run", "q", "j"]),
    (PROGRAM, ["run", "p", "q"]),
    ("class Main {", ["run", "p", "q"]),
    ("class Main {", ["solo", "p", "q"]),
];

#[test]
fn a_file_may_be_missing(rt: HostRuntime) -> Result<(), Fail> {
    let alloc = rt.alloc();
    for (program, words) in MISSING {
        let mut shelf = shelf(alloc, program.as_bytes(), JOB.as_bytes(), Vec::new(alloc))?;
        let mut sink = sink(alloc);
        let status = status(alloc, &words, &mut shelf, &mut sink)?;
        assert_eq!(rt; status, 2, "{words:?}");
        assert!(rt; sink.taken().is_empty(), "{words:?}");
    }
    Ok(())
}

// The program, the job, the write that fails, the status, what was taken till then.
type Cut = (&'static str, &'static str, u32, u8, &'static str);

const CUTS: [Cut; 6] = [
    (PROGRAM, JOB, 1, 3, ""),
    (PROGRAM, JOB, 7, 3, "calls\n"),
    // A refusal stays one.
    ("class Main {", "", 1, 5, ""),
    ("class Main {", "", 9, 5, "program "),
    (PROGRAM, "call 2 add 4", 1, 6, ""),
    (PROGRAM, "call 2 add 4", 5, 6, "job "),
];

#[test]
fn a_write_may_fail(rt: HostRuntime) -> Result<(), Fail> {
    let alloc = rt.alloc();
    for (program, job, fails, want, text) in CUTS {
        let mut shelf = shelf(alloc, program.as_bytes(), job.as_bytes(), Vec::new(alloc))?;
        let mut sink = MemorySink::new(alloc, 1, vec![in alloc; fails]?);
        let status = status(alloc, &RUN, &mut shelf, &mut sink)?;
        assert_eq!(rt; status, want);
        assert_eq!(rt; sink.taken(), text.as_bytes());
    }
    Ok(())
}

#[test]
fn the_system_may_lack_a_file(rt: HostRuntime) -> Result<(), Fail> {
    let alloc = rt.alloc();
    let mut shelf = StdShelf::new(&rt);
    let mut sink = sink(alloc);
    let words = ["run", "/a file that nobody wrote", "/dev/null"];
    let status = status(alloc, &words, &mut shelf, &mut sink)?;
    assert_eq!(rt; status, 2);
    assert!(rt; sink.taken().is_empty());
    Ok(())
}

// A device without space.
struct Full;

impl Print for Full {
    fn print<D: Display + Drop>(&self, _value: D) -> io::Result<()> {
        Err(ErrorKind::StorageFull.into())
    }

    fn println<D: Display + Drop>(&self, _value: D) -> io::Result<()> {
        Err(ErrorKind::StorageFull.into())
    }

    fn write_all(&self, _bytes: &[u8]) -> io::Result<()> {
        Err(ErrorKind::StorageFull.into())
    }
}

#[test]
fn an_output_may_be_full(rt: HostRuntime) -> Result<(), Fail> {
    let alloc = rt.alloc();
    let mut shelf = shelf(alloc, PROGRAM.as_bytes(), JOB.as_bytes(), Vec::new(alloc))?;
    let mut sink = StdSink::new(&Full);
    let status = status(alloc, &RUN, &mut shelf, &mut sink)?;
    assert_eq!(rt; status, 3);
    Ok(())
}
