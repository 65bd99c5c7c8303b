//! The real outside: the system's files and standard output.
//!
//! What these two read and write is the system's word, so they tell no content.

ghost use Rattle.std.specs.Prelude.{◌≡◌, ◌≤◌, ◌<◌, ◌+◌, ◌-◌, ◌^◌, min, ℕ, List, length, Option, None, IfSome, IfOk, MatchResult};
ghost use Rattle.px_outside.specs.Causes.{HasCause, Rose};
ghost use Rattle.px_outside.specs.Outside.{Handed, IsPieceAt, Takes};

use crate::{Failed, Shelf, Sink};
use std::io::{Read, Seek, SeekFrom, Write};
use std::rt::Files;
use std::{fs, io};

/// The files that the system names.
#[derive(Drop)]
pub struct StdShelf<'a, R: Files> {
    files: &'a R,
    faults: u64,
    handed: u64,
}

impl<'a, R: Files> StdShelf<'a, R> {
    /// A shelf that has not failed yet.
    pub fn new(files: &'a R) -> StdShelf<'a, R> {
        StdShelf {
            files,
            faults: 0,
            handed: 0,
        }
    }
}

// Opens the file anew for each piece, and so holds no name.
fn read_at<R: Files>(files: &R, name: &str, from: u64, into: &mut [u8]) -> io::Result<usize>
    ensures { IfOk result (λ n. n ≤ length into.old) }
{
    let mut file = fs::open(files, name)?;
    file.seek(SeekFrom::Start(from))?;
    file.read(into)
}

impl<R: Files> Shelf for StdShelf<'_, R> {
    ghost holds = { λ _ _. None };

    ghost faults = { λ shelf. shelf.faults };

    ghost handed = { λ shelf. shelf.handed };

    fn read(&mut self, name: &str, from: u64, into: &mut [u8]) -> Result<usize, Failed> {
        match read_at(self.files, name, from, into) {
            Ok(count) => {
                self.handed = self.handed.saturating_add(count as u64);
                Ok(count)
            }
            Err(_) => {
                self.faults = self.faults.saturating_add(1);
                Err(Failed)
            }
        }
    }
}

/// Standard output.
#[derive(Drop)]
pub struct StdSink<'a, P: Print> {
    printer: &'a P,
    faults: u64,
}

impl<'a, P: Print> StdSink<'a, P> {
    /// A sink that has not failed yet.
    pub fn new(printer: &'a P) -> StdSink<'a, P> {
        StdSink { printer, faults: 0 }
    }
}

impl<P: Print> Sink for StdSink<'_, P> {
    ghost taken = { λ _. None };

    ghost faults = { λ sink. sink.faults };

    fn write(&mut self, bytes: &[u8]) -> Result<usize, Failed> {
        if bytes.is_empty() {
            return Ok(0);
        }
        match io::writer(self.printer).write(bytes) {
            Ok(count) if count > 0 => Ok(count),
            _ => {
                self.faults = self.faults.saturating_add(1);
                Err(Failed)
            }
        }
    }
}
