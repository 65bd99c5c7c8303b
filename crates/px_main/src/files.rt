//! The files of a command.
ghost use Rattle.std.specs.Prelude.{◌≡◌, ◌≤◌, List, ℕ, length, IfOk, IfSome, OnOk};
ghost use Rattle.std.specs.Option.{option_map};
ghost use Rattle.px_outside.specs.Causes.{Rose};
ghost use Rattle.px_outside.specs.Outside.{Handed};
ghost use Rattle.px_main.specs.Answers.{kept};
ghost use Rattle.px_main.specs.Read.{read_of};

use px_outside::{ReadError, Shelf, read_whole};
use std::alloc::Global;

/// Why a command ends before it writes.
#[derive(Clone, Copy, Debug, PartialEq, Eq)]
pub enum Stop {
    ReadFault,
    NoMemory,
}

/// What is kept of a file: its bytes, or nothing where there are more than the limit.
pub fn file<S: Shelf>(
    alloc: Global,
    shelf: &mut S,
    name: &str,
    limit: u32,
) -> Result<Option<Vec<u8>>, Stop>
    ensures file { IfOk result (λ got. IfSome (S.holds shelf.old name.now) (λ file. kept limit file ≡ option_map (λ v. v.items) got)) }
    ensures fits { IfOk result (λ got. IfSome got (λ bytes. length bytes.items ≤ limit)) }
    ensures holds { (other : List ℕ) → S.holds shelf.new other ≡ S.holds shelf.old other }
    ensures later { S.faults shelf.old ≤ S.faults shelf.new }
    ensures fault { result ≡ Err Stop.ReadFault → Rose (S.faults shelf.old) (S.faults shelf.new) }
    ensures unfailed { OnOk result (S.faults shelf.new ≡ S.faults shelf.old) }
    ensures handed { IfOk result (λ got. Handed (S.handed shelf.old) (read_of limit (option_map (λ v. v.items) got)) (S.handed shelf.new)) }
{
    match read_whole(alloc, shelf, name, limit) {
        Ok(bytes) => Ok(Some(bytes)),
        Err(ReadError::TooLong) => Ok(None),
        Err(ReadError::ReadFault) => Err(Stop::ReadFault),
        Err(ReadError::NoMemory) => Err(Stop::NoMemory),
    }
}
