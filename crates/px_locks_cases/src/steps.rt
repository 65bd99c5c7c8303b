//! Sessions that ask and release, one after the other.
use px_locks::{Asked, Item, LockBook, Mode, Want};
use std::alloc::{AllocError, Global};
use std::test::Fail;

const IS: Mode = Mode::IntentShared;

const IX: Mode = Mode::IntentExclusive;

const S: Mode = Mode::Shared;

const X: Mode = Mode::Exclusive;

// What a session is told: to go on, to wait for a holder, or to die of one.
const GO: (char, u16) = ('g', 0);

const GONE: (char, u16) = ('r', 0);

// A session with its own number as its stamp, what it asks for on the table, and what it is told. It releases where it asks for nothing.
const TABLE: [(u16, Option<Mode>, (char, u16)); 12] = [
    (2, Some(X), GO),
    (1, Some(S), ('w', 2)),
    (3, Some(S), ('d', 2)),
    // It doesn't meet its own lock.
    (2, Some(S), GO),
    (2, None, GONE),
    (1, Some(S), GO),
    (3, Some(S), GO),
    // Of two holders the older is named.
    (2, Some(X), ('d', 1)),
    (1, Some(X), ('w', 3)),
    (3, None, GONE),
    (1, Some(X), GO),
    (3, Some(S), ('d', 1)),
];

// A session, its mode on the table, the key with its mode, and what it is told.
const KEYS: [(u16, Mode, Option<(i64, Mode)>, (char, u16)); 11] = [
    (2, IX, Some((5, X)), GO),
    (3, IX, Some((6, X)), GO),
    (4, IS, Some((7, S)), GO),
    (4, IS, Some((5, S)), ('d', 2)),
    (1, IS, Some((6, S)), ('w', 3)),
    // Keys that differ by their sign alone are two items.
    (4, IX, Some((-5, X)), GO),
    (5, IS, Some((7, S)), GO),
    (5, IX, Some((7, X)), ('d', 4)),
    // A whole table meets each session that writes one of its keys.
    (1, S, None, ('w', 2)),
    (3, S, None, ('d', 2)),
    (1, IS, Some((0, S)), GO),
];

fn told(asked: Asked) -> (char, u16) {
    match asked {
        Asked::Granted => GO,
        Asked::Waits { holder } => ('w', holder),
        Asked::Dies { holder } => ('d', holder),
    }
}

fn want(table: u16, key: Option<i64>, mode: Mode) -> Want {
    Want {
        item: Item { table, key },
        mode,
    }
}

fn ask(book: &mut LockBook, session: u16, wants: &[Want]) -> Result<(char, u16), AllocError> {
    Ok(told(book.ask(session, u32::from(session), wants)?))
}

fn on_table(
    book: &mut LockBook,
    session: u16,
    mode: Option<Mode>,
) -> Result<(char, u16), AllocError> {
    match mode {
        Some(mode) => ask(book, session, [want(7, None, mode)].as_slice()),
        None => {
            book.release(session);
            Ok(GONE)
        }
    }
}

fn on_key(
    book: &mut LockBook,
    session: u16,
    mode: Mode,
    key: Option<(i64, Mode)>,
) -> Result<(char, u16), AllocError> {
    match key {
        Some((key, own)) => ask(
            book,
            session,
            [want(7, None, mode), want(7, Some(key), own)].as_slice(),
        ),
        None => ask(book, session, [want(7, None, mode)].as_slice()),
    }
}

#[test]
fn tables_are_locked_as_by_hand(rt: HostRuntime) -> Result<(), Fail> {
    let mut book = LockBook::new(rt.alloc());
    for (session, mode, expected) in TABLE {
        assert_eq!(rt; on_table(&mut book, session, mode)?, expected, "{session}");
    }
    Ok(())
}

#[test]
fn keys_are_locked_as_by_hand(rt: HostRuntime) -> Result<(), Fail> {
    let mut book = LockBook::new(rt.alloc());
    for (session, mode, key, expected) in KEYS {
        assert_eq!(rt;
            on_key(&mut book, session, mode, key)?,
            expected,
            "{session}"
        );
    }
    Ok(())
}

// Sessions 1 to 16 take 100 keys each.
fn full_book(alloc: Global) -> Result<LockBook, AllocError> {
    let mut book = LockBook::new(alloc);
    for session in 1..17u16 {
        for key in 0..100i64 {
            let key = i64::from(session) * 1000 + key;
            on_key(&mut book, session, IX, Some((key, X)))?;
        }
    }
    Ok(book)
}

#[test]
fn a_full_book_names_each_holder(rt: HostRuntime) -> Result<(), Fail> {
    let mut book = full_book(rt.alloc())?;
    for session in 1..17u16 {
        let key = i64::from(session) * 1000 + 99;
        assert_eq!(rt; on_key(&mut book, 17, IS, Some((key, S)))?, ('d', session));
        book.release(session);
        assert_eq!(rt; on_key(&mut book, 17, IS, Some((key, S)))?, GO);
    }
    Ok(())
}
