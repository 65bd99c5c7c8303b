//! Modes of locks.
ghost use Rattle.std.specs.Prelude.{◌≡◌};
ghost use Rattle.px_locks.specs.Locks.{goes_with, same_mode};

/// How an item is locked. The intention modes are for a table, some of whose keys are locked.
#[derive(Clone, Copy, Debug, Drop)]
pub enum Mode {
    IntentShared,
    IntentExclusive,
    Shared,
    Exclusive,
}

/// Two sessions may hold an item in these modes.
pub fn go_together(held: Mode, wanted: Mode) -> bool
    ensures { result ≡ goes_with held wanted }
{
    match (held, wanted) {
        (Mode::IntentShared, Mode::Exclusive) => false,
        (Mode::IntentShared, _) => true,
        (Mode::IntentExclusive, Mode::IntentShared) => true,
        (Mode::IntentExclusive, Mode::IntentExclusive) => true,
        (Mode::Shared, Mode::IntentShared) => true,
        (Mode::Shared, Mode::Shared) => true,
        _ => false,
    }
}

pub(crate) fn is_same_mode(a: Mode, b: Mode) -> bool
    ensures { result ≡ same_mode a b }
{
    match (a, b) {
        (Mode::IntentShared, Mode::IntentShared) => true,
        (Mode::IntentExclusive, Mode::IntentExclusive) => true,
        (Mode::Shared, Mode::Shared) => true,
        (Mode::Exclusive, Mode::Exclusive) => true,
        _ => false,
    }
}
