//! What a lock is held on, by whom, and in which mode.
ghost use Rattle.std.specs.Prelude.{◌≡◌};
ghost use Rattle.px_locks.specs.Locks.{same_item, same_key, is_against, same_grant};

use crate::mode::{Mode, go_together, is_same_mode};

/// A table, or one key of it.
#[derive(Clone, Copy, Debug, Drop)]
pub struct Item {
    pub table: u16,
    pub key: Option<i64>,
}

#[derive(Clone, Copy, Debug, Drop)]
pub struct Want {
    pub item: Item,
    pub mode: Mode,
}

/// A want that was granted to a session.
#[derive(Clone, Copy, Debug, Drop)]
pub struct Grant {
    pub session: u16,
    pub stamp: u32,
    pub want: Want,
}

fn is_same_key(a: Option<i64>, b: Option<i64>) -> bool
    ensures { result ≡ same_key a b }
{
    match a {
        Some(x) => match b {
            Some(y) => x == y,
            None => false,
        },
        None => b.is_none(),
    }
}

fn is_same_item(a: Item, b: Item) -> bool
    ensures { result ≡ same_item a b }
{
    a.table == b.table && is_same_key(a.key, b.key)
}

pub(crate) fn is_same_grant(a: Grant, b: Grant) -> bool
    ensures { result ≡ same_grant a b }
{
    a.session == b.session
        && a.stamp == b.stamp
        && is_same_item(a.want.item, b.want.item)
        && is_same_mode(a.want.mode, b.want.mode)
}

/// The grant keeps a session from its want.
pub(crate) fn stands_against(grant: Grant, session: u16, want: Want) -> bool
    ensures { result ≡ is_against session want grant }
{
    grant.session != session
        && is_same_item(grant.want.item, want.item)
        && !go_together(grant.want.mode, want.mode)
}
