//! The granted wants of all sessions.
ghost use Rattle.std.specs.Prelude.{◌≡◌, ◌≢◌, ◌≤◌, ◌<◌, ◌+◌, [], ◌∷◌, length, IfOk, OnOk, vec_len, vec_capacity};
ghost use Rattle.px_locks.specs.Locks.{IsTold, IsJoined, granted, without, older, oldest_at, oldest_from, stands_in};
ghost use Rattle.px_locks.specs.Spots.{IsInOrder};
ghost use Rattle.px_locks.specs.declared.book.Asked.TheVariants.{Granted};

use crate::spot::{at, below, spot};
use crate::want::{Grant, Want, is_same_grant, stands_against};
use std::alloc::{AllocError, Global};
use std::marker::Model;

/// The answer to a session that asks.
#[derive(Clone, Copy, Debug, Drop)]
pub enum Asked {
    Granted,
    Waits { holder: u16 },
    Dies { holder: u16 },
}

fn older_of(best: Option<Grant>, grant: Grant) -> Option<Grant>
    ensures { result ≡ older best grant }
{
    match best {
        None => Some(grant),
        Some(held) => {
            if grant.stamp < held.stamp {
                Some(grant)
            } else {
                Some(held)
            }
        }
    }
}

/// The grant with the least stamp that stands against a want.
fn oldest_in(grants: &[Grant], session: u16, want: Want, before: Option<Grant>) -> Option<Grant>
    ensures { result ≡ oldest_at session want before grants.now }
{
    let mut best = before;
    for grant in grants.iter() {
        if stands_against(*grant, session, want) {
            best = older_of(best, *grant);
        }
    }
    best
}

/// The same, of sorted grants: those of other items are passed over.
fn oldest_of(grants: &[Grant], session: u16, want: Want, before: Option<Grant>) -> Option<Grant>
    requires sorted { IsInOrder grants.now }
    ensures { result ≡ oldest_at session want before grants.now }
{
    oldest_in(at(grants, want.item), session, want, before)
}

fn stands_among(grants: &[Grant], grant: Grant) -> bool
    ensures { result ≡ stands_in grant grants.now }
{
    match grants {
        [] => false,
        [first, rest @ ..] => is_same_grant(*first, grant) || stands_among(rest, grant),
    }
}

fn stands(grants: &[Grant], grant: Grant) -> bool
    requires sorted { IsInOrder grants.now }
    ensures { result ≡ stands_in grant grants.now }
{
    stands_among(at(grants, grant.want.item), grant)
}

/// Puts a grant in its place, unless it stands already.
fn put(grants: &mut Vec<Grant>, grant: Grant)
    requires sorted { IsInOrder grants.old.items }
    requires room { vec_len grants.old < vec_capacity grants.old }
    ensures sorted { IsInOrder grants.new.items }
    ensures items { IsJoined grants.old.items (grant ∷ []) grants.new.items }
    ensures len { vec_len grants.new ≤ vec_len grants.old + 1 }
    ensures capacity { vec_capacity grants.old ≤ vec_capacity grants.new }
{
    if !stands(grants.as_slice(), grant) {
        insert(grants, grant);
    }
}

fn insert(grants: &mut Vec<Grant>, grant: Grant)
    requires sorted { IsInOrder grants.old.items }
    requires room { vec_len grants.old < vec_capacity grants.old }
    ensures sorted { IsInOrder grants.new.items }
    ensures items { IsJoined grants.old.items (grant ∷ []) grants.new.items }
    ensures len { vec_len grants.new ≤ vec_len grants.old + 1 }
    ensures capacity { vec_capacity grants.old ≤ vec_capacity grants.new }
{
    let place = below(grants.as_slice(), spot(grant.want.item));
    grants.insert(place, grant).unwrap();
}

/// The grants are in order of their items, and each stands once: an item has as many as there are sessions and modes that hold it.
#[derive(Drop)]
pub struct LockBook {
    grants: Vec<Grant>,
    spare: usize,
}

impl Model for LockBook {
    ghost use Rattle.std.specs.Prelude.{◌+◌, ◌≤◌, vec_len, vec_capacity};
    ghost use Rattle.px_locks.specs.Locks.{Book};
    ghost use Rattle.px_locks.specs.Spots.{IsInOrder};

    ghost Value = { Book };

    ghost view = { λ b. record { grants = b.grants.items; spare = b.spare } };

    ghost invariant = { λ b. IsInOrder b.grants.items × (vec_len b.grants + b.spare ≤ vec_capacity b.grants) };
}

impl LockBook {
    pub fn new(alloc: Global) -> LockBook
        ensures { result.grants ≡ [] }
    {
        LockBook {
            grants: Vec::new(alloc),
            spare: 0,
        }
    }

    /// What a session that asks is told, before anything changes. It takes no memory.
    pub fn asked(&self, session: u16, stamp: u32, wants: &[Want]) -> Asked
        ensures { IsTold self.now.grants session stamp wants.now result }
    {
        match self.oldest_against(session, wants) {
            Some(grant) => {
                if grant.stamp < stamp {
                    Asked::Dies {
                        holder: grant.session,
                    }
                } else {
                    Asked::Waits {
                        holder: grant.session,
                    }
                }
            }
            None => Asked::Granted,
        }
    }

    fn oldest_against(&self, session: u16, wants: &[Want]) -> Option<Grant>
        ensures { result ≡ oldest_from session wants.now None self.now.grants }
    {
        let mut best: Option<Grant> = None;
        for want in wants.iter() {
            best = oldest_of(self.grants.as_slice(), session, *want, best);
        }
        best
    }

    /// Takes room for more grants, or leaves all as it was.
    pub fn room(&mut self, more: usize) -> Result<(), AllocError>
        ensures ok { OnOk result (more ≤ self.new.spare) }
        ensures grants { self.new.grants ≡ self.old.grants }
    {
        if self.spare < more {
            self.grants.reserve(more)?;
            self.spare = more;
        }
        Ok(())
    }

    /// Grants the wants, each once. It takes no memory.
    pub fn grant(&mut self, session: u16, stamp: u32, wants: &[Want])
        requires room { length wants.now ≤ self.old.spare }
        ensures grants { IsJoined self.old.grants (granted session stamp wants.now) self.new.grants }
        ensures spare { self.new.spare + length wants.now ≡ self.old.spare }
    {
        for want in wants.iter() {
            self.add(Grant {
                session,
                stamp,
                want: *want,
            });
        }
    }

    fn add(&mut self, grant: Grant)
        requires room { 0 < self.old.spare }
        ensures grants { IsJoined self.old.grants (grant ∷ []) self.new.grants }
        ensures spare { self.new.spare + 1 ≡ self.old.spare }
    {
        self.spare -= 1;
        put(&mut self.grants, grant);
    }

    /// Grants all wants or none. A session never meets its own.
    pub fn ask(&mut self, session: u16, stamp: u32, wants: &[Want]) -> Result<Asked, AllocError>
        ensures told { IfOk result (λ a. IsTold self.old.grants session stamp wants.now a) }
        ensures granted { result ≡ Ok Granted → IsJoined self.old.grants (granted session stamp wants.now) self.new.grants }
        ensures refused { result ≢ Ok Granted → self.new.grants ≡ self.old.grants }
    {
        let asked = self.asked(session, stamp, wants);
        match asked {
            Asked::Granted => {
                self.room(wants.len())?;
                self.grant(session, stamp, wants);
                Ok(Asked::Granted)
            }
            _ => Ok(asked),
        }
    }

    /// Drops all grants of a session. It takes no memory.
    pub fn release(&mut self, session: u16)
        ensures grants { self.new.grants ≡ without session self.old.grants }
        ensures spare { self.new.spare ≡ self.old.spare }
    {
        self.grants.retain(|grant| grant.session != session);
    }
}
