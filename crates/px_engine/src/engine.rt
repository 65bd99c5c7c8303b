//! The tables, the lock book, the history and the seats together.
ghost use Rattle.std.specs.Prelude.{◌≡◌, ◌<◌, ◌≤◌, ◌+◌, ◌++◌, ◌∷◌, [], ℕ, length, reverse, true, All, IfOk, OnOk, OnErr};
ghost use Rattle.px_rows.specs.Tables.{Tables as Rows};
ghost use Rattle.px_history.specs.declared.event.Event.{Event as History};
ghost use Rattle.px_history.specs.declared.event.Event.TheVariants.{Begin, End, Drop};
ghost use Rattle.px_history.specs.Attempts.{is_active};
ghost use Rattle.px_history.specs.Legal.{Calls, MayBegin, MayEnd, IsLegal};
ghost use Rattle.px_history.specs.Locking.{core_locks};
ghost use Rattle.px_engine.specs.Seats.{seat_at};
ghost use Rattle.px_engine.specs.Sound.{IsSound, IsSeated};
ghost use Rattle.px_engine.specs.Told.{IsNextCall, IsBegun, BeginLeaves, IsOpped, OpLeaves};

use crate::journal::Journal;
use crate::seat::{Seat, held_by, new_seats, seat_of};
use crate::wants::want_of;
use px_code::Done;
use px_history::{Event, is_throw};
use px_locks::{Asked, LockBook};
use px_rows::{Tables, Undo};
use px_value::{Answer, TableOp};
use std::alloc::{AllocError, Global};

/// The tables in place, the lock book, the history, and of each session its old rows and its seat.
#[derive(Drop)]
pub struct Engine {
    pub tables: Tables,
    pub book: LockBook,
    pub journal: Journal,
    pub undos: Vec<Undo>,
    pub seats: Vec<Seat>,
    /// How many calls have begun.
    pub begun: u32,
    /// How often a call may die and be tried again.
    pub retries: u16,
    pub alloc: Global,
}

#[derive(Drop)]
pub enum Begun {
    Began,
    /// The holder of which the call died last is in that call still.
    Waits { holder: u16 },
}

#[derive(Drop)]
pub enum Opped {
    Did(Answer),
    Waits { holder: u16, op: TableOp },
    Died { holder: u16 },
}

impl Engine {
    /// An engine without events, for sessions whose numbers are less than that.
    pub fn new(
        alloc: Global,
        tables: Tables,
        sessions: usize,
        retries: u16,
    ) -> Result<Engine, AllocError>
        requires retries { retries < 255 }
        ensures tables { IfOk result (λ e. e.tables ≡ tables) }
        ensures sound { IfOk result (λ e. (job : Calls) → job.retries ≡ retries → IsSound job tables e) }
        ensures empty { IfOk result (λ e. (e.journal.events ≡ []) × (e.journal.spare ≡ 0)) }
        ensures sessions { IfOk result (λ e. (length e.undos.items ≡ sessions) × (length e.seats.items ≡ sessions)) }
    {
        let mut undos = Vec::new(alloc);
        for _made in 0..sessions {
            undos.push(Undo::new(alloc))?;
        }
        let seats = new_seats(alloc, sessions)?;
        Ok(Engine {
            tables,
            book: LockBook::new(alloc),
            journal: Journal::new(alloc),
            undos,
            seats,
            begun: 0,
            retries,
            alloc,
        })
    }

    /// Begins the next attempt of a call, and leaves room for its end; or says whose call has to end before. Where no memory is found all is as before.
    pub fn begin(&mut self, session: u16, call: u64) -> Result<Begun, AllocError>
        requires seated { session < length self.old.seats.items }
        ensures told { (job : Calls) (T0 : Rows) → IsNextCall job (reverse self.old.journal.events) session call → IsSound job T0 self.old → IfOk result (λ told. IsBegun job told session call self.old.journal.events self.new.journal.events) }
        ensures sound { (job : Calls) (T0 : Rows) → IsNextCall job (reverse self.old.journal.events) session call → IsSound job T0 self.old → IsSound job T0 self.new }
        ensures spare { IfOk result (λ told. BeginLeaves told self.old.journal.spare self.new.journal.spare) }
        ensures places { (length self.new.undos.items ≡ length self.old.undos.items) × (length self.new.seats.items ≡ length self.old.seats.items) }
        ensures err { OnErr result (self.new ≡ self.old) }
    {
        let seat = seat_of(self.seats.as_slice(), session);
        match held_by(self.seats.as_slice(), self.retries, &seat, call) {
            Some(holder) => Ok(Begun::Waits { holder }),
            None => {
                self.attempt(session, call, seat.next_attempt(call))?;
                Ok(Begun::Began)
            }
        }
    }

    fn attempt(&mut self, session: u16, call: u64, attempt: u8) -> Result<(), AllocError>
        requires seated { session < length self.old.seats.items }
        ensures events { OnOk result (self.new.journal.events ≡ self.old.journal.events ++ Begin session call attempt ∷ []) }
        ensures sound { (job : Calls) (T0 : Rows) → MayBegin job (reverse self.old.journal.events) session call attempt → IsSound job T0 self.old → IsSound job T0 self.new }
        ensures spare { OnOk result (self.new.journal.spare ≡ self.old.journal.spare + 1) }
        ensures places { (length self.new.undos.items ≡ length self.old.undos.items) × (length self.new.seats.items ≡ length self.old.seats.items) }
        ensures err { OnErr result (self.new ≡ self.old) }
    {
        if self.begun >= 4_294_967_295 {
            return Err(AllocError);
        }
        self.journal.make_room(2)?;
        self.sit(session, call);
        self.journal.append(Event::Begin {
            session,
            call,
            attempt,
        });
        Ok(())
    }

    // A new call gets the next stamp, and a later attempt keeps its own.
    fn sit(&mut self, session: u16, call: u64)
        requires seated { session < length self.old.seats.items }
        requires stamps { self.old.begun < 4294967295 }
        ensures seated { (job : Calls) (attempt : ℕ) → IsLegal job core_locks (reverse self.old.journal.events) → MayBegin job (reverse self.old.journal.events) session call attempt → IsSeated job self.old.seats.items self.old.begun self.old.retries (reverse self.old.journal.events) → IsSeated job self.new.seats.items self.new.begun self.new.retries (Begin session call attempt ∷ reverse self.old.journal.events) }
        ensures seats { length self.new.seats.items ≡ length self.old.seats.items }
        ensures tables { self.new.tables ≡ self.old.tables }
        ensures book { self.new.book ≡ self.old.book }
        ensures journal { self.new.journal ≡ self.old.journal }
        ensures undos { self.new.undos ≡ self.old.undos }
    {
        let seat = seat_of(self.seats.as_slice(), session);
        self.seats[usize::from(session)] = seat.begun(call, self.begun + 1);
        if seat.call != call {
            self.begun += 1;
        }
    }

    /// Does the operation that the session asks, or tells it to wait, or ends its attempt. Where no memory is found all but room is as before.
    pub fn op(&mut self, session: u16, op: TableOp) -> Result<Opped, AllocError>
        requires listed { session < length self.old.undos.items }
        requires seated { session < length self.old.seats.items }
        requires room { 0 < self.old.journal.spare }
        ensures told { (job : Calls) (T0 : Rows) → is_active session (reverse self.old.journal.events) ≡ true → IsSound job T0 self.old → IfOk result (λ told. IsOpped T0 session op told self.old.journal.events self.new.journal.events) }
        ensures sound { (job : Calls) (T0 : Rows) → is_active session (reverse self.old.journal.events) ≡ true → IsSound job T0 self.old → IsSound job T0 self.new }
        ensures spare { IfOk result (λ told. OpLeaves told self.old.journal.spare self.new.journal.spare) }
        ensures room { OnOk result ((self.old.journal.spare ≤ self.new.journal.spare + 1) × (self.new.journal.spare ≤ self.old.journal.spare)) }
        ensures places { (length self.new.undos.items ≡ length self.old.undos.items) × (length self.new.seats.items ≡ length self.old.seats.items) }
        ensures err { OnErr result (self.new.journal.events ≡ self.old.journal.events) }
        ensures err_spare { OnErr result (self.old.journal.spare ≤ self.new.journal.spare) }
        ensures err_tables { OnErr result (self.new.tables ≡ self.old.tables) }
        ensures err_grants { OnErr result (self.new.book.grants ≡ self.old.book.grants) }
        ensures err_undos { OnErr result (self.new.undos.items ≡ self.old.undos.items) }
        ensures err_seats { OnErr result ((self.new.seats.items ≡ self.old.seats.items) × (self.new.begun ≡ self.old.begun)) }
    {
        let seat = seat_of(self.seats.as_slice(), session);
        let wants = [want_of(&op)];
        match self.book.asked(session, seat.stamp, wants.as_slice()) {
            Asked::Waits { holder } => Ok(Opped::Waits { holder, op }),
            Asked::Dies { holder } => {
                self.tables.undo(&mut self.undos[usize::from(session)]);
                self.book.release(session);
                let held = seat_of(self.seats.as_slice(), holder);
                self.seats[usize::from(session)] = seat.died(holder, held.call);
                self.journal.append(Event::Die {
                    session,
                    op,
                    holder,
                });
                Ok(Opped::Died { holder })
            }
            Asked::Granted => {
                let answer = self.tables.answer(self.alloc, &op)?;
                self.journal.make_room(1)?;
                self.book.room(1)?;
                self.tables
                    .apply(self.alloc, &op, &mut self.undos[usize::from(session)])?;
                self.book.grant(session, seat.stamp, wants.as_slice());
                self.journal.append(Event::Op { session, op });
                Ok(Opped::Did(answer))
            }
        }
    }

    /// Ends a call. It takes no memory.
    pub fn end(&mut self, session: u16, done: Done)
        requires listed { session < length self.old.undos.items }
        requires seated { session < length self.old.seats.items }
        requires room { 0 < self.old.journal.spare }
        ensures events { self.new.journal.events ≡ self.old.journal.events ++ End session done ∷ [] }
        ensures spare { self.new.journal.spare + 1 ≡ self.old.journal.spare }
        ensures places { (length self.new.undos.items ≡ length self.old.undos.items) × (length self.new.seats.items ≡ length self.old.seats.items) }
        ensures sound { (job : Calls) (T0 : Rows) → MayEnd job (reverse self.old.journal.events) session done → IsSound job T0 self.old → IsSound job T0 self.new }
    {
        if is_throw(&done.reply) {
            self.tables.undo(&mut self.undos[usize::from(session)]);
        } else {
            self.undos[usize::from(session)].clear();
        }
        self.book.release(session);
        let place = usize::from(session);
        self.seats[place] = self.seats[place].closed();
        self.journal.append(Event::End { session, done });
    }

    /// Gives a call up. It takes no memory.
    pub fn drop_call(&mut self, session: u16)
        requires listed { session < length self.old.undos.items }
        requires seated { session < length self.old.seats.items }
        requires room { 0 < self.old.journal.spare }
        ensures events { self.new.journal.events ≡ self.old.journal.events ++ Drop session ∷ [] }
        ensures spare { self.new.journal.spare + 1 ≡ self.old.journal.spare }
        ensures places { (length self.new.undos.items ≡ length self.old.undos.items) × (length self.new.seats.items ≡ length self.old.seats.items) }
        ensures sound { (job : Calls) (T0 : Rows) → is_active session (reverse self.old.journal.events) ≡ true → IsSound job T0 self.old → IsSound job T0 self.new }
    {
        self.tables.undo(&mut self.undos[usize::from(session)]);
        self.book.release(session);
        let place = usize::from(session);
        self.seats[place] = self.seats[place].dropped();
        self.journal.append(Event::Drop { session });
    }

    /// The events in their order.
    pub fn history(&self) -> &[Event]
        ensures { result.now ≡ self.now.journal.events }
    {
        self.journal.as_slice()
    }

    pub fn tables(&self) -> &Tables
        ensures { result.now ≡ self.now.tables }
    {
        &self.tables
    }
}
