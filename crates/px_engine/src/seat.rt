//! What the engine keeps of each session.
ghost use Rattle.std.specs.Prelude.{◌≡◌, ◌<◌, ◌+◌, All, IfOk, length};
ghost use Rattle.px_engine.specs.Seats.{new_seat, seat_at, has_passed, is_held, begun_seat, died_seat, ended_seat, dropped_seat, deaths_in, held_by};

use std::alloc::{AllocError, Global};

/// The holder that killed a call, with the call that it was in.
#[derive(Clone, Copy, Debug, Drop)]
pub struct KilledBy {
    pub session: u16,
    pub call: u64,
}

/// The call that a session began last: whether it is open, whether it has ended, its stamp, its deaths and who killed it last.
#[derive(Clone, Copy, Debug, Drop)]
pub struct Seat {
    pub call: u64,
    pub active: bool,
    pub ended: bool,
    pub stamp: u32,
    pub deaths: u8,
    pub killer: Option<KilledBy>,
}

fn one_more(deaths: u8) -> u8
    ensures { deaths < 255 → result ≡ deaths + 1 }
{
    deaths.saturating_add(1)
}

impl Seat {
    /// Before the first call.
    pub fn new() -> Seat
        ensures { result ≡ new_seat }
    {
        Seat {
            call: 0,
            active: false,
            ended: false,
            stamp: 0,
            deaths: 0,
            killer: None,
        }
    }

    /// This call of the session is over.
    pub fn has_passed(&self, retries: u16, call: u64) -> bool
        ensures { result ≡ has_passed self.now retries call }
    {
        call < self.call || (call == self.call && (self.ended || retries < u16::from(self.deaths)))
    }

    /// The seat once this call is begun, with this stamp if for the first time.
    pub fn begun(&self, call: u64, stamp: u32) -> Seat
        ensures { result ≡ begun_seat call stamp self.now }
    {
        if self.call == call {
            Seat {
                active: true,
                ..*self
            }
        } else {
            Seat {
                call,
                active: true,
                ended: false,
                stamp,
                deaths: 0,
                killer: None,
            }
        }
    }

    /// The attempt died of a holder in this call.
    pub fn died(&self, holder: u16, call: u64) -> Seat
        ensures { self.now.deaths < 255 → result ≡ died_seat holder call self.now }
    {
        Seat {
            active: false,
            deaths: one_more(self.deaths),
            killer: Some(KilledBy {
                session: holder,
                call,
            }),
            ..*self
        }
    }

    pub fn closed(&self) -> Seat
        ensures { result ≡ ended_seat self.now }
    {
        Seat {
            active: false,
            ended: true,
            ..*self
        }
    }

    pub fn dropped(&self) -> Seat
        ensures { result ≡ dropped_seat self.now }
    {
        Seat {
            active: false,
            ..*self
        }
    }

    /// The number of the call's next attempt.
    pub fn next_attempt(&self, call: u64) -> u8
        ensures { deaths_in self.now call < 255 → result ≡ deaths_in self.now call + 1 }
    {
        one_more(if self.call == call { self.deaths } else { 0 })
    }
}

/// The seat of a session.
pub fn seat_of(seats: &[Seat], session: u16) -> Seat
    ensures { result ≡ seat_at seats.now session }
{
    let place = usize::from(session);
    if place < seats.len() {
        seats[place]
    } else {
        Seat::new()
    }
}

fn is_held(seats: &[Seat], retries: u16, killer: KilledBy) -> bool
    ensures { result ≡ is_held seats.now retries killer }
{
    !seat_of(seats, killer.session).has_passed(retries, killer.call)
}

/// The session whose call has to end before this one is begun.
pub fn held_by(seats: &[Seat], retries: u16, seat: &Seat, call: u64) -> Option<u16>
    ensures { result ≡ held_by seats.now retries seat.now call }
{
    if seat.call != call {
        return None;
    }
    match seat.killer {
        None => None,
        Some(killer) => {
            if is_held(seats, retries, killer) {
                Some(killer.session)
            } else {
                None
            }
        }
    }
}

/// Seats without calls, one for each number below.
pub fn new_seats(alloc: Global, sessions: usize) -> Result<Vec<Seat>, AllocError>
    ensures many { IfOk result (λ v. length v.items ≡ sessions) }
    ensures new { IfOk result (λ v. All (λ t. t ≡ new_seat) v.items) }
{
    let mut seats = Vec::new(alloc);
    for _made in 0..sessions {
        seats.push(Seat::new())?;
    }
    Ok(seats)
}
