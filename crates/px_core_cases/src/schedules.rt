//! Random schedules: what the sessions were told is what their calls are told one at a time, in the order of their ends.
use crate::sessions::{begin, done, end, op, read, set, tables};
use px_code::Reply;
use px_engine::Engine;
use std::alloc::{AllocError, Global};
use std::test::Fail;

const SESSIONS: u16 = 4;

const CALLS: i64 = 3;

// A session in its call: which operation is next, and what the first was told.
#[derive(Clone, Copy, Debug, Drop)]
struct Going {
    call: i64,
    is_open: bool,
    is_second: bool,
    first: (char, i64),
}

// A call that ended, with what its two operations were told.
#[derive(Clone, Copy, Debug, Drop)]
struct Ended {
    session: u16,
    call: i64,
    first: (char, i64),
    second: (char, i64),
}

fn mixed(n: u64) -> u64 {
    n.wrapping_mul(6_364_136_223_846_793_005)
        .wrapping_add(1_442_695_040_888_963_407)
}

// What an operation of a call sets, or none where it reads.
fn value_of(seed: u64, session: u16, call: i64, is_second: bool) -> Option<i64> {
    let number = seed
        .wrapping_add(u64::from(session).wrapping_mul(1_000))
        .wrapping_add(call.cast_unsigned().wrapping_mul(10))
        .wrapping_add(if is_second { 1 } else { 0 });
    let drawn = mixed(mixed(number)) >> 40;
    if drawn % 3 == 0 {
        Some((drawn % 1_000).cast_signed())
    } else {
        None
    }
}

fn ask(
    alloc: Global,
    engine: &mut Engine,
    session: u16,
    value: Option<i64>,
) -> Result<(char, i64), AllocError> {
    match value {
        Some(value) => op(engine, session, set(alloc, value)?),
        None => op(engine, session, read(alloc)?),
    }
}

// One event of a session, or none.
fn turn(
    alloc: Global,
    engine: &mut Engine,
    seed: u64,
    session: u16,
    going: Going,
) -> Result<(Going, Option<Ended>), AllocError> {
    if !going.is_open {
        let told = begin(engine, session, going.call)?;
        return Ok((
            Going {
                is_open: told.0 == 'b',
                is_second: false,
                ..going
            },
            None,
        ));
    }
    let value = value_of(seed, session, going.call, going.is_second);
    let told = ask(alloc, engine, session, value)?;
    if told.0 == 'w' {
        return Ok((going, None));
    }
    if told.0 == 'd' {
        return Ok((
            Going {
                is_open: false,
                ..going
            },
            None,
        ));
    }
    if !going.is_second {
        return Ok((
            Going {
                is_second: true,
                first: told,
                ..going
            },
            None,
        ));
    }
    end(engine, session, done(alloc, Reply::Void));
    let ended = Ended {
        session,
        call: going.call,
        first: going.first,
        second: told,
    };
    let next = Going {
        call: going.call.wrapping_add(1),
        is_open: false,
        ..going
    };
    Ok((next, Some(ended)))
}

// What an operation is told where the row has a value, and the value after it.
fn alone(now: i64, value: Option<i64>) -> ((char, i64), i64) {
    match value {
        Some(value) => (('c', 1), value),
        None => (('r', now), now),
    }
}

fn are_told_alone(seed: u64, ended: &[Ended]) -> bool {
    let mut now = 100i64;
    let mut right = true;
    for call in ended.iter() {
        let (first, then) = alone(now, value_of(seed, call.session, call.call, false));
        let (second, after) = alone(then, value_of(seed, call.session, call.call, true));
        right = right
            && first.0 == call.first.0
            && first.1 == call.first.1
            && second.0 == call.second.0
            && second.1 == call.second.1;
        now = after;
    }
    right
}

// How many calls ended, where all were told what they are alone.
fn schedule(alloc: Global, seed: u64) -> Result<usize, AllocError> {
    let mut engine = Engine::new(alloc, tables(alloc)?, usize::from(SESSIONS), 9)?;
    let mut goings = Vec::new(alloc);
    for _session in 0..SESSIONS {
        goings.push(Going {
            call: 1,
            is_open: false,
            is_second: false,
            first: ('?', 0),
        })?;
    }
    let mut ended = Vec::new(alloc);
    let mut drawn = seed;
    for _step in 0..200usize {
        drawn = mixed(drawn);
        let session = ((drawn >> 33) % 4) as u16;
        let place = usize::from(session);
        if place < goings.len() && goings[place].call <= CALLS {
            let (next, over) = turn(alloc, &mut engine, seed, session, goings[place])?;
            if place < goings.len() {
                goings[place] = next;
            }
            if let Some(call) = over {
                ended.push(call)?;
            }
        }
    }
    if are_told_alone(seed, ended.as_slice()) {
        Ok(ended.len())
    } else {
        Ok(1_000)
    }
}

#[test]
fn schedules_are_serial(rt: HostRuntime) -> Result<(), Fail> {
    let alloc = rt.alloc();
    let mut most = 0usize;
    let mut least = 1_000usize;
    for seed in 0..2_000u64 {
        let calls = schedule(alloc, seed)?;
        most = most.max(calls);
        least = least.min(calls);
    }
    assert_eq!(rt; most, 12);
    assert_eq!(rt; least >= 1, true);
    Ok(())
}
