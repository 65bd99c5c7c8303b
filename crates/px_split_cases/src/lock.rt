//! Passes of two threads write numbers into one list.
ghost use Rattle.std.specs.Prelude.{◌≡◌, ◌++◌, ◌∷◌, [], take, false, true, IfOk, MatchBool};
ghost use Rattle.px_turn.specs.Entries.{made_by, stamped};
ghost use Rattle.px_turn.specs.Passes.{view_of, IsPassOf};
ghost use Rattle.px_turn.specs.Views.{is_inside};

use px_turn::{Pass, Story, Turn};
use std::alloc::{AllocError, Global};
use std::sync::Wait;
use std::test::Fail;
use std::thread::{Threads, join};

/// Numbers, each with the pass that wrote it.
#[derive(Drop)]
struct Numbers {
    name: u64,
    items: Vec<(u64, u64)>,
}

impl Story for Numbers {
    type Entry = u64;

    type Values = u64;

    ghost entries = { λ n. n.items.items };

    ghost values = { λ n. n.name };

    fn made(&self) -> u64 {
        self.items.len() as u64
    }
}

impl Numbers {
    fn new(alloc: Global, name: u64) -> Numbers
        ensures items { result.items.items ≡ [] }
        ensures name { result.name ≡ name }
    {
        Numbers {
            name,
            items: Vec::new(alloc),
        }
    }

    // Adds a number of this pass, or leaves all as it was.
    fn add(&mut self, number: u64, by: u64) -> bool
        ensures name { self.new.name ≡ self.old.name }
        ensures items { MatchBool
            result
            (self.new.items.items ≡ self.old.items.items ++ (number, by) ∷ [])
            (self.new.items.items ≡ self.old.items.items) }
    {
        self.items.push((number, by)).is_ok()
    }
}

// Adds a number in one turn, and says whether it did.
fn add_one<R: Wait>(
    rt: &R,
    turn: &Turn<Numbers>,
    pass: &mut Pass<Numbers>,
    by: u64,
    number: u64,
) -> bool
    requires lock { IsPassOf turn.now pass.old }
    requires outside { is_inside (view_of pass.old) ≡ false }
    requires by { (view_of pass.old).number ≡ by }
    ensures lock { IsPassOf turn.now pass.new }
    ensures outside { is_inside (view_of pass.new) ≡ false }
    ensures by { (view_of pass.new).number ≡ by }
    ensures own { MatchBool
        result
        ((view_of pass.new).own ≡ (view_of pass.old).own ++ (number, by) ∷ [])
        ((view_of pass.new).own ≡ (view_of pass.old).own) }
{
    let mut state = turn.enter(rt, pass);
    let done = state.add(number, by);
    turn.leave(pass, state);
    done
}

// Adds the numbers, each in a turn of its own, until memory runs out. Answers how many it added.
fn add_all<R: Wait>(
    rt: &R,
    turn: &Turn<Numbers>,
    mut pass: Pass<Numbers>,
    by: u64,
    numbers: &[u64],
) -> (Pass<Numbers>, usize)
    requires lock { IsPassOf turn.now pass }
    requires outside { is_inside (view_of pass) ≡ false }
    requires by { (view_of pass).number ≡ by }
    ensures lock { IsPassOf turn.now result.0 }
    ensures outside { is_inside (view_of result.0) ≡ false }
    ensures by { (view_of result.0).number ≡ by }
    ensures own { (view_of result.0).own ≡ (view_of pass).own ++ stamped by (take result.1 numbers.now) }
{
    let mut done = 0;
    while done < numbers.len() {
        if !add_one(rt, turn, &mut pass, by, numbers[done]) {
            break;
        }
        done += 1;
    }
    (pass, done)
}

// Two threads add numbers to one list. In the end the numbers of each stand in it in their order, each once,
// and no others in its name.
fn by_two<R: Threads + Wait + Sync>(
    rt: &R,
    alloc: Global,
    first: &[u64],
    second: &[u64],
) -> Result<(Numbers, usize, usize), AllocError>
    ensures one { IfOk result (λ r. made_by 1 r.0.items.items ≡ stamped 1 (take r.1 first.now)) }
    ensures two { IfOk result (λ r. made_by 2 r.0.items.items ≡ stamped 2 (take r.2 second.now)) }
    ensures name { IfOk result (λ r. r.0.name ≡ 7) }
{
    let (turn, mut head) = Turn::new(alloc, Numbers::new(alloc, 7))?;
    let one = turn.split(&mut head);
    let two = turn.split(&mut head);
    let ((one, a), (two, b)) = join(
        rt,
        || -> (Pass<Numbers>, usize)
            requires { IsPassOf turn one
                × (is_inside (view_of one) ≡ false)
                × ((view_of one).number ≡ 1)
                × ((view_of one).own ≡ []) }
            ensures lock { IsPassOf turn result.0 }
            ensures outside { is_inside (view_of result.0) ≡ false }
            ensures by { (view_of result.0).number ≡ 1 }
            ensures own { (view_of result.0).own ≡ stamped 1 (take result.1 first.entry.now) }
        { add_all(rt, &turn, one, 1, first) },
        || -> (Pass<Numbers>, usize)
            requires { IsPassOf turn two
                × (is_inside (view_of two) ≡ false)
                × ((view_of two).number ≡ 2)
                × ((view_of two).own ≡ []) }
            ensures lock { IsPassOf turn result.0 }
            ensures outside { is_inside (view_of result.0) ≡ false }
            ensures by { (view_of result.0).number ≡ 2 }
            ensures own { (view_of result.0).own ≡ stamped 2 (take result.1 second.entry.now) }
        { add_all(rt, &turn, two, 2, second) },
    );
    turn.join(&mut head, one);
    turn.join(&mut head, two);
    Ok((turn.close(head), a, b))
}

#[test]
fn each_thread_finds_its_numbers(rt: HostRuntime) -> Result<(), Fail> {
    let alloc = rt.alloc();
    let mut first = Vec::new(alloc);
    let mut second = Vec::new(alloc);
    for i in 0..2000u64 {
        first.push(i)?;
        second.push(10000 + i)?;
    }
    let (numbers, a, b) = by_two(&rt, alloc, first.as_slice(), second.as_slice())?;
    assert_eq!(rt; (a, b), (2000, 2000));
    let mut next = [0, 10000];
    for &(number, by) in &numbers.items {
        let thread = if by == 1 { 0 } else { 1 };
        assert_eq!(rt; number, next[thread]);
        next[thread] = number.wrapping_add(1);
    }
    assert_eq!(rt; next, [2000, 12000]);
    Ok(())
}

#[test]
fn the_first_pass_is_sole_once_the_others_were_joined(rt: HostRuntime) -> Result<(), Fail> {
    let alloc = rt.alloc();
    let (turn, mut head) = Turn::new(alloc, Numbers::new(alloc, 0))?;
    assert!(rt; head.sole());
    let mut other = turn.split(&mut head);
    assert!(rt; !head.sole() && !other.sole());
    assert!(rt; add_one(&rt, &turn, &mut other, 1, 5));
    assert!(rt; add_one(&rt, &turn, &mut head, 0, 6));
    turn.join(&mut head, other);
    assert!(rt; head.sole());
    let numbers = turn.close(head);
    assert_eq!(rt; numbers.items.as_slice(), [(5, 1), (6, 0)].as_slice());
    Ok(())
}
