//! One end.
ghost use Rattle.std.specs.Prelude.{◌≡◌, [], slice_get, true, false, Some, None, IfOk, OnOk, OnErr};
ghost use Rattle.px_code.specs.declared.side.Side.TheVariants.{App, Db};
ghost use Rattle.px_wire.specs.Fitting.{HasSpelling, UpdatesHaveSpelling};
ghost use Rattle.px_half.specs.Messages.{IsTellable, IsTransfer, AreUpdates, IsMessage, IsEmitted, told};
ghost use Rattle.px_half.specs.Absorbed.{absorbed, IsAbsorbed, IsRefused, IfBad};
ghost use Rattle.px_half.specs.End.{IsSameEnd, plan_at as plan_of, HasSmallMain, new_end, begun, attended, block_run, reply_at, rested, closed_now, rolled_back};

use crate::absorb::{AbsorbError, absorb_transfer, absorb_updates};
use crate::emit::{frames_told, slots_told, updates};
use crate::entering::{entry_frame, root_frame, types_in};
use crate::first_heap::first_heap;
use crate::machine::Machine;
use crate::next::{next_block, without_block};
use crate::plans::{block_at, first_block, method_at, plan_at, side_of_block};
use crate::stack::slot_at;
use crate::step::Step;
use crate::stop::Stop;
use crate::undo::take_back;
use px_code::{Plans, Reply, Shown, Side};
use px_value::Value;
use px_wire::{Message, Transfer, Updates, decode, encode};
use sqlite_items::Items;
use std::alloc::{AllocError, Global};
use std::marker::Model;

/// One end of a session. It shares with the other end nothing but the plans.
#[derive(Drop)]
pub struct Half {
    side: Side,
    plans: Plans,
    part: u8,
    in_call: bool,
    entry: u16,
    block: u32,
    turns: u32,
    known: u32,
    machine: Machine,
}

impl Model for Half {
    ghost use Rattle.px_half.specs.End.{End};
    ghost use Rattle.px_half.specs.Machine.{machine_of, closed_of};

    ghost Value = { End };

    ghost view = { λ h. record {
      side = h.side;
      plans = h.plans.value.items;
      part = h.part;
      in_call = h.in_call;
      entry = h.entry;
      block = h.block;
      turns = h.turns;
      known = h.known;
      machine = machine_of h.machine;
      closed = closed_of h.machine;
    } };
}

impl Half {
    /// An end as new: its heap holds one object of Main, and the plan is the first.
    pub fn new(alloc: Global, side: Side, plans: &Plans) -> Result<Half, AllocError>
        requires { HasSmallMain (slice_get plans.now.value.items 0) }
        ensures { IfOk result (λ h. h ≡ new_end side plans.now.value.items) }
    {
        let plans = plans.clone()?;
        let heap = first_heap(alloc, plan_at(&plans, 0))?;
        let known = heap.len();
        Ok(Half {
            side,
            plans,
            part: 0,
            in_call: false,
            entry: 0,
            block: 0,
            turns: 0,
            known,
            machine: Machine {
                heap,
                undo: Vec::new(alloc),
                frames: Vec::new(alloc),
                base: 0,
                marks: Vec::new(alloc),
                named: Vec::new(alloc),
            },
        })
    }

    /// Opens a call of a method, by its number from 1. Its first block may be at the other side.
    pub fn begin(&mut self, alloc: Global, method: u16, args: &[Value]) -> Result<(), AllocError>
        requires side { self.old.side ≡ App }
        requires closed { self.old.in_call ≡ false }
        ensures ok { OnOk result (self.new ≡ begun method args.now self.old) }
        ensures err { OnErr result (self.new ≡ self.old) }
    {
        let plan = plan_at(&self.plans, self.part);
        let block = first_block(plan, method);
        let mut frames = Vec::new(alloc);
        frames.push(root_frame(alloc)?)?;
        let types = types_in(method_at(plan, method));
        frames.push(entry_frame(alloc, method, types, args)?)?;
        self.in_call = true;
        self.entry = method;
        self.block = block;
        self.turns = 0;
        self.machine.frames = frames;
        self.machine.base = 0;
        Ok(())
    }

    /// Opens a call that the other end began.
    pub fn attend(&mut self)
        requires side { self.old.side ≡ Db }
        requires closed { self.old.in_call ≡ false }
        ensures { self.new ≡ attended self.old }
    {
        self.in_call = true;
        self.machine.frames.clear();
        self.machine.base = 0;
    }

    /// Runs the present block, if it is at this side. After want of memory only `roll_back` may follow.
    pub fn run_block(&mut self, alloc: Global) -> Result<Step, AllocError>
        requires { self.old.in_call ≡ true }
        ensures answer { IfOk result (λ step. step ≡ (block_run self.old).answer) }
        ensures after { OnOk result (self.new ≡ (block_run self.old).after) }
        ensures closed { self.new.closed ≡ self.old.closed }
        ensures same { IsSameEnd self.old self.new }
    {
        let plan = plan_at(&self.plans, self.part);
        match block_at(plan, self.block) {
            None => Ok(without_block(self.side, self.block)),
            Some(block) => {
                if block.side != self.side {
                    return Ok(Step::Cross);
                }
                match self.machine.run(alloc, block.statements.as_slice()) {
                    Ok(flow) => {
                        self.block = next_block(block.exit, flow);
                        if side_of_block(plan, self.block) == self.side {
                            Ok(Step::Next)
                        } else {
                            Ok(Step::Cross)
                        }
                    }
                    Err(Stop::Threw(thrown)) => Ok(Step::Threw(thrown)),
                    Err(Stop::NoMemory) => Err(AllocError),
                }
            }
        }
    }

    /// The reply of a call that has ended.
    pub fn shown(&self, alloc: Global) -> Result<Shown, AllocError>
        ensures reply { IfOk result (λ s. s.reply ≡ reply_at self.now) }
        ensures prints { IfOk result (λ s. s.prints ≡ []) }
    {
        let gives = match method_at(plan_at(&self.plans, self.part), self.entry) {
            Some(method) => method.gives,
            None => None,
        };
        let reply = match gives {
            None => Reply::Void,
            Some(_) => Reply::Value(slot_at(alloc, self.machine.frames.as_slice(), 0, 0)?),
        };
        Ok(Shown {
            reply,
            prints: Items::new(alloc),
        })
    }

    /// The bytes of the message that is due where `run_block` answered Cross or Done, after which nothing is marked.
    pub fn emit(&mut self, alloc: Global) -> Result<Vec<u8>, AllocError>
        requires { IsTellable self.old.machine }
        ensures bytes { IfOk result (λ bytes. IsEmitted self.old bytes.items) }
        ensures told { OnOk result (self.new ≡ told self.old) }
        ensures err { OnErr result (self.new ≡ self.old) }
    {
        let bytes = encode(alloc, &self.message(alloc)?)?;
        let machine = &mut self.machine;
        machine.marks.clear();
        machine.named.clear();
        self.known = machine.heap.len();
        Ok(bytes)
    }

    #[tactic(auto, using(crate::proofs::Telling::transfer_spelled))]
    fn message(&self, alloc: Global) -> Result<Message, AllocError>
        requires { IsTellable self.now.machine }
        ensures is { IfOk result (λ m. IsMessage self.now.side self.now.block self.now m) }
        ensures has_spelling { IfOk result (λ m. HasSpelling m) }
    {
        let plan = plan_at(&self.plans, self.part);
        let updates = updates(alloc, plan, self.known, &self.machine)?;
        match self.side {
            Side::App if self.block == 0 => Ok(Message::Commit(updates)),
            _ => Ok(Message::Transfer(self.transfer(alloc, updates)?)),
        }
    }

    fn transfer(&self, alloc: Global, updates: Updates) -> Result<Transfer, AllocError>
        requires tellable { IsTellable self.now.machine }
        requires updates { AreUpdates (plan_of self.now) self.now.known self.now.machine updates }
        requires spelled { UpdatesHaveSpelling updates }
        ensures is { IfOk result (λ t. IsTransfer self.now t) }
        ensures spelled { IfOk result (λ t. UpdatesHaveSpelling t.updates) }
    {
        let frames = self.machine.frames.as_slice();
        Ok(Transfer {
            block: self.block,
            turns: self.turns,
            base: self.machine.base as u8,
            frames: frames_told(alloc, frames, self.machine.base)?,
            slots: slots_told(alloc, frames)?,
            updates,
        })
    }

    /// Takes in a message of the other end, or leaves all as it was.
    pub fn absorb(&mut self, alloc: Global, bytes: &[u8]) -> Result<(), AbsorbError>
        ensures ok { OnOk result (IsAbsorbed bytes.now self.old self.new) }
        ensures bad { IfBad result (IsRefused bytes.now self.old) }
        ensures kept { OnErr result (self.new ≡ self.old) }
        ensures closed { self.new.closed ≡ self.old.closed }
        ensures same { IsSameEnd self.old self.new }
    {
        match decode(alloc, bytes)? {
            Some(message) => self.take(alloc, &message),
            None => Err(AbsorbError::BadMessage),
        }
    }

    fn take(&mut self, alloc: Global, message: &Message) -> Result<(), AbsorbError>
        ensures ok { OnOk result (absorbed message.now self.old ≡ Some self.new) }
        ensures bad { IfBad result (absorbed message.now self.old ≡ None) }
        ensures kept { OnErr result (self.new ≡ self.old) }
        ensures closed { self.new.closed ≡ self.old.closed }
        ensures same { IsSameEnd self.old self.new }
    {
        match plan_at(&self.plans, self.part) {
            None => Err(AbsorbError::BadMessage),
            Some(plan) => {
                match message {
                    Message::Transfer(transfer) => {
                        absorb_transfer(alloc, plan, &mut self.machine, transfer)?;
                        self.block = transfer.block;
                        self.turns = transfer.turns;
                    }
                    Message::Commit(updates) => {
                        absorb_updates(alloc, plan, &mut self.machine, updates)?;
                    }
                }
                self.known = self.machine.heap.len();
                Ok(())
            }
        }
    }

    /// Keeps what was done since the last close, and closes an open call. Takes no memory.
    pub fn close(&mut self)
        ensures { self.new ≡ closed_now self.old }
    {
        self.machine.undo.clear();
        self.rest();
    }

    /// Takes back what was done since the last close, and closes an open call. Takes no memory.
    pub fn roll_back(&mut self)
        ensures { self.new ≡ rolled_back self.old }
    {
        take_back(&mut self.machine.heap, &mut self.machine.undo);
        self.rest();
    }

    // No call is open, and both ends know the heap.
    fn rest(&mut self)
        ensures { self.new ≡ record (rested self.old.machine.heap self.old) { closed = self.old.closed } }
    {
        self.machine.frames.clear();
        self.machine.base = 0;
        self.machine.marks.clear();
        self.machine.named.clear();
        self.in_call = false;
        self.known = self.machine.heap.len();
    }
}
