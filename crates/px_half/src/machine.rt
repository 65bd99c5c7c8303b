//! Statements that run on the heap and the stack of one end.
ghost use Rattle.std.specs.Prelude.{◌≡◌, Ok, OnOk, IfOk};
ghost use Rattle.px_code.specs.Act.{Comes, acted, value_at, slot_of as code_slot_of, operand as operand_of};
ghost use Rattle.px_code.specs.Machine.{top_values, after_act, with_value, stop_of, returned, sent, step, steps};
ghost use Rattle.px_half.specs.Machine.{machine_of, closed_of, marked_write, got, put_at, applied, acts, Unless, ComesTo, ending_of, StopsAs};

use crate::stack::{fill, fill_if, operand, top};
use crate::stop::Stop;
use crate::undo::{Change, write};
use px_code::{Cell, Frame, Naming, Operand, Send, Statement, Word};
use px_ops::apply;
use px_value::{Heap, Op, Thrown, Value};
use std::alloc::{AllocError, Global};

/// The heap, the stack, and what was written since control came.
#[derive(Drop)]
pub struct Machine {
    pub heap: Heap,
    /// What was changed in the heap since the last close.
    pub undo: Vec<Change>,
    /// The lowest first.
    pub frames: Vec<Frame>,
    /// How many of the lowest frames stood when control came and weren't left since.
    pub base: usize,
    /// The cells that were written since control came, the last at the end.
    pub marks: Vec<Cell>,
    /// The sends since control came.
    pub named: Vec<Naming>,
}

/// What comes after a statement.
#[derive(Clone, Copy, Debug, PartialEq, Eq)]
pub enum Flow {
    Goes,
    Returned,
}

/// The slot that gets the value of a statement.
fn slot_of(word: &Word) -> Option<u16>
    ensures { result ≡ code_slot_of word.now }
{
    match word {
        Word::Set { to, value: _ } => Some(*to),
        Word::Op {
            op: _,
            to,
            left: _,
            right: _,
        } => Some(*to),
        Word::Get {
            to,
            of: _,
            class: _,
            field: _,
        } => Some(*to),
        Word::Put {
            of: _,
            class: _,
            field: _,
            value: _,
        } => None,
        Word::Return(_) => None,
    }
}

impl Machine {
    fn operand(&self, alloc: Global, from: &Operand) -> Result<Value, AllocError>
        ensures { IfOk result (λ v. v ≡ operand_of (top_values self.now.frames.items) from.now) }
    {
        operand(alloc, self.frames.as_slice(), from)
    }

    // Writes a cell and marks it.
    fn put(&mut self, object: u32, index: u32, value: Value) -> Result<(), AllocError>
        ensures machine { OnOk result (machine_of self.new ≡ marked_write object index value (machine_of self.old)) }
        ensures closed { closed_of self.new ≡ closed_of self.old }
    {
        self.marks.push(Cell { object, index })?;
        write(&mut self.heap, &mut self.undo, object, index, value)
    }

    fn get(&self, alloc: Global, object: u32, index: u32) -> Result<Value, AllocError>
        ensures { IfOk result (λ v. v ≡ value_at self.now.heap object index) }
    {
        match self.heap.get(object, index) {
            Some(value) => value.copy(alloc),
            None => Ok(Value::Null),
        }
    }

    fn get_field(&self, alloc: Global, of: &Operand, field: u16) -> Result<Value, Stop>
        ensures { ComesTo result (acted (got of.now field (top_values self.now.frames.items)) self.now.heap) }
    {
        match self.operand(alloc, of)? {
            Value::Ref(object) => Ok(self.get(alloc, object, u32::from(field))?),
            _ => Err(Stop::Threw(Thrown::NullPointerException)),
        }
    }

    fn put_field(
        &mut self,
        alloc: Global,
        of: &Operand,
        field: u16,
        value: &Operand,
    ) -> Result<Value, Stop>
        ensures comes { ComesTo result (acted (put_at of.now field value.now (top_values self.old.frames.items)) self.old.heap) }
        ensures machine { Unless result (machine_of self.new ≡ after_act (acted (put_at of.now field value.now (top_values self.old.frames.items)) self.old.heap) (machine_of self.old)) }
        ensures closed { closed_of self.new ≡ closed_of self.old }
    {
        match self.operand(alloc, of)? {
            Value::Ref(object) => {
                let value = self.operand(alloc, value)?;
                self.put(object, u32::from(field), value)?;
                Ok(Value::Null)
            }
            _ => Err(Stop::Threw(Thrown::NullPointerException)),
        }
    }

    fn operate(
        &self,
        alloc: Global,
        op: Op,
        left: &Operand,
        right: &Option<Operand>,
    ) -> Result<Value, Stop>
        ensures { ComesTo result (acted (Comes (applied op left.now right.now (top_values self.now.frames.items))) self.now.heap) }
    {
        let left = self.operand(alloc, left)?;
        match right {
            None => Ok(apply(alloc, op, &left, &left)?),
            Some(right) => {
                let right = self.operand(alloc, right)?;
                Ok(apply(alloc, op, &left, &right)?)
            }
        }
    }

    // What a word comes to, and what it does to the heap.
    fn act(&mut self, alloc: Global, word: &Word) -> Result<Value, Stop>
        ensures comes { ComesTo result (acts word.now (machine_of self.old)) }
        ensures machine { Unless result (machine_of self.new ≡ after_act (acts word.now (machine_of self.old)) (machine_of self.old)) }
        ensures closed { closed_of self.new ≡ closed_of self.old }
    {
        match word {
            Word::Set { to: _, value } => Ok(self.operand(alloc, value)?),
            Word::Op {
                op,
                to: _,
                left,
                right,
            } => self.operate(alloc, *op, left, right),
            Word::Get {
                to: _,
                of,
                class: _,
                field,
            } => self.get_field(alloc, of, *field),
            Word::Put {
                of,
                class: _,
                field,
                value,
            } => self.put_field(alloc, of, *field, value),
            Word::Return(None) => Ok(Value::Null),
            Word::Return(Some(value)) => Ok(self.operand(alloc, value)?),
        }
    }

    // Leaves the frame that runs, with the result in the slot of the caller.
    fn leave(&mut self, reply: Option<Value>)
        ensures machine { machine_of self.new ≡ returned reply (machine_of self.old) }
        ensures closed { closed_of self.new ≡ closed_of self.old }
    {
        let running = top(self.frames.as_slice());
        if let Some(value) = reply {
            fill(&mut self.frames, running.saturating_sub(1), 0, value);
        }
        self.frames.truncate(running);
        self.base = self.base.min(running);
    }

    // The value of a statement goes where its word says.
    fn finish(&mut self, word: &Word, value: Value) -> Flow
        ensures flow { stop_of word.now ≡ ending_of result }
        ensures machine { machine_of self.new ≡ with_value word.now value (machine_of self.old) }
        ensures closed { closed_of self.new ≡ closed_of self.old }
    {
        match word {
            Word::Return(None) => {
                self.leave(None);
                Flow::Returned
            }
            Word::Return(Some(_)) => {
                self.leave(Some(value));
                Flow::Returned
            }
            _ => {
                let running = top(self.frames.as_slice());
                fill_if(&mut self.frames, running, slot_of(word), value);
                Flow::Goes
            }
        }
    }

    fn name(&mut self, alloc: Global, send: &Option<Send>) -> Result<(), AllocError>
        ensures machine { OnOk result (machine_of self.new ≡ sent send.now (machine_of self.old)) }
        ensures closed { closed_of self.new ≡ closed_of self.old }
    {
        if let Some(send) = send {
            if let Value::Ref(object) = self.operand(alloc, &send.object)? {
                self.named.push(Naming {
                    home: send.home,
                    object,
                })?;
            }
        }
        Ok(())
    }

    // One statement, with its send.
    fn step(&mut self, alloc: Global, statement: &Statement) -> Result<Flow, Stop>
        ensures stop { StopsAs result (step statement.now (machine_of self.old)).stop }
        ensures machine { Unless result (machine_of self.new ≡ (step statement.now (machine_of self.old)).machine) }
        ensures closed { closed_of self.new ≡ closed_of self.old }
    {
        let value = self.act(alloc, &statement.word)?;
        let flow = self.finish(&statement.word, value);
        self.name(alloc, &statement.send)?;
        Ok(flow)
    }

    /// Statements one after the other, up to one that returns or throws.
    pub fn run(&mut self, alloc: Global, statements: &[Statement]) -> Result<Flow, Stop>
        ensures stop { StopsAs result (steps statements.now (machine_of self.old)).stop }
        ensures machine { Unless result (machine_of self.new ≡ (steps statements.now (machine_of self.old)).machine) }
        ensures closed { closed_of self.new ≡ closed_of self.old }
    {
        for statement in statements {
            match self.step(alloc, statement)? {
                Flow::Goes => {}
                Flow::Returned => return Ok(Flow::Returned),
            }
        }
        Ok(Flow::Goes)
    }
}
