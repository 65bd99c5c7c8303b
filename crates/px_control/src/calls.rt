//! Calls of methods, and how frames are left.
ghost use Rattle.std.specs.Prelude.{◌≡◌, [], ◌∷◌, List, length, IfOk};
ghost use Rattle.px_value.specs.declared.object.Object.{Object};
ghost use Rattle.px_value.specs.declared.value.Value.TheVariants.{Ref};
ghost use Rattle.px_blocks.specs.Plan.{Plan};
ghost use Rattle.px_blocks.specs.Machine.{Control as MachineControl, Left, turned, called, left_with, goes};
ghost use Rattle.px_blocks.specs.Message.{in_control};
ghost use Rattle.px_blocks.specs.One.{begun};
ghost use Rattle.px_control.specs.Calls.{goes_on, IsCalled, OnNoMemory};

use crate::back::back_from;
use crate::blanks::{blank_slots, entered_slots};
use crate::control::Control;
use crate::frame::Frame;
use crate::marks::Marks;
use crate::names::Names;
use crate::stack::{fill, top};
use crate::stop::Stop;
use px_blocks::Block;
use px_normal::Code;
use px_value::{MAX_FRAMES, MAX_TURNS, Thrown, Value};
use std::alloc::{AllocError, Global};

// A reference to the first object, and the arguments.
fn on_first(alloc: Global, args: &[Value]) -> Result<Vec<Value>, AllocError>
    ensures { IfOk result (λ values. values.items ≡ Ref 0 ∷ args.now) }
{
    let mut values = Vec::new(alloc);
    values.push(Value::Ref(0))?;
    for value in args {
        values.push(value.copy(alloc)?)?;
    }
    Ok(values)
}

impl Control {
    /// An entry is called on the first object of a session.
    pub fn begin(
        alloc: Global,
        code: &Code,
        method: u16,
        args: &[Value],
        known: u32,
    ) -> Result<Control, AllocError>
        ensures { IfOk result (λ c. (plan : Plan) (heap : List Object) → plan.code ≡ code.now → length heap ≡ known → c ≡ (begun plan method args.now heap).control) }
    {
        let lowest = blank_slots(alloc, code, 0)?;
        let slots = entered_slots(alloc, code, method, on_first(alloc, args)?)?;
        let mut frames = Vec::new(alloc);
        frames.push(Frame::new(0, 0, lowest))?;
        frames.push(Frame::new(method, 0, slots))?;
        Ok(Control {
            frames,
            base: 0,
            marks: Marks::new(alloc),
            named: Names::new(alloc),
            known,
            turns: 0,
        })
    }

    /// What the other end has as a call begins.
    pub fn attend(alloc: Global, known: u32) -> Control
        ensures { result ≡ in_control [] 0 known }
    {
        Control {
            frames: Vec::new(alloc),
            base: 0,
            marks: Marks::new(alloc),
            named: Names::new(alloc),
            known,
            turns: 0,
        }
    }

    /// Counts a turn, where one is left.
    pub fn turn(&mut self) -> Result<(), Thrown>
        ensures { (f : MachineControl → Left) → turned f self.old ≡ goes_on result self.new f }
    {
        if self.turns < MAX_TURNS {
            self.turns += 1;
            return Ok(());
        }
        Err(Thrown::TurnsOut)
    }

    /// A method is called by block `back`, at its first block.
    pub fn call(
        &mut self,
        alloc: Global,
        code: &Code,
        entry: u32,
        method: u16,
        back: u32,
        args: Vec<Value>,
    ) -> Result<(), Stop>
        ensures called { IsCalled result entry self.new (called code.now entry method back args.items self.old) }
        ensures kept { OnNoMemory result (self.new ≡ self.old) }
    {
        if self.turns >= MAX_TURNS {
            return Err(Stop::Threw(Thrown::TurnsOut));
        }
        if self.frames.len() > MAX_FRAMES as usize {
            self.turns += 1;
            return Err(Stop::Threw(Thrown::StackOverflowError));
        }
        let slots = entered_slots(alloc, code, method, args)?;
        self.frames.push(Frame::new(method, back, slots))?;
        self.turns += 1;
        Ok(())
    }

    /// The frame that runs is left with a result, or null where there is none; the block that comes next.
    pub fn leave(&mut self, blocks: &[Block], value: Option<Value>) -> u32
        ensures { left_with blocks.now value self.old ≡ goes result self.new }
    {
        let back = back_from(blocks, self.frames.as_slice());
        let running = top(self.frames.as_slice());
        fill(
            &mut self.frames,
            running.saturating_sub(1),
            back.to,
            value.unwrap_or(Value::Null),
        );
        self.frames.truncate(running);
        self.base = self.base.min(running);
        back.next
    }
}
