//! Rows as objects of the heap.
ghost use Rattle.std.specs.Prelude.{◌≡◌, ◌∷◌, pos, IfOk};
ghost use Rattle.px_value.specs.declared.value.Value.TheVariants.{Int};
ghost use Rattle.px_effects.specs.Rows as mean;
ghost use Rattle.px_mean.specs.Effects.{acts};
ghost use Rattle.px_plain.specs.View.{shared_of, Ends, Keeps, IfKept};

use crate::machine::Machine;
use crate::stop::Stop;
use px_value::{Answer, Kind, Value, Values};
use std::alloc::{AllocError, Global};

// A cursor before the first row, and then the cells.
fn with_cursor(alloc: Global, cells: &[Value]) -> Result<Values, AllocError>
    ensures { IfOk result (λ values. values ≡ Int (pos 0) ∷ cells.now) }
{
    let mut values = Values::new(alloc);
    values.push(Value::Int(0))?;
    for cell in cells {
        values.push(cell.copy(alloc)?)?;
    }
    Ok(values)
}

impl Machine {
    /// The rows of an answer, as an object.
    pub fn made_rows(
        &mut self,
        alloc: Global,
        number: u16,
        site: u16,
        answer: &Answer,
    ) -> Result<Value, Stop>
        ensures ends { Ends (shared_of self.new) result (acts (mean.make_rows number site answer.now) (shared_of self.old)) }
        ensures kept { IfKept result (Keeps self.old self.new) }
        ensures turns { self.new.turns ≡ self.old.turns }
    {
        match answer {
            Answer::Rows { width: _, cells } => {
                let cells = with_cursor(alloc, cells.as_slice())?;
                self.allocate(Kind::Rows(number), site, cells)
            }
            _ => Ok(Value::Null),
        }
    }
}
