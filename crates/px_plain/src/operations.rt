//! What calls of `Db` ask of the tables.
ghost use Rattle.std.specs.Prelude.{◌≡◌};
ghost use Rattle.std.specs.List.{list_any};
ghost use Rattle.px_mean.specs.Facts.{by_number};
ghost use Rattle.px_mean.specs.Asks.{by_tables};
ghost use Rattle.px_effects.specs.Run as runs;
ghost use Rattle.px_effects.specs.Operations as sends;
ghost use Rattle.px_mean.specs.Operations as mean;
ghost use Rattle.px_plain.specs.Effects as parts;
ghost use Rattle.px_plain.specs.View.{shared_of, Ends, Keeps, IfKept};

use crate::effects::size_value;
use crate::facts::operation_at;
use crate::machine::Machine;
use crate::stop::Stop;
use px_facts::{Facts, copy_statement};
use px_value::{
    Answer, MAX_OPERATIONS, MAX_PARAMETER, MAX_TEXTS, Statement, TableOp, Thrown, Value, Values,
};
use std::alloc::Global;

fn is_null(value: &Value) -> bool
    ensures { result ≡ sends.is_null value.now }
{
    matches!(value, Value::Null)
}

fn has_null(values: &[Value]) -> bool
    ensures { result ≡ list_any sends.is_null values.now }
{
    for value in values {
        if is_null(value) {
            return true;
        }
    }
    false
}

fn text_size(value: &Value) -> usize
    ensures { result ≡ sends.text_size value.now }
{
    match value {
        Value::Text(bytes) => bytes.as_slice().len(),
        _ => 0,
    }
}

fn are_short(values: &[Value]) -> bool
    ensures { result ≡ sends.are_short values.now }
{
    let mut total: usize = 0;
    for value in values {
        let size = text_size(value);
        if size > MAX_PARAMETER {
            return false;
        }
        if size > MAX_TEXTS - total {
            return false;
        }
        total += size;
    }
    true
}

// The parameters that are sent: a null is looked for first.
fn sent(values: Values) -> Result<Values, Thrown>
    ensures { result ≡ sends.sent values }
{
    if has_null(values.as_slice()) {
        Err(Thrown::SQLException)
    } else if are_short(values.as_slice()) {
        Ok(values)
    } else {
        Err(Thrown::TextTooLong)
    }
}

// How many rows were changed.
fn changed(answer: &Answer) -> Result<Value, Thrown>
    ensures { result ≡ parts.changed answer.now }
{
    match answer {
        Answer::Count(count) => Ok(size_value(*count as usize)),
        Answer::Refused => Err(Thrown::SQLException),
        Answer::Rows { width: _, cells: _ } => Ok(Value::Null),
    }
}

impl Machine {
    fn count(&mut self) -> Result<(), Stop>
        ensures ends { Ends (shared_of self.new) result (parts.counted (shared_of self.old)) }
        ensures kept { Keeps self.old self.new }
        ensures turns { self.new.turns ≡ self.old.turns }
    {
        if self.asked.count < MAX_OPERATIONS {
            self.asked.count += 1;
            Ok(())
        } else {
            Err(Stop::Threw(Thrown::OpsOut))
        }
    }

    fn ask(&mut self, alloc: Global, operation: &TableOp) -> Result<Answer, Stop>
        ensures ends { Ends (shared_of self.new) result (runs.asked by_tables operation.now (shared_of self.old)) }
        ensures kept { IfKept result (Keeps self.old self.new) }
        ensures turns { self.new.turns ≡ self.old.turns }
    {
        let answer = self.asked.tables.answer(alloc, operation)?;
        self.asked
            .tables
            .apply(alloc, operation, &mut self.asked.undo)?;
        Ok(answer)
    }

    // A statement of this number is asked.
    fn operate(
        &mut self,
        alloc: Global,
        number: u16,
        statement: &Statement,
        values: Values,
    ) -> Result<Answer, Stop>
        ensures ends { Ends (shared_of self.new) result (parts.operate by_tables number statement.now values (shared_of self.old)) }
        ensures kept { IfKept result (Keeps self.old self.new) }
        ensures turns { self.new.turns ≡ self.old.turns }
    {
        let params = sent(values)?;
        self.count()?;
        let statement = copy_statement(alloc, statement)?;
        let operation = TableOp {
            number,
            statement,
            params,
        };
        self.ask(alloc, &operation)
    }

    /// `Db.query(..)`, by its number and the site of its rows.
    #[inline(never)]
    pub fn query(
        &mut self,
        alloc: Global,
        facts: &Facts,
        number: u16,
        site: u16,
        values: Values,
    ) -> Result<Value, Stop>
        ensures ends { Ends (shared_of self.new) result (mean.query by_tables number site (by_number facts.now.operations number) values (shared_of self.old)) }
        ensures kept { IfKept result (Keeps self.old self.new) }
        ensures turns { self.new.turns ≡ self.old.turns }
    {
        let Some(operation) = operation_at(facts, number) else {
            return Ok(Value::Null);
        };
        let answer = self.operate(alloc, number, &operation.statement, values)?;
        self.made_rows(alloc, number, site, &answer)
    }

    /// `Db.update(..)`, by its number.
    #[inline(never)]
    pub fn update(
        &mut self,
        alloc: Global,
        facts: &Facts,
        number: u16,
        values: Values,
    ) -> Result<Value, Stop>
        ensures ends { Ends (shared_of self.new) result (mean.update by_tables number (by_number facts.now.operations number) values (shared_of self.old)) }
        ensures kept { IfKept result (Keeps self.old self.new) }
        ensures turns { self.new.turns ≡ self.old.turns }
    {
        let Some(operation) = operation_at(facts, number) else {
            return Ok(Value::Null);
        };
        let answer = self.operate(alloc, number, &operation.statement, values)?;
        Ok(changed(&answer)?)
    }
}
