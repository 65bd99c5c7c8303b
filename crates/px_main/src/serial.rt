//! The serial run of a job by the meaning of the source.
ghost use Rattle.std.specs.Prelude.{◌≡◌, map, IfOk, OnOk};
ghost use Rattle.px_plain.specs.Serial.{told_call, ran_of};
ghost use Rattle.px_main.specs.Run.{wanted, with_row, tables_of, run_of};

use px_facts::Checked;
use px_job::{Job, Row};
use px_plain::{Call, Ran, serve};
use px_rows::{LoadError, Tables};
use px_tree::Class;
use px_value::{Schema, Text, Value, Values};
use std::alloc::{AllocError, Global};

fn copied(alloc: Global, values: &[Value]) -> Result<Values, AllocError>
    ensures { IfOk result (λ all. all ≡ values.now) }
{
    let mut all = Values::new(alloc);
    for value in values {
        all.push(value.copy(alloc)?)?;
    }
    Ok(all)
}

fn load_row(alloc: Global, tables: &mut Tables, row: &Row) -> Result<(), AllocError>
    ensures { OnOk result (tables.new ≡ with_row tables.old row.now) }
{
    let values = copied(alloc, row.values.as_slice())?;
    match tables.load(alloc, row.table, values) {
        Ok(()) | Err(LoadError::Doubled) => Ok(()),
        Err(LoadError::NoMemory) => Err(AllocError),
    }
}

// The tables before the first call.
fn load_rows(alloc: Global, schema: &Schema, rows: &[Row]) -> Result<Tables, AllocError>
    ensures { IfOk result (λ tables. tables ≡ tables_of schema.now rows.now) }
{
    let mut tables = Tables::new(alloc, schema)?;
    for row in rows {
        load_row(alloc, &mut tables, row)?;
    }
    Ok(tables)
}

fn wanted_call(call: &px_job::Call) -> Call<'_>
    ensures { told_call result ≡ wanted call.now }
{
    Call {
        session: call.session,
        entry: call.entry,
        args: call.args.as_slice(),
    }
}

fn wanted_calls(alloc: Global, calls: &[px_job::Call]) -> Result<Vec<Call<'_>>, AllocError>
    ensures { IfOk result (λ all. map told_call all.items ≡ map wanted calls.now) }
{
    let mut all = Vec::new(alloc);
    for call in calls {
        all.push(wanted_call(call))?;
    }
    Ok(all)
}

/// The names of classes, by number from 0.
pub fn class_names(alloc: Global, classes: &[Class]) -> Result<Vec<Text>, AllocError>
    ensures { IfOk result (λ all. all.items ≡ map (λ c. c.name.bytes) classes.now) }
{
    let mut all = Vec::new(alloc);
    for class in classes {
        all.push(Text::from_vec(Vec::from_slice(alloc, class.name.bytes.as_slice())?))?;
    }
    Ok(all)
}

/// The calls of a job, one at a time, over its rows.
pub fn run_serial(alloc: Global, checked: &Checked, job: &Job) -> Result<Ran, AllocError>
    ensures { IfOk result (λ ran. run_of checked.now job.now ≡ ran_of ran.shown.items ran.heaps.items ran.tables) }
{
    let wanted = wanted_calls(alloc, job.calls.as_slice())?;
    let tables = load_rows(alloc, &checked.schema, job.rows.as_slice())?;
    serve(
        alloc,
        checked,
        tables,
        job.settings.sessions,
        wanted.as_slice(),
    )
}
