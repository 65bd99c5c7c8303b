//! What is done with what is said.
ghost use Rattle.std.specs.Prelude.{◌≡◌, List, None, Ok, Err, IfOk, OnErr};
ghost use Rattle.px_value.specs.declared.object.Object.{Object};
ghost use Rattle.px_effects.specs.Act.{Acted, acted};
ghost use Rattle.px_effects.specs.Cells.{Fresh, first_cells};
ghost use Rattle.px_effects.specs.Operations.{with_said};
ghost use Rattle.px_normal.specs.Words.{answer_of};
ghost use Rattle.px_acts.specs.Ends.{Makes};
ghost use Rattle.px_acts.specs.Answers.{AnswersAs, said_of};

use crate::place::Cells;
use crate::rows::{Made, changed, make_rows};
use crate::said::Said;
use crate::stop::Stop;
use crate::store::Store;
use px_normal::Word;
use px_value::{Answer, Thrown, Value};
use std::alloc::{AllocError, Global};

/// A value or a throw, and the cells of a new result set that were written, if there is one.
#[derive(Debug, Drop)]
pub struct Answered {
    pub value: Result<Value, Thrown>,
    pub wrote: Option<Cells>,
}

fn comes(value: Result<Value, Thrown>) -> Answered
    ensures value { result.value ≡ value }
    ensures wrote { result.wrote ≡ None }
{
    Answered { value, wrote: None }
}

fn made(came: Result<Made, Stop>) -> Result<Answered, AllocError>
    ensures acts { (a : Acted) (heap : List Object) → Makes a came heap → IfOk result (λ r. AnswersAs a r heap) }
    ensures failed { OnErr result (came ≡ Err Stop.NoMemory) }
{
    match came {
        Ok(made) => Ok(answered_of(made)),
        Err(Stop::Threw(thrown)) => Ok(Answered {
            value: Err(thrown),
            wrote: None,
        }),
        Err(Stop::NoMemory) => Err(AllocError),
    }
}

fn answered_of(made: Made) -> Answered
    ensures { (a : Acted) (heap : List Object) → Makes a (Ok made) heap → AnswersAs a result heap }
{
    let Made { value, wrote } = made;
    Answered {
        value: Ok(value),
        wrote,
    }
}

fn with_answer(
    alloc: Global,
    store: &mut Store,
    word: &Word,
    answer: &Answer,
) -> Result<Answered, AllocError>
    ensures acts { (fresh : Fresh) → IfOk result (λ r. AnswersAs (acted (first_cells fresh) (answer_of word.now answer.now) store.old.heap) r store.new.heap) }
    ensures closed { store.new.closed ≡ store.old.closed }
    ensures kept { OnErr result (store.new.heap ≡ store.old.heap) }
{
    match word {
        Word::Query {
            to: _,
            statement,
            site,
            params: _,
        } => made(make_rows(alloc, store, *statement, *site, answer)),
        Word::Update { .. } => Ok(comes(changed(answer))),
        _ => Ok(comes(Ok(Value::Null))),
    }
}

/// What a word does with what is said to its question.
pub fn answer(
    alloc: Global,
    store: &mut Store,
    word: &Word,
    said: &Said,
) -> Result<Answered, AllocError>
    ensures acts { (fresh : Fresh) → IfOk result (λ r. AnswersAs (acted (first_cells fresh) (with_said (answer_of word.now) (said_of said.now)) store.old.heap) r store.new.heap) }
    ensures closed { store.new.closed ≡ store.old.closed }
    ensures kept { OnErr result (store.new.heap ≡ store.old.heap) }
{
    match said {
        Said::Answers(answer) => with_answer(alloc, store, word, answer),
        Said::Out => Ok(comes(Err(Thrown::OpsOut))),
    }
}
