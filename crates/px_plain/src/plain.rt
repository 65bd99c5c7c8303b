//! Entry calls, one at a time, each on the heap of its session and on the tables.
ghost use Rattle.std.specs.Prelude.{◌≡◌, ◌<◌, ◌++◌, ◌∷◌, length, replicate, [], IfOk, OnOk};
ghost use Rattle.std.specs.Option.{option_copied};
ghost use Rattle.px_value.specs.declared.value.Value.TheVariants.{Ref};
ghost use Rattle.px_mean.specs.Facts as mean_facts;
ghost use Rattle.px_mean.specs.Asks.{by_tables};
ghost use Rattle.px_mean.specs.Entry.{exec, ended, call_of, first_heap as mean_first_heap, reply_of as mean_reply_of};
ghost use Rattle.px_mean.specs.Program.{methods_in as mean_methods_in, methods_of as mean_methods_of, source_from};
ghost use Rattle.px_mean.specs.Serial.{one_call, first_stand};
ghost use Rattle.px_plain.specs.View.{all_now};
ghost use Rattle.px_plain.specs.Plain.{source_with, source_in, stands, call_with, left_by, CallsAt};

use crate::around::Around;
use crate::asked::Asked;
use crate::calls::enter;
use crate::effects::defaults;
use crate::facts::fields_of;
use crate::machine::Machine;
use crate::prints::Prints;
use crate::stop::Stop;
use crate::store::Store;
use px_code::{Reply, Shown};
use px_facts::{Checked, Facts, Ty};
use px_rows::Tables;
use px_tree::{Class, Member, Method};
use px_value::{Header, Heap, Kind, MAX_FRAMES, Schema, Value, Values};
use sqlite_items::{Items, at};
use std::alloc::{AllocError, Global};
use std::mem;

/// The heaps of the sessions of a program, and its tables.
#[derive(Drop)]
pub struct Plain<'a> {
    pub alloc: Global,
    pub facts: &'a Facts,
    pub methods: Vec<&'a Method>,
    /// In order from session 1.
    pub heaps: Vec<Heap>,
    pub tables: Tables,
}

/// What a call leaves.
#[derive(Drop)]
pub struct Called {
    pub shown: Shown,
    pub heap: Heap,
    pub tables: Tables,
}

fn push_methods<'a>(methods: &mut Vec<&'a Method>, members: &'a [Member]) -> Result<(), AllocError>
    ensures { OnOk result (all_now methods.new.items ≡ all_now methods.old.items ++ mean_methods_in members.now) }
{
    for member in members {
        match member {
            Member::Field(_) => {}
            Member::Method(method) => methods.push(method)?,
        }
    }
    Ok(())
}

fn methods_of(alloc: Global, classes: &[Class]) -> Result<Vec<&Method>, AllocError>
    ensures { IfOk result (λ methods. all_now methods.items ≡ mean_methods_of classes.now) }
{
    let mut methods = Vec::new(alloc);
    for class in classes {
        push_methods(&mut methods, class.members.as_slice())?;
    }
    Ok(methods)
}

// A session's first heap.
fn first_heap(alloc: Global, facts: &Facts) -> Result<Heap, AllocError>
    ensures { IfOk result (λ heap. heap ≡ mean_first_heap facts.now) }
{
    let mut heap = Heap::new(alloc);
    let class = facts.main.class;
    let cells = defaults(alloc, fields_of(facts, class))?;
    let Ok(length) = u32::try_from(cells.len()) else {
        return Err(AllocError);
    };
    let header = Header {
        kind: Kind::Object(class),
        site: 0,
        length,
    };
    match heap.add(header, cells) {
        Ok(_) => Ok(heap),
        Err(_) => Err(AllocError),
    }
}

fn first_heaps(alloc: Global, facts: &Facts, sessions: u16) -> Result<Vec<Heap>, AllocError>
    ensures { IfOk result (λ heaps. heaps.items ≡ replicate sessions (mean_first_heap facts.now)) }
{
    let mut heaps = Vec::new(alloc);
    for _ in 0..sessions {
        heaps.push(first_heap(alloc, facts)?)?;
    }
    Ok(heaps)
}

fn reply_of(given: Option<Value>) -> Reply
    ensures { result ≡ mean_reply_of given }
{
    match given {
        None => Reply::Void,
        Some(value) => Reply::Value(value),
    }
}

// Object 0 is the receiver.
fn values_of(alloc: Global, args: &[Value]) -> Result<Values, AllocError>
    ensures { IfOk result (λ values. values ≡ Ref 0 ∷ args.now) }
{
    let mut values = Values::new(alloc);
    values.push(Value::Ref(0))?;
    for arg in args {
        values.push(arg.copy(alloc)?)?;
    }
    Ok(values)
}

fn shown_nothing(alloc: Global) -> Shown
    ensures { result ≡ record { reply = Reply.Void; prints = [] } }
{
    Shown {
        reply: Reply::Void,
        prints: Items::new(alloc),
    }
}

// Tables of a program that declares none, which stand in for those that a call has.
fn no_tables(alloc: Global) -> Result<Tables, AllocError> {
    let schema = Schema {
        tables: Items::new(alloc),
    };
    Tables::new(alloc, &schema)
}

// A call of a method on a heap and on the tables.
#[tactic(auto, unfolding(px_mean::specs::Entry::all_frames))]
fn call_on(
    alloc: Global,
    facts: &Facts,
    methods: &[&Method],
    heap: Heap,
    tables: Tables,
    method: u16,
    args: &[Value],
) -> Result<Called, AllocError>
    ensures { IfOk result (λ c. ended heap tables (exec by_tables (source_with facts.now methods.now) heap tables method args.now) ≡ left_by c) }
{
    let values = values_of(alloc, args)?;
    let around = Around {
        alloc,
        facts,
        methods,
        result: Ty::Void,
        left: MAX_FRAMES,
    };
    let mut m = Machine {
        store: Store::new(alloc, heap),
        prints: Prints::new(alloc),
        turns: 0,
        asked: Asked::new(alloc, tables),
    };
    match enter(&around, &mut m, method, values) {
        Ok(given) => Ok(Called {
            shown: Shown {
                reply: reply_of(given),
                prints: Items::from_vec(m.prints.into_lines()),
            },
            heap: m.store.into_heap(),
            tables: m.asked.into_tables(),
        }),
        Err(Stop::Threw(thrown)) => Ok(Called {
            shown: Shown {
                reply: Reply::Threw(thrown),
                prints: Items::new(alloc),
            },
            heap: m.store.into_old_heap(),
            tables: m.asked.into_old_tables(),
        }),
        Err(Stop::NoMemory) => Err(AllocError),
    }
}

// A call of an entry, by its place, on a heap and on the tables.
#[tactic(auto, unfolding(px_mean::specs::Entry::call_of))]
fn call_entry(
    alloc: Global,
    facts: &Facts,
    methods: &[&Method],
    heap: Heap,
    tables: Tables,
    entry: usize,
    args: &[Value],
) -> Result<Called, AllocError>
    ensures { IfOk result (λ c. call_of by_tables (source_with facts.now methods.now) heap tables entry args.now ≡ left_by c) }
{
    match at(facts.main.entries.as_slice(), entry) {
        Some(entry) => call_on(alloc, facts, methods, heap, tables, entry.method, args),
        None => Ok(Called {
            shown: shown_nothing(alloc),
            heap,
            tables,
        }),
    }
}

impl<'a> Plain<'a> {
    /// Sessions that have made no call, on these tables.
    pub fn new(
        alloc: Global,
        checked: &'a Checked,
        sessions: u16,
        tables: Tables,
    ) -> Result<Plain<'a>, AllocError>
        ensures source { IfOk result (λ p. source_in p ≡ source_from checked.now) }
        ensures stand { IfOk result (λ p. stands p ≡ first_stand (source_from checked.now) sessions tables) }
    {
        let methods = methods_of(alloc, checked.program.classes.as_slice())?;
        let heaps = first_heaps(alloc, &checked.facts, sessions)?;
        Ok(Plain {
            alloc,
            facts: &checked.facts,
            methods,
            heaps,
            tables,
        })
    }

    fn call_at(&mut self, place: usize, entry: usize, args: &[Value]) -> Result<Shown, AllocError>
        requires { place < length self.old.heaps.items }
        ensures calls { IfOk result (λ shown. CallsAt (source_in self.old) (stands self.old) place entry args.now shown (stands self.new)) }
        ensures source { source_in self.new ≡ source_in self.old }
    {
        let none = no_tables(self.alloc)?;
        let tables = mem::replace(&mut self.tables, none);
        let heap = mem::replace(&mut self.heaps[place], Heap::new(self.alloc));
        let called = call_entry(
            self.alloc,
            self.facts,
            self.methods.as_slice(),
            heap,
            tables,
            entry,
            args,
        )?;
        self.heaps[place] = called.heap;
        self.tables = called.tables;
        Ok(called.shown)
    }

    /// A call of an entry, by its place, by a session from 1. What isn't there does nothing.
    pub fn call(&mut self, session: u16, entry: usize, args: &[Value]) -> Result<Shown, AllocError>
        ensures call { IfOk result (λ shown. one_call by_tables (source_in self.old) (call_with session entry args.now) (stands self.old) ≡ (shown, stands self.new)) }
        ensures source { source_in self.new ≡ source_in self.old }
    {
        let number = usize::from(session);
        if number == 0 {
            return Ok(shown_nothing(self.alloc));
        }
        if number > self.heaps.len() {
            return Ok(shown_nothing(self.alloc));
        }
        self.call_at(number - 1, entry, args)
    }

    /// The heap of a session from 1.
    pub fn heap(&self, session: u16) -> Option<&Heap>
        ensures { option_copied result ≡ mean_facts.by_number self.now.heaps.items session }
    {
        let number = usize::from(session);
        if number == 0 {
            return None;
        }
        at(self.heaps.as_slice(), number - 1)
    }

    pub fn tables(&self) -> &Tables
        ensures { result.now ≡ self.now.tables }
    {
        &self.tables
    }
}
