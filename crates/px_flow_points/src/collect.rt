//! Constraints, statement by statement.
ghost use Rattle.std.specs.Prelude.{◌≡◌, ◌++◌, ◌∷◌, [], ◌+◌, ◌<◌, ◌^◌, ◌-◌, length, OnOk, IfOk};
ghost use Rattle.px_flow_points.specs.Constraints.{passed_one, passed, given_back, starts, look, word_constraints, tree_constraints, trees_constraints, entry_constraints, methods_constraints};
ghost use Rattle.px_flow_points.specs.Numbers.{slot_var, result_var};

use crate::numbers::Numbers;
use px_constraints::{Constraint, Fact, Look};
use px_normal::{Method, Operand, Tree, Word};
use std::alloc::{AllocError, Global};

fn pass_one(
    numbers: &Numbers,
    method: u16,
    callee: u16,
    slot: usize,
    arg: &Operand,
    into: &mut Vec<Constraint>,
) -> Result<(), AllocError>
    ensures { OnOk result (into.new.items ≡ into.old.items ++ passed_one numbers.now method callee slot arg.now) }
{
    if let Operand::Slot(from) = arg {
        into.push(Constraint::Copies(
            numbers.slot(method, usize::from(*from)),
            numbers.slot(callee, slot),
        ))?;
    }
    Ok(())
}

fn pass(
    numbers: &Numbers,
    method: u16,
    callee: u16,
    args: &[Operand],
    into: &mut Vec<Constraint>,
) -> Result<(), AllocError>
    ensures { OnOk result (into.new.items ≡ into.old.items ++ passed numbers.now method callee 1 args.now) }
{
    let mut slot: usize = 1;
    for arg in args {
        pass_one(numbers, method, callee, slot, arg, into)?;
        slot += 1;
    }
    Ok(())
}

fn give_back(
    numbers: &Numbers,
    method: u16,
    callee: u16,
    to: &Option<u16>,
    into: &mut Vec<Constraint>,
) -> Result<(), AllocError>
    ensures { OnOk result (into.new.items ≡ into.old.items ++ given_back numbers.now method callee to.now) }
{
    if let Some(to) = to {
        into.push(Constraint::Copies(
            numbers.result(callee),
            numbers.slot(method, usize::from(*to)),
        ))?;
    }
    Ok(())
}

fn call(
    numbers: &Numbers,
    method: u16,
    callee: u16,
    to: &Option<u16>,
    of: &Operand,
    args: &[Operand],
    into: &mut Vec<Constraint>,
) -> Result<(), AllocError>
    ensures { OnOk result (into.new.items ≡ into.old.items ++ ((passed_one numbers.now method callee 0 of.now ++ passed numbers.now method callee 1 args.now) ++ given_back numbers.now method callee to.now)) }
{
    pass_one(numbers, method, callee, 0, of, into)?;
    pass(numbers, method, callee, args, into)?;
    give_back(numbers, method, callee, to, into)
}

fn start(
    numbers: &Numbers,
    method: u16,
    slot: u16,
    site: u16,
    into: &mut Vec<Constraint>,
) -> Result<(), AllocError>
    ensures { OnOk result (into.new.items ≡ into.old.items ++ starts (slot_var numbers.now method slot) site ∷ []) }
{
    into.push(Constraint::Start(Fact {
        var: numbers.slot(method, usize::from(slot)),
        site,
    }))?;
    Ok(())
}

fn copy(
    numbers: &Numbers,
    method: u16,
    from: u16,
    to: u16,
    into: &mut Vec<Constraint>,
) -> Result<(), AllocError>
    ensures { OnOk result (into.new.items ≡ into.old.items ++ Constraint.Copies (slot_var numbers.now method from) (slot_var numbers.now method to) ∷ []) }
{
    into.push(Constraint::Copies(
        numbers.slot(method, usize::from(from)),
        numbers.slot(method, usize::from(to)),
    ))?;
    Ok(())
}

fn load(
    numbers: &Numbers,
    method: u16,
    of: u16,
    part: u16,
    to: u16,
    into: &mut Vec<Constraint>,
) -> Result<(), AllocError>
    ensures { OnOk result (into.new.items ≡ into.old.items ++ Constraint.Loads (slot_var numbers.now method of) (look part (slot_var numbers.now method to)) ∷ []) }
{
    into.push(Constraint::Loads(
        numbers.slot(method, usize::from(of)),
        Look {
            part,
            slot: numbers.slot(method, usize::from(to)),
        },
    ))?;
    Ok(())
}

fn store(
    numbers: &Numbers,
    method: u16,
    of: u16,
    part: u16,
    value: u16,
    into: &mut Vec<Constraint>,
) -> Result<(), AllocError>
    ensures { OnOk result (into.new.items ≡ into.old.items ++ Constraint.Stores (slot_var numbers.now method of) (look part (slot_var numbers.now method value)) ∷ []) }
{
    into.push(Constraint::Stores(
        numbers.slot(method, usize::from(of)),
        Look {
            part,
            slot: numbers.slot(method, usize::from(value)),
        },
    ))?;
    Ok(())
}

fn give(
    numbers: &Numbers,
    method: u16,
    from: u16,
    into: &mut Vec<Constraint>,
) -> Result<(), AllocError>
    ensures { OnOk result (into.new.items ≡ into.old.items ++ Constraint.Copies (slot_var numbers.now method from) (result_var numbers.now method) ∷ []) }
{
    into.push(Constraint::Copies(
        numbers.slot(method, usize::from(from)),
        numbers.result(method),
    ))?;
    Ok(())
}

fn statement(
    numbers: &Numbers,
    method: u16,
    word: &Word,
    into: &mut Vec<Constraint>,
) -> Result<(), AllocError>
    ensures { OnOk result (into.new.items ≡ into.old.items ++ word_constraints numbers.now method word.now) }
{
    match word {
        Word::Set {
            to,
            value: Operand::Slot(from),
        } => copy(numbers, method, *from, *to, into),
        Word::Get {
            to,
            of: Operand::Slot(of),
            class: _,
            field,
        } => load(numbers, method, *of, *field, *to, into),
        Word::Put {
            of: Operand::Slot(of),
            class: _,
            field,
            value: Operand::Slot(value),
        } => store(numbers, method, *of, *field, *value, into),
        Word::Load {
            to,
            of: Operand::Slot(of),
            index: _,
        } => load(numbers, method, *of, 0, *to, into),
        Word::Store {
            of: Operand::Slot(of),
            index: _,
            value: Operand::Slot(value),
        } => store(numbers, method, *of, 0, *value, into),
        Word::New { to, class: _, site } => start(numbers, method, *to, *site, into),
        Word::Array {
            to,
            element: _,
            length: _,
            site,
        } => start(numbers, method, *to, *site, into),
        Word::Query {
            to,
            statement: _,
            site,
            params: _,
        } => start(numbers, method, *to, *site, into),
        Word::Call {
            to,
            of,
            method: callee,
            args,
        } => call(numbers, method, *callee, to, of, args.as_slice(), into),
        Word::Return(Some(Operand::Slot(from))) => give(numbers, method, *from, into),
        _ => Ok(()),
    }
}

#[cycle(walk)]
fn tree(
    numbers: &Numbers,
    method: u16,
    tree_of: &Tree,
    into: &mut Vec<Constraint>,
) -> Result<(), AllocError>
    ensures { OnOk result (into.new.items ≡ into.old.items ++ tree_constraints numbers.now method tree_of.now) }
{
    match tree_of {
        Tree::Do { node: _, word } => statement(numbers, method, word, into),
        Tree::If {
            node: _,
            test: _,
            yes,
            no,
        } => {
            trees(numbers, method, yes.as_slice(), into)?;
            trees(numbers, method, no.as_slice(), into)
        }
        Tree::Loop {
            first,
            node: _,
            test: _,
            body,
        } => {
            trees(numbers, method, first.as_slice(), into)?;
            trees(numbers, method, body.as_slice(), into)
        }
    }
}

#[cycle(walk)]
fn trees(
    numbers: &Numbers,
    method: u16,
    list: &[Tree],
    into: &mut Vec<Constraint>,
) -> Result<(), AllocError>
    ensures { OnOk result (into.new.items ≡ into.old.items ++ trees_constraints numbers.now method list.now) }
{
    for item in list {
        tree(numbers, method, item, into)?;
    }
    Ok(())
}

fn enter(
    numbers: &Numbers,
    method: u16,
    entry: bool,
    into: &mut Vec<Constraint>,
) -> Result<(), AllocError>
    ensures { OnOk result (into.new.items ≡ into.old.items ++ entry_constraints numbers.now method entry) }
{
    if entry {
        start(numbers, method, 0, 0, into)?;
    }
    Ok(())
}

fn method_of(
    numbers: &Numbers,
    number: u16,
    method: &Method,
    into: &mut Vec<Constraint>,
) -> Result<(), AllocError>
    ensures { OnOk result (into.new.items ≡ into.old.items ++ (entry_constraints numbers.now number method.now.entry ++ trees_constraints numbers.now number method.now.body)) }
{
    enter(numbers, number, method.entry, into)?;
    trees(numbers, number, method.body.as_slice(), into)
}

/// The constraints of all methods, in order.
pub fn constraints(
    alloc: Global,
    numbers: &Numbers,
    methods: &[Method],
) -> Result<Vec<Constraint>, AllocError>
    requires { length methods.now < 2 ^ 16 - 1 }
    ensures { IfOk result (λ list. list.items ≡ methods_constraints numbers.now 1 methods.now) }
{
    let mut list = Vec::new(alloc);
    let mut number: u16 = 1;
    for method in methods {
        method_of(numbers, number, method, &mut list)?;
        number += 1;
    }
    Ok(list)
}
