//! The statements that print.

ghost use Rattle.std.specs.Prelude.{◌≡◌, ◌++◌, IfOk, OnOk};
ghost use Rattle.px_job.specs.Prints.{if_print, prints_in, prints_among, prints_of_methods, prints_of, is_print, ArePrints};

use px_normal::{Code, Method, Tree, Word};
use sqlite_items::Items;
use std::alloc::{AllocError, Global};
use std::collections::HashSet;
use std::marker::Model;

/// The numbers of the nodes of prints, seen as their list.
#[derive(Drop)]
pub(crate) struct Prints {
    list: Items<usize>,
    set: HashSet<usize>,
}

impl Model for Prints {
    ghost use Rattle.std.specs.Prelude.{List, ℕ};
    ghost use Rattle.px_job.specs.Prints.{ArePrints};

    ghost Value = { List ℕ };

    ghost view = { λ p. p.list };

    ghost invariant = { λ p. ArePrints p.set p.list };
}

impl Prints {
    pub(crate) fn new(alloc: Global, code: &Code) -> Result<Prints, AllocError>
        ensures { IfOk result (λ prints. prints ≡ prints_of code.now) }
    {
        let list = list_of(alloc, code.methods.as_slice())?;
        let set = set_of(alloc, list.as_slice())?;
        Ok(Prints { list, set })
    }

    /// Whether the node of a number is a print.
    pub(crate) fn has(&self, number: usize) -> bool
        ensures { result ≡ is_print self.now number }
    {
        self.set.contains(&number)
    }
}

fn list_of(alloc: Global, methods: &[Method]) -> Result<Items<usize>, AllocError>
    ensures { IfOk result (λ prints. prints ≡ prints_of_methods methods.now) }
{
    let mut prints = Items::new(alloc);
    for method in methods {
        push_prints(&mut prints, method.body.as_slice())?;
    }
    Ok(prints)
}

#[cycle(prints)]
fn push_prints(prints: &mut Items<usize>, trees: &[Tree]) -> Result<(), AllocError>
    ensures { OnOk result (prints.new ≡ prints.old ++ prints_among trees.now) }
{
    for tree in trees {
        push_prints_in(prints, tree)?;
    }
    Ok(())
}

#[cycle(prints)]
fn push_prints_in(prints: &mut Items<usize>, tree: &Tree) -> Result<(), AllocError>
    ensures { OnOk result (prints.new ≡ prints.old ++ prints_in tree.now) }
{
    match tree {
        Tree::Do { node, word } => push_if_print(prints, *node as usize, word),
        Tree::If {
            node: _,
            test: _,
            yes,
            no,
        } => {
            push_prints(prints, yes.as_slice())?;
            push_prints(prints, no.as_slice())
        }
        Tree::Loop {
            first,
            node: _,
            test: _,
            body,
        } => {
            push_prints(prints, first.as_slice())?;
            push_prints(prints, body.as_slice())
        }
    }
}

fn push_if_print(prints: &mut Items<usize>, node: usize, word: &Word) -> Result<(), AllocError>
    ensures { OnOk result (prints.new ≡ prints.old ++ if_print node word.now) }
{
    match word {
        Word::Print(_) => prints.push(node),
        _ => Ok(()),
    }
}

fn set_of(alloc: Global, numbers: &[usize]) -> Result<HashSet<usize>, AllocError>
    ensures { IfOk result (λ set. ArePrints set numbers.now) }
{
    let mut set = HashSet::new(alloc);
    for number in numbers {
        set.insert(*number)?;
    }
    Ok(set)
}
