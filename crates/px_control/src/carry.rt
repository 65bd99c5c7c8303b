//! The cells that a message carries.
ghost use Rattle.std.specs.Prelude.{◌≡◌, ◌++◌, [], ◌∷◌, ℕ, map, if◌then◌else◌, IfOk, OnOk};
ghost use Rattle.std.specs.Option.{option_copied};
ghost use Rattle.px_blocks.specs.Plan.{Plan, home_at};
ghost use Rattle.px_blocks.specs.Machine.{named};
ghost use Rattle.px_blocks.specs.Message.{carried as machine_carried, in_order, with_value, valued};
ghost use Rattle.px_effects.specs.Act.{header_at};
ghost use Rattle.px_control.specs.Marks.{cell_of};
ghost use Rattle.px_control.specs.Names.{kind_at as kind_at_side};

use crate::homes::Homes;
use crate::marks::Mark;
use crate::message::CellAt;
use crate::names::Names;
use px_blocks::{SendKind, Side};
use px_value::{Heap, Value};
use std::alloc::{AllocError, Global};
use std::collections::BTreeSet;

// Where a cell is at home; what isn't there is at APP.
fn home_of<H: Homes>(homes: &H, heap: &Heap, mark: Mark) -> Side
    ensures { (plan : Plan) → plan.home ≡ H.home homes.now → result ≡ home_at plan (header_at heap.now mark.object) mark.index }
{
    match heap.header(mark.object) {
        Some(header) => homes.home(header, mark.index),
        None => Side::App,
    }
}

fn kind_at(side: Side) -> SendKind
    ensures { result ≡ kind_at_side side }
{
    match side {
        Side::App => SendKind::App,
        Side::Db => SendKind::Db,
    }
}

// Whether a send has named a cell.
fn is_named<H: Homes>(homes: &H, heap: &Heap, names: &Names, mark: Mark) -> bool
    ensures { (plan : Plan) → plan.home ≡ H.home homes.now → result ≡ named plan (header_at heap.now mark.object) names.now mark.object mark.index }
{
    let kind = kind_at(home_of(homes, heap, mark));
    names.has(kind, mark.object) | names.has(SendKind::Native, mark.object)
}

fn push_if(marks: &mut Vec<Mark>, named: bool, mark: Mark) -> Result<(), AllocError>
    ensures { OnOk result (marks.new.items ≡ marks.old.items ++ (if named then mark ∷ [] else [])) }
{
    if named {
        marks.push(mark)?;
    }
    Ok(())
}

// The marks whose cells were named.
fn carried<H: Homes>(
    alloc: Global,
    homes: &H,
    heap: &Heap,
    names: &Names,
    marks: &[Mark],
) -> Result<Vec<Mark>, AllocError>
    ensures { IfOk result (λ ms. (plan : Plan) → plan.home ≡ H.home homes.now → map cell_of ms.items ≡ machine_carried plan heap.now names.now (map cell_of marks.now)) }
{
    let mut carried = Vec::new(alloc);
    for mark in marks {
        push_if(&mut carried, is_named(homes, heap, names, *mark), *mark)?;
    }
    Ok(carried)
}

// Marks as a set, put in from the last on.
fn set_of(alloc: Global, marks: &[Mark]) -> Result<BTreeSet<Mark>, AllocError>
    ensures { IfOk result (λ set. map cell_of set.keys ≡ in_order (map cell_of marks.now)) }
{
    let mut set = BTreeSet::new(alloc);
    for at in (0..marks.len()).rev() {
        set.insert(marks[at])?;
    }
    Ok(set)
}

fn list_of(alloc: Global, set: BTreeSet<Mark>) -> Result<Vec<Mark>, AllocError>
    ensures { IfOk result (λ marks. marks.items ≡ set.keys) }
{
    let mut marks = Vec::new(alloc);
    for mark in set {
        marks.push(mark)?;
    }
    Ok(marks)
}

fn push_cell(
    alloc: Global,
    cells: &mut Vec<CellAt>,
    mark: Mark,
    value: Option<&Value>,
) -> Result<(), AllocError>
    ensures { OnOk result (cells.new.items ≡ cells.old.items ++ with_value (option_copied value.entry) (cell_of mark) []) }
{
    if let Some(value) = value {
        cells.push(CellAt {
            object: mark.object,
            index: mark.index,
            value: value.copy(alloc)?,
        })?;
    }
    Ok(())
}

// The cells that there are, with their values.
fn with_values(alloc: Global, heap: &Heap, marks: &[Mark]) -> Result<Vec<CellAt>, AllocError>
    ensures { IfOk result (λ cells. cells.items ≡ valued heap.now (map cell_of marks.now)) }
{
    let mut cells = Vec::new(alloc);
    for mark in marks {
        push_cell(alloc, &mut cells, *mark, heap.get(mark.object, mark.index))?;
    }
    Ok(cells)
}

/// The cells that were written and named, in order, with their values.
pub fn carried_cells<H: Homes>(
    alloc: Global,
    homes: &H,
    heap: &Heap,
    names: &Names,
    marks: &[Mark],
) -> Result<Vec<CellAt>, AllocError>
    ensures { IfOk result (λ cells. (plan : Plan) → plan.home ≡ H.home homes.now → cells.items ≡ valued heap.now (in_order (machine_carried plan heap.now names.now (map cell_of marks.now)))) }
{
    let carried = carried(alloc, homes, heap, names, marks)?;
    let set = set_of(alloc, carried.as_slice())?;
    let marks = list_of(alloc, set)?;
    with_values(alloc, heap, marks.as_slice())
}
