//! The cells that a message carries.
ghost use Rattle.std.specs.Prelude.{◌≡◌, IfOk};
ghost use Rattle.std.specs.Option.{option_copied};
ghost use Rattle.px_half.specs.Machine.{machine_of};
ghost use Rattle.px_half.specs.Messages.{AreCarried};
ghost use Rattle.px_half.specs.Carry.{AreEachOnce, HasNamed, IsLookupOf, names, is_named_cell, carried as carried_of};

use crate::home::home;
use crate::machine::Machine;
use px_code::{Cell, Naming, Plan, Side};
use px_value::Heap;
use px_wire::CellAt;
use sqlite_items::Items;
use std::alloc::{AllocError, Global};
use std::collections::BTreeSet;

/// The objects that the sends named, for look-up.
#[derive(Drop)]
struct Named {
    app: BTreeSet<u32>,
    db: BTreeSet<u32>,
}

// The objects that a send at a side named.
fn named_at(alloc: Global, named: &[Naming], side: Side) -> Result<BTreeSet<u32>, AllocError>
    ensures { IfOk result (HasNamed named.now side) }
{
    let mut objects = BTreeSet::new(alloc);
    for naming in named {
        if naming.home == side {
            objects.insert(naming.object)?;
        }
    }
    Ok(objects)
}

impl Named {
    fn new(alloc: Global, named: &[Naming]) -> Result<Named, AllocError>
        ensures { IfOk result (IsLookupOf named.now) }
    {
        Ok(Named {
            app: named_at(alloc, named, Side::App)?,
            db: named_at(alloc, named, Side::Db)?,
        })
    }

    fn has(&self, side: Side, object: u32) -> bool
        ensures { result ≡ names self.now side object }
    {
        match side {
            Side::App => self.app.contains(&object),
            Side::Db => self.db.contains(&object),
        }
    }
}

// The marked cells in order, each once.
fn each_once(alloc: Global, marks: &[Cell]) -> Result<Vec<Cell>, AllocError>
    ensures { IfOk result (λ cells. AreEachOnce marks.now cells.items) }
{
    let mut cells = Vec::from_slice(alloc, marks)?;
    cells.sort_unstable();
    cells.dedup();
    Ok(cells)
}

// Whether a send at the home of the cell named its object.
fn is_named(plan: Option<&Plan>, heap: &Heap, named: &Named, cell: Cell) -> bool
    ensures { result ≡ is_named_cell (option_copied plan.entry) heap.now (names named.now) cell }
{
    let side = home(plan, heap.header(cell.object), cell.index);
    named.has(side, cell.object)
}

// Those of the cells that are named and that the heap has, with their values.
fn carried(
    alloc: Global,
    plan: Option<&Plan>,
    heap: &Heap,
    named: &Named,
    cells: &[Cell],
) -> Result<Items<CellAt>, AllocError>
    ensures { IfOk result (λ out. out ≡ carried_of (option_copied plan.entry) heap.now (names named.now) cells.now) }
{
    let mut out = Items::new(alloc);
    for cell in cells {
        if is_named(plan, heap, named, *cell) {
            if let Some(value) = heap.get(cell.object, cell.index) {
                out.push(CellAt {
                    object: cell.object,
                    index: cell.index,
                    value: value.copy(alloc)?,
                })?;
            }
        }
    }
    Ok(out)
}

/// The cells that were written and named since control came, in order, each once.
pub fn carried_cells(
    alloc: Global,
    plan: Option<&Plan>,
    machine: &Machine,
) -> Result<Items<CellAt>, AllocError>
    ensures { IfOk result (λ cells. AreCarried (option_copied plan.entry) (machine_of machine.now) cells) }
{
    let named = Named::new(alloc, machine.named.as_slice())?;
    let cells = each_once(alloc, machine.marks.as_slice())?;
    carried(alloc, plan, &machine.heap, &named, cells.as_slice())
}
