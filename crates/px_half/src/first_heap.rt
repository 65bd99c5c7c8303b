//! The heap of a new session.
ghost use Rattle.std.specs.Prelude.{◌≡◌, ◌<◌, map, length, [], ◌∷◌, ◌++◌, IfOk, OnOk};
ghost use Rattle.std.specs.Option.{option_copied};
ghost use Rattle.px_value.specs.Heap.{max_counted};
ghost use Rattle.px_value.specs.Defaults.{default_of};
ghost use Rattle.px_half.specs.End.{class_defaults as defaults_in, first_object, first_objects, HasSmallMain};

use px_code::{Code, Field, Plan};
use px_value::{Header, Heap, Kind, Values};
use sqlite_items::at;
use std::alloc::{AllocError, Global};

fn push_defaults(cells: &mut Values, fields: &[Field]) -> Result<(), AllocError>
    ensures { OnOk result (cells.new ≡ cells.old ++ map default_of (map (λ f. f.ty) fields.now)) }
{
    for field in fields {
        cells.push(field.ty.default_value())?;
    }
    Ok(())
}

/// The cells of a new object of a class.
pub fn class_defaults(alloc: Global, code: &Code, class: u16) -> Result<Values, AllocError>
    ensures { IfOk result (λ cells. cells ≡ defaults_in code.now class) }
{
    let mut cells = Values::new(alloc);
    if let Some(class) = at(code.classes.as_slice(), usize::from(class)) {
        push_defaults(&mut cells, class.fields.as_slice())?;
    }
    Ok(cells)
}

fn add_first(alloc: Global, heap: &mut Heap, code: &Code) -> Result<(), AllocError>
    requires empty { heap.old ≡ [] }
    requires small { length (defaults_in code.now code.now.main) < max_counted }
    ensures { IfOk result (λ _. heap.new ≡ first_object code.now ∷ []) }
{
    let cells = class_defaults(alloc, code, code.main)?;
    let header = Header {
        kind: Kind::Object(code.main),
        site: 0,
        length: cells.len() as u32,
    };
    match heap.add(header, cells) {
        Ok(_) => Ok(()),
        Err(_) => Err(AllocError),
    }
}

/// One object of Main.
pub fn first_heap(alloc: Global, plan: Option<&Plan>) -> Result<Heap, AllocError>
    requires { HasSmallMain (option_copied plan) }
    ensures { IfOk result (λ heap. heap ≡ first_objects (option_copied plan.entry)) }
{
    let mut heap = Heap::new(alloc);
    if let Some(plan) = plan {
        add_first(alloc, &mut heap, &plan.code)?;
    }
    Ok(heap)
}
