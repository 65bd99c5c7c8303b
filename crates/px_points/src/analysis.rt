//! The least sets that the statements ask for, by passes until one finds nothing new.
ghost use Rattle.std.specs.Prelude.{◌≡◌, map, IfOk};
ghost use Rattle.px_code.specs.WellFormed.{IsWellFormed, main_fields as fields_of_main};
ghost use Rattle.px_points.specs.Analysis.{first_marks as first_marks_of, first_places, IsPointsOf};

use crate::marks::Marks;
use crate::pass::{Draft, pass};
use crate::points::Points;
use px_code::{Code, Field, Method};
use sqlite_items::at;
use std::alloc::{AllocError, Global};

// `this` of an entry is the object of Main.
fn first_marks(alloc: Global, method: &Method) -> Result<Marks, AllocError>
    ensures { IfOk result (λ marks. marks ≡ first_marks_of method.now) }
{
    let mut marks = Marks::new(alloc, method.slots.len())?;
    if method.entry {
        marks.mark(0);
    }
    Ok(marks)
}

fn first_slots(alloc: Global, methods: &[Method]) -> Result<Vec<Marks>, AllocError>
    ensures { IfOk result (λ slots. slots.items ≡ map first_marks_of methods.now) }
{
    let mut slots = Vec::new(alloc);
    for method in methods {
        slots.push(first_marks(alloc, method)?)?;
    }
    Ok(slots)
}

fn main_fields(code: &Code) -> &[Field]
    ensures { result.now ≡ fields_of_main code.now }
{
    match at(code.classes.as_slice(), usize::from(code.main)) {
        Some(class) => class.fields.as_slice(),
        None => &[],
    }
}

fn first_points(alloc: Global, code: &Code) -> Result<Points, AllocError>
    ensures { IfOk result (λ points. points ≡ first_places code.now) }
{
    Ok(Points {
        slots: first_slots(alloc, code.methods.as_slice())?,
        fields: Marks::new(alloc, main_fields(code).len())?,
    })
}

/// The places of the code that may point to the object of Main. A program of today's language takes two passes.
pub fn points_to(alloc: Global, code: &Code) -> Result<Points, AllocError>
    requires { IsWellFormed code.now }
    ensures { IfOk result (λ points. IsPointsOf code.now points) }
{
    let mut points = first_points(alloc, code)?;
    'passes: loop {
        let Draft {
            points: after,
            changed,
        } = pass(points, code.methods.as_slice());
        points = after;
        if !changed {
            return Ok(points);
        }
    }
}
