//! Which fields of Main each side keeps: those at home there, and those that a statement there reads.
ghost use Rattle.std.specs.Prelude.{◌≡◌, IfOk, OnOk};
ghost use Rattle.px_points.specs.Marks.{is_marked};
ghost use Rattle.px_points.specs.Analysis.{IsPointsOf};
ghost use Rattle.px_compile.specs.Kept.{at_home as home_marks, with_read, with_body, with_methods, fields_at, AreKeptAt, AreKept};

use crate::sides::{fields_of, side_at};
use px_code::{Code, Field, Method, Operand, Side, Tree, Word};
use px_points::{Marks, Points};
use std::alloc::{AllocError, Global};

/// A mark for each field that a side keeps.
#[derive(Drop)]
pub struct Kept {
    pub app: Marks,
    pub db: Marks,
}

// The fields at home at a side.
fn at_home(alloc: Global, sides: &[Side], side: Side, fields: &[Field]) -> Result<Marks, AllocError>
    ensures { IfOk result (λ marks. marks ≡ home_marks sides.now side fields.now) }
{
    let mut marks = Vec::new(alloc);
    for field in fields {
        marks.push(side_at(sides, field.node) == side)?;
    }
    Ok(Marks::from_vec(marks))
}

// Marks what a statement reads at the side.
fn mark_read(
    marks: &mut Marks,
    points: &Points,
    sides: &[Side],
    side: Side,
    method: u16,
    node: u32,
    word: &Word,
)
    ensures { marks.new ≡ with_read points.now sides.now side method node word.now marks.old }
{
    match word {
        Word::Get {
            to: _,
            of: Operand::Slot(of),
            class: _,
            field,
        } => {
            if points.slot(method, *of) && side_at(sides, node) == side {
                marks.mark(*field);
            }
        }
        _ => {}
    }
}

fn mark_body(
    marks: &mut Marks,
    points: &Points,
    sides: &[Side],
    side: Side,
    method: u16,
    body: &[Tree],
)
    ensures { marks.new ≡ with_body points.now sides.now side method body.now marks.old }
{
    for tree in body {
        match tree {
            Tree::Do { node, word } => mark_read(marks, points, sides, side, method, *node, word),
        }
    }
}

fn mark_methods(
    marks: &mut Marks,
    points: &Points,
    sides: &[Side],
    side: Side,
    methods: &[Method],
) -> Result<(), AllocError>
    ensures { OnOk result (marks.new ≡ with_methods points.now sides.now side 1 methods.now marks.old) }
{
    let mut number: u16 = 1;
    for method in methods {
        if number == u16::MAX {
            return Err(AllocError);
        }
        mark_body(marks, points, sides, side, number, method.body.as_slice());
        number += 1;
    }
    Ok(())
}

// The fields that a side keeps.
fn kept_at(
    alloc: Global,
    code: &Code,
    sides: &[Side],
    points: &Points,
    side: Side,
) -> Result<Marks, AllocError>
    requires { IsPointsOf code.now points.now }
    ensures { IfOk result (λ marks. AreKeptAt code.now sides.now side marks) }
{
    let mut marks = at_home(alloc, sides, side, fields_of(code, code.main))?;
    mark_methods(&mut marks, points, sides, side, code.methods.as_slice())?;
    Ok(marks)
}

impl Kept {
    pub fn new(
        alloc: Global,
        code: &Code,
        sides: &[Side],
        points: &Points,
    ) -> Result<Kept, AllocError>
        requires { IsPointsOf code.now points.now }
        ensures { IfOk result (λ kept. AreKept code.now sides.now kept) }
    {
        Ok(Kept {
            app: kept_at(alloc, code, sides, points, Side::App)?,
            db: kept_at(alloc, code, sides, points, Side::Db)?,
        })
    }

    /// Whether a side keeps a field.
    pub fn has(&self, side: Side, field: u16) -> bool
        ensures { result ≡ is_marked (fields_at self.now side) field }
    {
        match side {
            Side::App => self.app.has(field),
            Side::Db => self.db.has(field),
        }
    }
}
