//! Statements, run from the syntax tree.
ghost use Rattle.std.specs.Prelude.{◌≡◌, ◌≤◌, ◌<◌, ℕ, map, option_map, slice_set, OnOk};
ghost use Rattle.std.specs.Option.{option_copied};
ghost use Rattle.px_value.specs.Outcome.{pure, in_order};
ghost use Rattle.px_mean.specs.Run.{max_turns};
ghost use Rattle.px_mean.specs.Facts.{type_at as mean_type_at, named_at as mean_named_at, op_of as mean_op_of};
ghost use Rattle.px_mean.specs.Expressions.{put_name as mean_put_name, put_member as mean_put_member};
ghost use Rattle.px_mean.specs.Statements as statements;
ghost use Rattle.px_plain.specs.View.{frame, says, does, Ends, EndsFlow, Keeps, IfKept, CallEnds};
ghost use Rattle.px_plain.specs.Parts as parts;

use crate::around::Around;
use crate::expressions::{eval, fitted, slot_value};
use crate::facts::{named_at, op_of, type_at};
use crate::machine::Machine;
use crate::operators::{applied, is_true, one};
use crate::stop::{Next, Stop};
use px_facts::{Named, Ty};
use px_ops::Op;
use px_tree::{Expr, ExprForm, Sign, Stmt, StmtForm};
use px_value::{Value, Values};
use sqlite_items::Boxed;

fn set_slot(slots: &mut Values, slot: u16, value: Value)
    ensures { slots.new ≡ slice_set slots.old slot value }
{
    let slot = usize::from(slot);
    if slot < slots.len() {
        let _ = slots.replace(slot, value);
    }
}

// A local has the value of its initialiser.
fn write_local(slots: &mut Values, name: Named, value: Value)
    ensures { slots.new ≡ parts.local_written name value slots.old }
{
    match name {
        Named::Local(slot) => set_slot(slots, slot, value),
        _ => {}
    }
}

// A member of an object is written.
fn put_member(
    m: &mut Machine,
    slots: &Values,
    name: Named,
    of: &Value,
    value: Value,
) -> Result<(), Stop>
    ensures ends { Ends (frame slots.now m.new) result (mean_put_member name of.now value (frame slots.now m.old)) }
    ensures kept { IfKept result (Keeps m.old m.new) }
    ensures turns { m.old.turns ≤ m.new.turns }
{
    match name {
        Named::Field { class: _, place } => m.put_field(of, place, value),
        _ => Ok(()),
    }
}

// A field of `this` is written.
#[inline(never)]
fn put_own<F: Fn(&mut Machine, u16, Values) -> Result<Option<Value>, Stop>>(
    around: &Around,
    run: &F,
    m: &mut Machine,
    slots: &Values,
    class_place: u16,
    value: &Expr,
    to: Ty,
) -> Result<(), Stop>
    requires callable { F.IsAlwaysCallable run.now }
    requires calls { (m : _) (method : ℕ) (values : _) (r : _) (m' : _) → F.post run.now m method values r m' → CallEnds around.now m.now method values r m'.now }
    ensures ends { Ends (frame slots.now m.new) result (mean_put_name (Named.Field 0 class_place) to (says around.now value.now).ty (says around.now value.now).run (frame slots.now m.old)) }
    ensures kept { IfKept result (Keeps m.old m.new) }
    ensures turns { m.old.turns ≤ m.new.turns }
{
    let object = slot_value(around.alloc, slots, 0)?;
    let value = fitted(around, run, m, slots, value, to)?;
    m.put_field(&object, class_place, value)
}

// What a bare name stands for is written.
#[inline(never)]
fn put_name<F: Fn(&mut Machine, u16, Values) -> Result<Option<Value>, Stop>>(
    around: &Around,
    run: &F,
    m: &mut Machine,
    slots: &mut Values,
    value: &Expr,
    id: u32,
) -> Result<(), Stop>
    requires callable { F.IsAlwaysCallable run.now }
    requires calls { (m : _) (method : ℕ) (values : _) (r : _) (m' : _) → F.post run.now m method values r m' → CallEnds around.now m.now method values r m'.now }
    ensures ends { Ends (frame slots.new m.new) result (mean_put_name (mean_named_at around.now.facts.now id) (mean_type_at around.now.facts.now id) (says around.now value.now).ty (says around.now value.now).run (frame slots.old m.old)) }
    ensures kept { IfKept result (Keeps m.old m.new) }
    ensures turns { m.old.turns ≤ m.new.turns }
{
    let to = type_at(around.facts, id);
    match named_at(around.facts, id) {
        Named::Local(slot) => {
            let value = fitted(around, run, m, slots, value, to)?;
            set_slot(slots, slot, value);
            Ok(())
        }
        Named::Field { class: _, place } => put_own(around, run, m, slots, place, value, to),
        _ => Ok(()),
    }
}

// A field of an object is written.
#[inline(never)]
fn put_field<F: Fn(&mut Machine, u16, Values) -> Result<Option<Value>, Stop>>(
    around: &Around,
    run: &F,
    m: &mut Machine,
    slots: &Values,
    of: &Expr,
    value: &Expr,
    id: u32,
) -> Result<(), Stop>
    requires callable { F.IsAlwaysCallable run.now }
    requires calls { (m : _) (method : ℕ) (values : _) (r : _) (m' : _) → F.post run.now m method values r m' → CallEnds around.now m.now method values r m'.now }
    ensures ends { Ends (frame slots.now m.new) result (parts.field_put around.now of.now value.now id (frame slots.now m.old)) }
    ensures kept { IfKept result (Keeps m.old m.new) }
    ensures turns { m.old.turns ≤ m.new.turns }
{
    let object = eval(around, run, m, slots, of)?;
    let value = fitted(around, run, m, slots, value, type_at(around.facts, id))?;
    put_member(m, slots, named_at(around.facts, id), &object, value)
}

// An element of an array is written.
#[inline(never)]
fn put_element<F: Fn(&mut Machine, u16, Values) -> Result<Option<Value>, Stop>>(
    around: &Around,
    run: &F,
    m: &mut Machine,
    slots: &Values,
    of: &Expr,
    index: &Expr,
    value: &Expr,
    id: u32,
) -> Result<(), Stop>
    requires callable { F.IsAlwaysCallable run.now }
    requires calls { (m : _) (method : ℕ) (values : _) (r : _) (m' : _) → F.post run.now m method values r m' → CallEnds around.now m.now method values r m'.now }
    ensures ends { Ends (frame slots.now m.new) result (parts.element_put around.now of.now index.now value.now id (frame slots.now m.old)) }
    ensures kept { IfKept result (Keeps m.old m.new) }
    ensures turns { m.old.turns ≤ m.new.turns }
{
    let of = eval(around, run, m, slots, of)?;
    let index = eval(around, run, m, slots, index)?;
    let value = fitted(around, run, m, slots, value, type_at(around.facts, id))?;
    m.store_element(&of, &index, value)
}

#[inline(never)]
fn assign<F: Fn(&mut Machine, u16, Values) -> Result<Option<Value>, Stop>>(
    around: &Around,
    run: &F,
    m: &mut Machine,
    slots: &mut Values,
    place: &Expr,
    value: &Expr,
) -> Result<(), Stop>
    requires callable { F.IsAlwaysCallable run.now }
    requires calls { (m : _) (method : ℕ) (values : _) (r : _) (m' : _) → F.post run.now m method values r m' → CallEnds around.now m.now method values r m'.now }
    ensures ends { Ends (frame slots.new m.new) result ((says around.now place.now).put (says around.now value.now).ty (says around.now value.now).run (frame slots.old m.old)) }
    ensures kept { IfKept result (Keeps m.old m.new) }
    ensures turns { m.old.turns ≤ m.new.turns }
{
    match &place.form {
        ExprForm::Name(_) => put_name(around, run, m, slots, value, place.id),
        ExprForm::Field { of, name: _ } => {
            put_field(around, run, m, slots, of.get(), value, place.id)
        }
        ExprForm::Index { of, index } => {
            put_element(
                around,
                run,
                m,
                slots,
                of.get(),
                index.get(),
                value,
                place.id,
            )
        }
        _ => Ok(()),
    }
}

#[inline(never)]
fn declare<F: Fn(&mut Machine, u16, Values) -> Result<Option<Value>, Stop>>(
    around: &Around,
    run: &F,
    m: &mut Machine,
    slots: &mut Values,
    value: &Expr,
    id: u32,
) -> Result<(), Stop>
    requires callable { F.IsAlwaysCallable run.now }
    requires calls { (m : _) (method : ℕ) (values : _) (r : _) (m' : _) → F.post run.now m method values r m' → CallEnds around.now m.now method values r m'.now }
    ensures ends { Ends (frame slots.new m.new) result (parts.declared around.now value.now id (frame slots.old m.old)) }
    ensures kept { IfKept result (Keeps m.old m.new) }
    ensures turns { m.old.turns ≤ m.new.turns }
{
    let value = fitted(around, run, m, slots, value, type_at(around.facts, id))?;
    write_local(slots, named_at(around.facts, id), value);
    Ok(())
}

// A local and another value become the local's.
#[inline(never)]
fn compound<F: Fn(&mut Machine, u16, Values) -> Result<Option<Value>, Stop>>(
    around: &Around,
    run: &F,
    m: &mut Machine,
    slots: &mut Values,
    value: &Expr,
    sign: Sign,
    id: u32,
) -> Result<(), Stop>
    requires callable { F.IsAlwaysCallable run.now }
    requires calls { (m : _) (method : ℕ) (values : _) (r : _) (m' : _) → F.post run.now m method values r m' → CallEnds around.now m.now method values r m'.now }
    ensures ends { Ends (frame slots.new m.new) result (statements.change_local (mean_named_at around.now.facts.now id) (mean_op_of sign (mean_type_at around.now.facts.now id) (says around.now value.now).ty) (says around.now value.now).run (frame slots.old m.old)) }
    ensures kept { IfKept result (Keeps m.old m.new) }
    ensures turns { m.old.turns ≤ m.new.turns }
{
    let op = op_of(
        sign,
        type_at(around.facts, id),
        type_at(around.facts, value.id),
    );
    match named_at(around.facts, id) {
        Named::Local(slot) => {
            let a = slot_value(around.alloc, slots, slot)?;
            let b = eval(around, run, m, slots, value)?;
            let value = applied(around.alloc, op, &a, &b)?;
            set_slot(slots, slot, value);
            Ok(())
        }
        _ => Ok(()),
    }
}

// A local is counted up or down.
#[inline(never)]
fn step(around: &Around, m: &Machine, slots: &mut Values, op: Op, id: u32) -> Result<(), Stop>
    ensures { Ends (frame slots.new m.now) result (statements.change_local (mean_named_at around.now.facts.now id) op (pure (statements.one (mean_type_at around.now.facts.now id))) (frame slots.old m.now)) }
{
    match named_at(around.facts, id) {
        Named::Local(slot) => {
            let a = slot_value(around.alloc, slots, slot)?;
            let b = one(type_at(around.facts, id));
            let value = applied(around.alloc, op, &a, &b)?;
            set_slot(slots, slot, value);
            Ok(())
        }
        _ => Ok(()),
    }
}

#[inline(never)]
fn print<F: Fn(&mut Machine, u16, Values) -> Result<Option<Value>, Stop>>(
    around: &Around,
    run: &F,
    m: &mut Machine,
    slots: &Values,
    value: &Expr,
) -> Result<(), Stop>
    requires callable { F.IsAlwaysCallable run.now }
    requires calls { (m : _) (method : ℕ) (values : _) (r : _) (m' : _) → F.post run.now m method values r m' → CallEnds around.now m.now method values r m'.now }
    ensures ends { Ends (frame slots.now m.new) result (parts.printed around.now value.now (frame slots.now m.old)) }
    ensures kept { IfKept result (Keeps m.old m.new) }
    ensures turns { m.old.turns ≤ m.new.turns }
{
    let value = eval(around, run, m, slots, value)?;
    m.print_line(around.alloc, &value)
}

#[inline(never)]
fn returned<F: Fn(&mut Machine, u16, Values) -> Result<Option<Value>, Stop>>(
    around: &Around,
    run: &F,
    m: &mut Machine,
    slots: &Values,
    value: &Option<Expr>,
) -> Result<Next, Stop>
    requires callable { F.IsAlwaysCallable run.now }
    requires calls { (m : _) (method : ℕ) (values : _) (r : _) (m' : _) → F.post run.now m method values r m' → CallEnds around.now m.now method values r m'.now }
    ensures ends { EndsFlow (frame slots.now m.new) result (statements.returned around.now.result (option_map (says around.now) value.now) (frame slots.now m.old)) }
    ensures kept { IfKept result (Keeps m.old m.new) }
    ensures turns { m.old.turns ≤ m.new.turns }
{
    match value {
        None => Ok(Next::Returns(None)),
        Some(e) => {
            let value = fitted(around, run, m, slots, e, around.result)?;
            Ok(Next::Returns(Some(value)))
        }
    }
}

// A call whose value nobody wants.
#[inline(never)]
fn evaluated<F: Fn(&mut Machine, u16, Values) -> Result<Option<Value>, Stop>>(
    around: &Around,
    run: &F,
    m: &mut Machine,
    slots: &Values,
    call: &Expr,
) -> Result<Next, Stop>
    requires callable { F.IsAlwaysCallable run.now }
    requires calls { (m : _) (method : ℕ) (values : _) (r : _) (m' : _) → F.post run.now m method values r m' → CallEnds around.now m.now method values r m'.now }
    ensures ends { EndsFlow (frame slots.now m.new) result (parts.evaluated around.now call.now (frame slots.now m.old)) }
    ensures kept { IfKept result (Keeps m.old m.new) }
    ensures turns { m.old.turns ≤ m.new.turns }
{
    let _ = eval(around, run, m, slots, call)?;
    Ok(Next::Goes)
}

// The test of a loop, which is counted once it was evaluated.
#[inline(never)]
fn tested<F: Fn(&mut Machine, u16, Values) -> Result<Option<Value>, Stop>>(
    around: &Around,
    run: &F,
    m: &mut Machine,
    slots: &Values,
    test: &Expr,
) -> Result<bool, Stop>
    requires callable { F.IsAlwaysCallable run.now }
    requires calls { (m : _) (method : ℕ) (values : _) (r : _) (m' : _) → F.post run.now m method values r m' → CallEnds around.now m.now method values r m'.now }
    ensures ends { Ends (frame slots.now m.new) result (parts.tested around.now test.now (frame slots.now m.old)) }
    ensures kept { IfKept result (Keeps m.old m.new) }
    ensures more { OnOk result (m.old.turns < m.new.turns) }
    ensures most { OnOk result (m.new.turns ≤ max_turns) }
    ensures turns { m.old.turns ≤ m.new.turns }
{
    let value = eval(around, run, m, slots, test)?;
    m.turn()?;
    Ok(is_true(&value))
}

// The condition of an `if`.
#[inline(never)]
fn holds<F: Fn(&mut Machine, u16, Values) -> Result<Option<Value>, Stop>>(
    around: &Around,
    run: &F,
    m: &mut Machine,
    slots: &Values,
    test: &Expr,
) -> Result<bool, Stop>
    requires callable { F.IsAlwaysCallable run.now }
    requires calls { (m : _) (method : ℕ) (values : _) (r : _) (m' : _) → F.post run.now m method values r m' → CallEnds around.now m.now method values r m'.now }
    ensures ends { Ends (frame slots.now m.new) result (parts.holds around.now test.now (frame slots.now m.old)) }
    ensures kept { IfKept result (Keeps m.old m.new) }
    ensures turns { m.old.turns ≤ m.new.turns }
{
    let truth = eval(around, run, m, slots, test)?;
    Ok(is_true(&truth))
}

/// What a statement does.
#[cycle(exec)]
pub fn exec<F: Fn(&mut Machine, u16, Values) -> Result<Option<Value>, Stop>>(
    around: &Around,
    run: &F,
    m: &mut Machine,
    slots: &mut Values,
    s: &Stmt,
) -> Result<Next, Stop>
    requires callable { F.IsAlwaysCallable run.now }
    requires calls { (m : _) (method : ℕ) (values : _) (r : _) (m' : _) → F.post run.now m method values r m' → CallEnds around.now m.now method values r m'.now }
    ensures ends { EndsFlow (frame slots.new m.new) result (does around.now s.now (frame slots.old m.old)) }
    ensures kept { IfKept result (Keeps m.old m.new) }
    ensures turns { m.old.turns ≤ m.new.turns }
{
    match &s.form {
        StmtForm::Block(items) => exec_all(around, run, m, slots, items.as_slice()),
        StmtForm::Empty => Ok(Next::Goes),
        StmtForm::Local {
            ty: _,
            name: _,
            value,
        } => {
            declare(around, run, m, slots, value, s.id)?;
            Ok(Next::Goes)
        }
        StmtForm::Assign { place, value } => {
            assign(around, run, m, slots, place, value)?;
            Ok(Next::Goes)
        }
        StmtForm::Compound {
            name: _,
            sign,
            value,
        } => {
            compound(around, run, m, slots, value, *sign, s.id)?;
            Ok(Next::Goes)
        }
        StmtForm::Up(_) => {
            step(around, m, slots, Op::Add, s.id)?;
            Ok(Next::Goes)
        }
        StmtForm::Down(_) => {
            step(around, m, slots, Op::Sub, s.id)?;
            Ok(Next::Goes)
        }
        StmtForm::Call(call) => { evaluated(around, run, m, slots, call) }
        StmtForm::If { test, yes, no } => { exec_if(around, run, m, slots, no, yes.get(), test) }
        StmtForm::While { test, body } => {
            exec_loop(around, run, m, slots, None, body.get(), None, test)
        }
        StmtForm::For {
            first,
            test,
            last,
            body,
        } => exec_loop(
            around,
            run,
            m,
            slots,
            Some(first.get()),
            body.get(),
            Some(last.get()),
            test,
        ),
        StmtForm::Return(value) => returned(around, run, m, slots, value),
        StmtForm::Print(value) => {
            print(around, run, m, slots, value)?;
            Ok(Next::Goes)
        }
    }
}

#[cycle(exec)]
#[inline(never)]
fn exec_all<F: Fn(&mut Machine, u16, Values) -> Result<Option<Value>, Stop>>(
    around: &Around,
    run: &F,
    m: &mut Machine,
    slots: &mut Values,
    items: &[Stmt],
) -> Result<Next, Stop>
    requires callable { F.IsAlwaysCallable run.now }
    requires calls { (m : _) (method : ℕ) (values : _) (r : _) (m' : _) → F.post run.now m method values r m' → CallEnds around.now m.now method values r m'.now }
    ensures ends { EndsFlow (frame slots.new m.new) result (in_order (map (does around.now) items.now) (frame slots.old m.old)) }
    ensures kept { IfKept result (Keeps m.old m.new) }
    ensures turns { m.old.turns ≤ m.new.turns }
{
    for item in items {
        match exec(around, run, m, slots, item)? {
            Next::Goes => {}
            Next::Returns(value) => return Ok(Next::Returns(value)),
        }
    }
    Ok(Next::Goes)
}

#[cycle(exec)]
#[inline(never)]
fn exec_if<F: Fn(&mut Machine, u16, Values) -> Result<Option<Value>, Stop>>(
    around: &Around,
    run: &F,
    m: &mut Machine,
    slots: &mut Values,
    no: &Option<Boxed<Stmt>>,
    yes: &Stmt,
    test: &Expr,
) -> Result<Next, Stop>
    requires callable { F.IsAlwaysCallable run.now }
    requires calls { (m : _) (method : ℕ) (values : _) (r : _) (m' : _) → F.post run.now m method values r m' → CallEnds around.now m.now method values r m'.now }
    ensures ends { EndsFlow (frame slots.new m.new) result (parts.chosen around.now test.now yes.now no.now (frame slots.old m.old)) }
    ensures kept { IfKept result (Keeps m.old m.new) }
    ensures turns { m.old.turns ≤ m.new.turns }
{
    if holds(around, run, m, slots, test)? {
        return exec(around, run, m, slots, yes);
    }
    exec_else(around, run, m, slots, no)
}

#[cycle(exec)]
#[inline(never)]
fn exec_else<F: Fn(&mut Machine, u16, Values) -> Result<Option<Value>, Stop>>(
    around: &Around,
    run: &F,
    m: &mut Machine,
    slots: &mut Values,
    no: &Option<Boxed<Stmt>>,
) -> Result<Next, Stop>
    requires callable { F.IsAlwaysCallable run.now }
    requires calls { (m : _) (method : ℕ) (values : _) (r : _) (m' : _) → F.post run.now m method values r m' → CallEnds around.now m.now method values r m'.now }
    ensures ends { EndsFlow (frame slots.new m.new) result (statements.or_goes (option_map (does around.now) no.now) (frame slots.old m.old)) }
    ensures kept { IfKept result (Keeps m.old m.new) }
    ensures turns { m.old.turns ≤ m.new.turns }
{
    match no {
        None => Ok(Next::Goes),
        Some(no) => exec(around, run, m, slots, no.get()),
    }
}

// What stands before a turn of a loop, if anything does.
#[cycle(exec)]
#[inline(never)]
fn exec_last<F: Fn(&mut Machine, u16, Values) -> Result<Option<Value>, Stop>>(
    around: &Around,
    run: &F,
    m: &mut Machine,
    slots: &mut Values,
    last: Option<&Stmt>,
) -> Result<Next, Stop>
    requires callable { F.IsAlwaysCallable run.now }
    requires calls { (m : _) (method : ℕ) (values : _) (r : _) (m' : _) → F.post run.now m method values r m' → CallEnds around.now m.now method values r m'.now }
    ensures ends { EndsFlow (frame slots.new m.new) result (statements.or_goes (option_map (does around.now) (option_copied last.entry)) (frame slots.old m.old)) }
    ensures kept { IfKept result (Keeps m.old m.new) }
    ensures turns { m.old.turns ≤ m.new.turns }
{
    match last {
        None => Ok(Next::Goes),
        Some(last) => exec(around, run, m, slots, last),
    }
}

// A loop: `first` before it, and `last` behind each of its turns.
#[cycle(exec)]
#[inline(never)]
fn exec_loop<F: Fn(&mut Machine, u16, Values) -> Result<Option<Value>, Stop>>(
    around: &Around,
    run: &F,
    m: &mut Machine,
    slots: &mut Values,
    first: Option<&Stmt>,
    body: &Stmt,
    last: Option<&Stmt>,
    test: &Expr,
) -> Result<Next, Stop>
    requires callable { F.IsAlwaysCallable run.now }
    requires calls { (m : _) (method : ℕ) (values : _) (r : _) (m' : _) → F.post run.now m method values r m' → CallEnds around.now m.now method values r m'.now }
    ensures ends { EndsFlow (frame slots.new m.new) result (parts.looped around.now (option_copied first.entry) test.now (option_copied last.entry) body.now (frame slots.old m.old)) }
    ensures kept { IfKept result (Keeps m.old m.new) }
    ensures turns { m.old.turns ≤ m.new.turns }
{
    let mut before = first;
    loop {
        match exec_last(around, run, m, slots, before)? {
            Next::Goes => {}
            Next::Returns(value) => return Ok(Next::Returns(value)),
        }
        if !tested(around, run, m, slots, test)? {
            return Ok(Next::Goes);
        }
        match exec(around, run, m, slots, body)? {
            Next::Goes => {}
            Next::Returns(value) => return Ok(Next::Returns(value)),
        }
        before = last;
    }
}
