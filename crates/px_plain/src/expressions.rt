//! Expressions, run from the syntax tree.
ghost use Rattle.std.specs.Prelude.{◌≡◌, ◌≤◌, ◌∷◌, [], ℕ, map, option_map, slice_get, slice_index_or, unwrap_or, IfOk};
ghost use Rattle.px_value.specs.declared.value.Value.TheVariants.{Null};
ghost use Rattle.px_value.specs.Outcome.{then_run};
ghost use Rattle.px_value.specs.Operators.{apply};
ghost use Rattle.px_mean.specs.Run.{gather, came_to};
ghost use Rattle.px_mean.specs.Facts.{type_at as mean_type_at, named_at as mean_named_at, prefix_of as mean_prefix_of};
ghost use Rattle.px_mean.specs.Effects.{reference as mean_reference};
ghost use Rattle.px_mean.specs.Expressions as expressions;
ghost use Rattle.px_plain.specs.View.{frame, shared_of, around_of, says, Ends, EndsWith, Came, Keeps, IfKept, CallEnds};
ghost use Rattle.px_plain.specs.Parts.{element_value, after_left};

use crate::around::Around;
use crate::effects::{copied, reference};
use crate::facts::{fields_of, named_at, params_of, prefix_of, type_at};
use crate::machine::Machine;
use crate::operators::{applied, combined, decides, literal, prefixed, text, widened};
use crate::stop::Stop;
use px_facts::{Named, Ty};
use px_ops::Op;
use px_tree::{Expr, ExprForm, Sign};
use px_value::{Thrown, Value, Values};
use sqlite_items::{Boxed, Items};
use std::alloc::{AllocError, Global};

/// The value in a slot, or null where there is none.
#[inline(never)]
pub fn slot_value(alloc: Global, slots: &Values, slot: u16) -> Result<Value, AllocError>
    ensures { IfOk result (λ v. v ≡ unwrap_or (slice_get slots.now slot) Null) }
{
    copied(alloc, slots.get(usize::from(slot)))
}

#[inline(never)]
fn this_value(around: &Around, m: &Machine, slots: &Values) -> Result<Value, Stop>
    ensures { Ends (frame slots.now m.now) result (expressions.this_value (frame slots.now m.now)) }
{
    Ok(slot_value(around.alloc, slots, 0)?)
}

// The value of a bare name.
#[inline(never)]
fn name_value(around: &Around, m: &Machine, slots: &Values, id: u32) -> Result<Value, Stop>
    ensures { Ends (frame slots.now m.now) result (expressions.name_value (mean_named_at around.now.facts.now id) (frame slots.now m.now)) }
{
    match named_at(around.facts, id) {
        Named::Local(slot) => Ok(slot_value(around.alloc, slots, slot)?),
        Named::Field { class: _, place } => {
            let object = slot_value(around.alloc, slots, 0)?;
            m.get_field(around.alloc, &object, place)
        }
        _ => Ok(Value::Null),
    }
}

// The value of a member of an object.
#[inline(never)]
fn member_value(
    around: &Around,
    m: &Machine,
    slots: &Values,
    name: Named,
    of: &Value,
) -> Result<Value, Stop>
    ensures { Ends (frame slots.now m.now) result (expressions.member_value name of.now (frame slots.now m.now)) }
{
    match name {
        Named::Field { class: _, place } => m.get_field(around.alloc, of, place),
        Named::ArrayLength => m.array_length(of),
        _ => Ok(Value::Null),
    }
}

#[inline(never)]
fn made_object(around: &Around, m: &mut Machine, slots: &Values, id: u32) -> Result<Value, Stop>
    ensures ends { Ends (frame slots.now m.new) result (expressions.made_object around.now.facts.now (mean_named_at around.now.facts.now id) (frame slots.now m.old)) }
    ensures kept { IfKept result (Keeps m.old m.new) }
    ensures turns { m.old.turns ≤ m.new.turns }
{
    match named_at(around.facts, id) {
        Named::NewObject { class, site } => m.new_object(
            around.alloc,
            class,
            site,
            fields_of(around.facts, class),
        ),
        _ => Ok(Value::Null),
    }
}

#[inline(never)]
fn made_array(
    around: &Around,
    m: &mut Machine,
    slots: &Values,
    name: Named,
    ty: Ty,
    size: &Value,
) -> Result<Value, Stop>
    ensures ends { Ends (frame slots.now m.new) result (expressions.made_array name ty size.now (frame slots.now m.old)) }
    ensures kept { IfKept result (Keeps m.old m.new) }
    ensures turns { m.old.turns ≤ m.new.turns }
{
    match name {
        Named::NewArray { site } => m.new_array(around.alloc, site, ty, size),
        _ => Ok(Value::Null),
    }
}

fn or_null(given: Option<Value>) -> Value
    ensures { result ≡ unwrap_or given Null }
{
    match given {
        Some(value) => value,
        None => Value::Null,
    }
}

// The object of the receiver, which is the first value.
fn receiver_of(values: &Values) -> Result<u32, Thrown>
    ensures { result ≡ mean_reference (expressions.value_at values.now 0) }
{
    match values.get(0) {
        Some(value) => reference(value),
        None => Err(Thrown::NullPointerException),
    }
}

// A value of a call, or another where there is none.
fn value_or<'a>(values: &'a Values, place: usize, other: &'a Value) -> &'a Value
    ensures { result.now ≡ unwrap_or (slice_get values.now place) other.now }
{
    match values.get(place) {
        Some(value) => value,
        None => other,
    }
}

#[inline(never)]
fn text_length(alloc: Global, values: &Values) -> Result<Value, Stop>
    ensures { Came result (apply Op.Length (expressions.value_at values.now 0) (expressions.value_at values.now 0)) }
{
    let null = Value::Null;
    let of = value_or(values, 0, &null);
    applied(alloc, Op::Length, of, of)
}

#[inline(never)]
fn text_equals(alloc: Global, values: &Values) -> Result<Value, Stop>
    ensures { Came result (apply Op.Equals (expressions.value_at values.now 0) (expressions.value_at values.now 1)) }
{
    let null = Value::Null;
    applied(
        alloc,
        Op::Equals,
        value_or(values, 0, &null),
        value_or(values, 1, &null),
    )
}

fn is_operation(name: Named) -> bool
    ensures { result ≡ expressions.is_operation name }
{
    matches!(name, Named::Query { .. } | Named::Update { .. })
}

// The arguments that are values: the text of a statement isn't.
fn operands(name: Named, args: &[Expr]) -> &[Expr]
    ensures { result.now ≡ expressions.operands name args.now }
{
    if is_operation(name) && !args.is_empty() {
        &args[1..]
    } else {
        args
    }
}

fn wanted_at(wanted: &[Ty], place: usize) -> Ty
    ensures { result ≡ slice_index_or wanted.now place Ty.Unknown }
{
    match wanted.get(place) {
        Some(ty) => *ty,
        None => Ty::Unknown,
    }
}

// A call of a method of a class, of the receiver and the arguments.
#[inline(never)]
fn call_method<F: Fn(&mut Machine, u16, Values) -> Result<Option<Value>, Stop>>(
    around: &Around,
    run: &F,
    m: &mut Machine,
    method: u16,
    values: Values,
) -> Result<Option<Value>, Stop>
    requires callable { F.IsAlwaysCallable run.now }
    requires calls { (m : _) (method : ℕ) (values : _) (r : _) (m' : _) → F.post run.now m method values r m' → CallEnds around.now m.now method values r m'.now }
    ensures ends { Ends (shared_of m.new) result (expressions.call_method (around_of around.now).calls method values (shared_of m.old)) }
    ensures kept { IfKept result (Keeps m.old m.new) }
    ensures turns { m.old.turns ≤ m.new.turns }
{
    let _ = receiver_of(&values)?;
    m.turn()?;
    run(m, method, values)
}

// A statement of SQL is asked for its rows.
#[inline(never)]
fn query(
    around: &Around,
    m: &mut Machine,
    slots: &Values,
    number: u16,
    site: u16,
    values: Values,
) -> Result<Value, Stop>
    ensures ends { Ends (frame slots.now m.new) result (expressions.invoke (around_of around.now) (Named.Query number site) values (frame slots.now m.old)) }
    ensures kept { IfKept result (Keeps m.old m.new) }
    ensures turns { m.old.turns ≤ m.new.turns }
{
    m.query(around.alloc, around.facts, number, site, values)
}

// A statement of SQL changes the tables.
#[inline(never)]
fn update(
    around: &Around,
    m: &mut Machine,
    slots: &Values,
    number: u16,
    values: Values,
) -> Result<Value, Stop>
    ensures ends { Ends (frame slots.now m.new) result (expressions.invoke (around_of around.now) (Named.Update number) values (frame slots.now m.old)) }
    ensures kept { IfKept result (Keeps m.old m.new) }
    ensures turns { m.old.turns ≤ m.new.turns }
{
    m.update(around.alloc, around.facts, number, values)
}

// A result set goes on to its next row.
#[inline(never)]
fn next(around: &Around, m: &mut Machine, slots: &Values, values: &Values) -> Result<Value, Stop>
    ensures ends { Ends (frame slots.now m.new) result (expressions.invoke (around_of around.now) Named.Next values.now (frame slots.now m.old)) }
    ensures kept { IfKept result (Keeps m.old m.new) }
    ensures turns { m.old.turns ≤ m.new.turns }
{
    let null = Value::Null;
    m.next(around.facts, value_or(values, 0, &null))
}

// A column of a result set that is a long.
#[inline(never)]
fn get_long(around: &Around, m: &Machine, slots: &Values, values: &Values) -> Result<Value, Stop>
    ensures { Ends (frame slots.now m.now) result (expressions.invoke (around_of around.now) Named.GetLong values.now (frame slots.now m.now)) }
{
    let null = Value::Null;
    m.get_long(
        around.alloc,
        around.facts,
        value_or(values, 0, &null),
        value_or(values, 1, &null),
    )
}

// A column of a result set that is a text.
#[inline(never)]
fn get_string(around: &Around, m: &Machine, slots: &Values, values: &Values) -> Result<Value, Stop>
    ensures { Ends (frame slots.now m.now) result (expressions.invoke (around_of around.now) Named.GetString values.now (frame slots.now m.now)) }
{
    let null = Value::Null;
    m.get_string(
        around.alloc,
        around.facts,
        value_or(values, 0, &null),
        value_or(values, 1, &null),
    )
}

// A method of a class, of String, of `Db` or of a result set.
#[inline(never)]
fn invoke<F: Fn(&mut Machine, u16, Values) -> Result<Option<Value>, Stop>>(
    around: &Around,
    run: &F,
    m: &mut Machine,
    slots: &Values,
    name: Named,
    values: Values,
) -> Result<Value, Stop>
    requires callable { F.IsAlwaysCallable run.now }
    requires calls { (m : _) (method : ℕ) (values : _) (r : _) (m' : _) → F.post run.now m method values r m' → CallEnds around.now m.now method values r m'.now }
    ensures ends { Ends (frame slots.now m.new) result (expressions.invoke (around_of around.now) name values (frame slots.now m.old)) }
    ensures kept { IfKept result (Keeps m.old m.new) }
    ensures turns { m.old.turns ≤ m.new.turns }
{
    match name {
        Named::Method(method) => {
            let given = call_method(around, run, m, method, values)?;
            Ok(or_null(given))
        }
        Named::TextLength => text_length(around.alloc, &values),
        Named::TextEquals => text_equals(around.alloc, &values),
        Named::Query { number, site } => query(around, m, slots, number, site, values),
        Named::Update { number } => update(around, m, slots, number, values),
        Named::Next => next(around, m, slots, &values),
        Named::GetLong => get_long(around, m, slots, &values),
        Named::GetString => get_string(around, m, slots, &values),
        _ => Ok(Value::Null),
    }
}

// What the values of both operands come to, whose numbers are known.
#[inline(never)]
fn joined(
    around: &Around,
    sign: Sign,
    left: u32,
    right: u32,
    a: &Value,
    b: Value,
) -> Result<Value, Stop>
    ensures { Came result (expressions.combined sign (mean_type_at around.now.facts.now left) (mean_type_at around.now.facts.now right) a.now b) }
{
    let types = (type_at(around.facts, left), type_at(around.facts, right));
    combined(around.alloc, sign, types, a, b)
}

/// The value of an expression.
#[cycle(eval)]
pub fn eval<F: Fn(&mut Machine, u16, Values) -> Result<Option<Value>, Stop>>(
    around: &Around,
    run: &F,
    m: &mut Machine,
    slots: &Values,
    e: &Expr,
) -> Result<Value, Stop>
    requires callable { F.IsAlwaysCallable run.now }
    requires calls { (m : _) (method : ℕ) (values : _) (r : _) (m' : _) → F.post run.now m method values r m' → CallEnds around.now m.now method values r m'.now }
    ensures ends { Ends (frame slots.now m.new) result ((says around.now e.now).run (frame slots.now m.old)) }
    ensures kept { IfKept result (Keeps m.old m.new) }
    ensures turns { m.old.turns ≤ m.new.turns }
{
    match &e.form {
        ExprForm::Number { digits, long } => Ok(literal(digits.as_slice(), *long)),
        ExprForm::Str(bytes) => text(around.alloc, bytes.as_slice()),
        ExprForm::True => Ok(Value::Bool(true)),
        ExprForm::False => Ok(Value::Bool(false)),
        ExprForm::Null => Ok(Value::Null),
        ExprForm::This => this_value(around, m, slots),
        ExprForm::Name(_) => name_value(around, m, slots, e.id),
        ExprForm::Group(inner) => eval(around, run, m, slots, inner.get()),
        ExprForm::Field { of, name: _ } => {
            field(
                around,
                run,
                m,
                slots,
                of.get(),
                named_at(around.facts, e.id),
            )
        }
        ExprForm::Index { of, index } => element(around, run, m, slots, of.get(), index.get()),
        ExprForm::Call { of, name: _, args } => { call(around, run, m, slots, args, of, e.id) }
        ExprForm::NewObject(_) => made_object(around, m, slots, e.id),
        ExprForm::NewArray { base: _, length } => {
            array(around, run, m, slots, length.get(), e.id)
        }
        ExprForm::Prefix { sign, value } => prefix(around, run, m, slots, value.get(), *sign),
        ExprForm::Binary {
            sign,
            sign_token: _,
            left,
            right,
        } => binary(around, run, m, slots, left.get(), right.get(), *sign),
    }
}

#[cycle(eval)]
#[inline(never)]
fn field<F: Fn(&mut Machine, u16, Values) -> Result<Option<Value>, Stop>>(
    around: &Around,
    run: &F,
    m: &mut Machine,
    slots: &Values,
    of: &Expr,
    name: Named,
) -> Result<Value, Stop>
    requires callable { F.IsAlwaysCallable run.now }
    requires calls { (m : _) (method : ℕ) (values : _) (r : _) (m' : _) → F.post run.now m method values r m' → CallEnds around.now m.now method values r m'.now }
    ensures ends { Ends (frame slots.now m.new) result (then_run ((says around.now of.now).run (frame slots.now m.old)) (expressions.member_value name)) }
    ensures kept { IfKept result (Keeps m.old m.new) }
    ensures turns { m.old.turns ≤ m.new.turns }
{
    let of = eval(around, run, m, slots, of)?;
    member_value(around, m, slots, name, &of)
}

#[cycle(eval)]
#[inline(never)]
fn element<F: Fn(&mut Machine, u16, Values) -> Result<Option<Value>, Stop>>(
    around: &Around,
    run: &F,
    m: &mut Machine,
    slots: &Values,
    of: &Expr,
    index: &Expr,
) -> Result<Value, Stop>
    requires callable { F.IsAlwaysCallable run.now }
    requires calls { (m : _) (method : ℕ) (values : _) (r : _) (m' : _) → F.post run.now m method values r m' → CallEnds around.now m.now method values r m'.now }
    ensures ends { Ends (frame slots.now m.new) result (element_value around.now of.now index.now (frame slots.now m.old)) }
    ensures kept { IfKept result (Keeps m.old m.new) }
    ensures turns { m.old.turns ≤ m.new.turns }
{
    let of = eval(around, run, m, slots, of)?;
    let index = eval(around, run, m, slots, index)?;
    m.load(around.alloc, &of, &index)
}

#[cycle(eval)]
#[inline(never)]
fn array<F: Fn(&mut Machine, u16, Values) -> Result<Option<Value>, Stop>>(
    around: &Around,
    run: &F,
    m: &mut Machine,
    slots: &Values,
    length: &Expr,
    id: u32,
) -> Result<Value, Stop>
    requires callable { F.IsAlwaysCallable run.now }
    requires calls { (m : _) (method : ℕ) (values : _) (r : _) (m' : _) → F.post run.now m method values r m' → CallEnds around.now m.now method values r m'.now }
    ensures ends { Ends (frame slots.now m.new) result (then_run ((says around.now length.now).run (frame slots.now m.old)) (expressions.made_array (mean_named_at around.now.facts.now id) (mean_type_at around.now.facts.now id))) }
    ensures kept { IfKept result (Keeps m.old m.new) }
    ensures turns { m.old.turns ≤ m.new.turns }
{
    let size = eval(around, run, m, slots, length)?;
    made_array(
        around,
        m,
        slots,
        named_at(around.facts, id),
        type_at(around.facts, id),
        &size,
    )
}

#[cycle(eval)]
#[inline(never)]
fn prefix<F: Fn(&mut Machine, u16, Values) -> Result<Option<Value>, Stop>>(
    around: &Around,
    run: &F,
    m: &mut Machine,
    slots: &Values,
    value: &Expr,
    sign: Sign,
) -> Result<Value, Stop>
    requires callable { F.IsAlwaysCallable run.now }
    requires calls { (m : _) (method : ℕ) (values : _) (r : _) (m' : _) → F.post run.now m method values r m' → CallEnds around.now m.now method values r m'.now }
    ensures ends { Ends (frame slots.now m.new) result (then_run ((says around.now value.now).run (frame slots.now m.old)) (λ v. came_to (expressions.prefixed (mean_prefix_of sign (says around.now value.now).ty) v))) }
    ensures kept { IfKept result (Keeps m.old m.new) }
    ensures turns { m.old.turns ≤ m.new.turns }
{
    let op = prefix_of(sign, type_at(around.facts, value.id));
    let value = eval(around, run, m, slots, value)?;
    prefixed(around.alloc, op, value)
}

#[cycle(eval)]
#[inline(never)]
fn binary<F: Fn(&mut Machine, u16, Values) -> Result<Option<Value>, Stop>>(
    around: &Around,
    run: &F,
    m: &mut Machine,
    slots: &Values,
    left: &Expr,
    right: &Expr,
    sign: Sign,
) -> Result<Value, Stop>
    requires callable { F.IsAlwaysCallable run.now }
    requires calls { (m : _) (method : ℕ) (values : _) (r : _) (m' : _) → F.post run.now m method values r m' → CallEnds around.now m.now method values r m'.now }
    ensures ends { Ends (frame slots.now m.new) result (expressions.binary sign (says around.now left.now).ty (says around.now right.now).ty (says around.now left.now).run (says around.now right.now).run (frame slots.now m.old)) }
    ensures kept { IfKept result (Keeps m.old m.new) }
    ensures turns { m.old.turns ≤ m.new.turns }
{
    let a = eval(around, run, m, slots, left)?;
    with_left(around, run, m, slots, right, sign, left.id, a)
}

// What comes of the right operand, behind the value of the left one.
#[cycle(eval)]
#[inline(always)]
fn with_left<F: Fn(&mut Machine, u16, Values) -> Result<Option<Value>, Stop>>(
    around: &Around,
    run: &F,
    m: &mut Machine,
    slots: &Values,
    right: &Expr,
    sign: Sign,
    left: u32,
    a: Value,
) -> Result<Value, Stop>
    requires callable { F.IsAlwaysCallable run.now }
    requires calls { (m : _) (method : ℕ) (values : _) (r : _) (m' : _) → F.post run.now m method values r m' → CallEnds around.now m.now method values r m'.now }
    ensures ends { Ends (frame slots.now m.new) result (after_left around.now sign left right.now a (frame slots.now m.old)) }
    ensures kept { IfKept result (Keeps m.old m.new) }
    ensures turns { m.old.turns ≤ m.new.turns }
{
    if decides(sign, &a) {
        return Ok(a);
    }
    let b = eval(around, run, m, slots, right)?;
    joined(around, sign, left, right.id, &a, b)
}

#[cycle(eval)]
#[inline(always)]
fn receiver<F: Fn(&mut Machine, u16, Values) -> Result<Option<Value>, Stop>>(
    around: &Around,
    run: &F,
    m: &mut Machine,
    slots: &Values,
    of: &Option<Boxed<Expr>>,
) -> Result<Value, Stop>
    requires callable { F.IsAlwaysCallable run.now }
    requires calls { (m : _) (method : ℕ) (values : _) (r : _) (m' : _) → F.post run.now m method values r m' → CallEnds around.now m.now method values r m'.now }
    ensures ends { Ends (frame slots.now m.new) result (expressions.receiver (option_map (says around.now) of.now) (frame slots.now m.old)) }
    ensures kept { IfKept result (Keeps m.old m.new) }
    ensures turns { m.old.turns ≤ m.new.turns }
{
    match of {
        None => this_value(around, m, slots),
        Some(of) => eval(around, run, m, slots, of.get()),
    }
}

// The receiver, behind the values that are there. `Db` is no value.
#[cycle(eval)]
#[inline(always)]
fn receive<F: Fn(&mut Machine, u16, Values) -> Result<Option<Value>, Stop>>(
    around: &Around,
    run: &F,
    m: &mut Machine,
    slots: &Values,
    of: &Option<Boxed<Expr>>,
    name: Named,
    values: &mut Values,
) -> Result<(), Stop>
    requires callable { F.IsAlwaysCallable run.now }
    requires calls { (m : _) (method : ℕ) (values : _) (r : _) (m' : _) → F.post run.now m method values r m' → CallEnds around.now m.now method values r m'.now }
    ensures ends { EndsWith (frame slots.now m.new) values.new result (gather values.old (expressions.received name (option_map (says around.now) of.now)) (frame slots.now m.old)) }
    ensures kept { IfKept result (Keeps m.old m.new) }
    ensures turns { m.old.turns ≤ m.new.turns }
{
    if is_operation(name) {
        return Ok(());
    }
    let object = receiver(around, run, m, slots, of)?;
    values.push(object)?;
    Ok(())
}

// The value of an expression, where a value of another type is wanted.
#[cycle(eval)]
pub fn fitted<F: Fn(&mut Machine, u16, Values) -> Result<Option<Value>, Stop>>(
    around: &Around,
    run: &F,
    m: &mut Machine,
    slots: &Values,
    e: &Expr,
    to: Ty,
) -> Result<Value, Stop>
    requires callable { F.IsAlwaysCallable run.now }
    requires calls { (m : _) (method : ℕ) (values : _) (r : _) (m' : _) → F.post run.now m method values r m' → CallEnds around.now m.now method values r m'.now }
    ensures ends { Ends (frame slots.now m.new) result (then_run ((says around.now e.now).run (frame slots.now m.old)) (expressions.fit (says around.now e.now).ty to)) }
    ensures kept { IfKept result (Keeps m.old m.new) }
    ensures turns { m.old.turns ≤ m.new.turns }
{
    let value = eval(around, run, m, slots, e)?;
    Ok(widened(type_at(around.facts, e.id), to, value))
}

// The arguments, behind the values that are there.
#[cycle(eval)]
#[inline(always)]
fn arguments<F: Fn(&mut Machine, u16, Values) -> Result<Option<Value>, Stop>>(
    around: &Around,
    run: &F,
    m: &mut Machine,
    slots: &Values,
    args: &[Expr],
    wanted: &[Ty],
    values: &mut Values,
) -> Result<(), Stop>
    requires callable { F.IsAlwaysCallable run.now }
    requires calls { (m : _) (method : ℕ) (values : _) (r : _) (m' : _) → F.post run.now m method values r m' → CallEnds around.now m.now method values r m'.now }
    ensures ends { EndsWith (frame slots.now m.new) values.new result (gather values.old (expressions.fitted wanted.now 0 (map (says around.now) args.now)) (frame slots.now m.old)) }
    ensures kept { IfKept result (Keeps m.old m.new) }
    ensures turns { m.old.turns ≤ m.new.turns }
{
    let mut place: usize = 0;
    for arg in args {
        let value = fitted(around, run, m, slots, arg, wanted_at(wanted, place))?;
        values.push(value)?;
        place += 1;
    }
    Ok(())
}

// A call of a method.
#[cycle(eval)]
#[inline(never)]
fn call<F: Fn(&mut Machine, u16, Values) -> Result<Option<Value>, Stop>>(
    around: &Around,
    run: &F,
    m: &mut Machine,
    slots: &Values,
    args: &Items<Expr>,
    of: &Option<Boxed<Expr>>,
    id: u32,
) -> Result<Value, Stop>
    requires callable { F.IsAlwaysCallable run.now }
    requires calls { (m : _) (method : ℕ) (values : _) (r : _) (m' : _) → F.post run.now m method values r m' → CallEnds around.now m.now method values r m'.now }
    ensures ends { Ends (frame slots.now m.new) result (expressions.called (around_of around.now) (mean_named_at around.now.facts.now id) (option_map (says around.now) of.now) (map (says around.now) args.now) (frame slots.now m.old)) }
    ensures kept { IfKept result (Keeps m.old m.new) }
    ensures turns { m.old.turns ≤ m.new.turns }
{
    let mut values = Values::new(around.alloc);
    let name = named_at(around.facts, id);
    receive(around, run, m, slots, of, name, &mut values)?;
    let wanted = params_of(around.facts, name);
    let args = operands(name, args.as_slice());
    arguments(around, run, m, slots, args, wanted, &mut values)?;
    invoke(around, run, m, slots, name, values)
}
