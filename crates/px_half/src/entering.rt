//! The frames with which a call begins, and those that a message brings.
ghost use Rattle.std.specs.Prelude.{◌≡◌, ◌∷◌, ◌++◌, [], map, drop, length, IfOk, OnOk};
ghost use Rattle.px_value.specs.declared.value.Value.TheVariants.{Ref};
ghost use Rattle.px_value.specs.Defaults.{default_of};
ghost use Rattle.px_code.specs.Machine.{just_written};
ghost use Rattle.px_code.specs.Frames.{blank as blank_slot, root_frame as root, root_slots as slots_of_root, entry_slots as slots_of, types_of};
ghost use Rattle.std.specs.Option.{option_copied};

use px_code::{Frame, Method, Slot, Slots};
use px_value::{Ty, Value};
use std::alloc::{AllocError, Global};

fn blank(value: Value) -> Slot
    ensures { result ≡ blank_slot value }
{
    Slot {
        value,
        written: false,
    }
}

/// The one slot of the lowest frame.
pub fn root_slots(alloc: Global) -> Result<Slots, AllocError>
    ensures { IfOk result (λ slots. slots ≡ slots_of_root) }
{
    let mut slots = Slots::new(alloc);
    slots.push(blank(Value::Null))?;
    Ok(slots)
}

/// The lowest frame, whose one slot gets the reply.
pub fn root_frame(alloc: Global) -> Result<Frame, AllocError>
    ensures { IfOk result (λ f. f ≡ root) }
{
    let slots = root_slots(alloc)?;
    Ok(Frame {
        method: 0,
        back: 0,
        slots,
    })
}

fn push_written(alloc: Global, slots: &mut Slots, values: &[Value]) -> Result<(), AllocError>
    ensures { OnOk result (slots.new ≡ slots.old ++ map just_written values.now) }
{
    for value in values {
        slots.push(Slot {
            value: value.copy(alloc)?,
            written: true,
        })?;
    }
    Ok(())
}

/// Slots of these types, unwritten.
pub fn push_blanks(slots: &mut Slots, types: &[Ty]) -> Result<(), AllocError>
    ensures { OnOk result (slots.new ≡ slots.old ++ map (λ t. blank_slot (default_of t)) types.now) }
{
    for ty in types {
        slots.push(blank(ty.default_value()))?;
    }
    Ok(())
}

/// The types of the slots of a method, none where it isn't there.
pub fn types_in(method: Option<&Method>) -> &[Ty]
    ensures { result.now ≡ types_of (option_copied method.entry) }
{
    match method {
        Some(method) => method.slots.as_slice(),
        None => &[],
    }
}

// `this` and the arguments, written, and the other slots.
fn entry_slots(alloc: Global, types: &[Ty], args: &[Value]) -> Result<Slots, AllocError>
    ensures { IfOk result (λ slots. slots ≡ slots_of types.now (Ref 0 ∷ args.now)) }
{
    let mut slots = Slots::new(alloc);
    slots.push(Slot {
        value: Value::Ref(0),
        written: true,
    })?;
    push_written(alloc, &mut slots, args)?;
    let count = slots.len();
    if count < types.len() {
        push_blanks(&mut slots, &types[count..])?;
    }
    Ok(slots)
}

/// The frame of an entry, with its arguments.
pub fn entry_frame(
    alloc: Global,
    method: u16,
    types: &[Ty],
    args: &[Value],
) -> Result<Frame, AllocError>
    ensures { IfOk result (λ f. f ≡ record { method = method; back = 0; slots = slots_of types.now (Ref 0 ∷ args.now) }) }
{
    let slots = entry_slots(alloc, types, args)?;
    Ok(Frame {
        method,
        back: 0,
        slots,
    })
}
