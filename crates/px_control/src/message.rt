//! What goes to the other end with control, and with the end of a call.
ghost use Rattle.std.specs.Prelude.{◌≡◌};

use px_value::{Header, Value};
use std::marker::Model;

/// A frame that is new at the other end.
#[derive(Drop)]
pub struct FrameTold {
    pub method: u16,
    pub back: u32,
}

impl Model for FrameTold {
    ghost use Rattle.px_blocks.specs.Message.{FrameTold as MessageFrame};

    ghost Value = { MessageFrame };

    ghost view = { λ f. record { method = f.method; back = f.back } };
}

/// The value of a slot.
#[derive(Drop)]
pub struct SlotAt {
    pub frame: usize,
    pub slot: usize,
    pub value: Value,
}

impl Model for SlotAt {
    ghost use Rattle.px_blocks.specs.Message.{SlotAt as MessageSlot};

    ghost Value = { MessageSlot };

    ghost view = { λ s. record { frame = s.frame; slot = s.slot; value = s.value } };
}

/// The value of a cell.
#[derive(Drop)]
pub struct CellAt {
    pub object: u32,
    pub index: u32,
    pub value: Value,
}

impl Model for CellAt {
    ghost use Rattle.px_blocks.specs.Message.{CellAt as MessageCell};

    ghost Value = { MessageCell };

    ghost view = { λ c. record { object = c.object; index = c.index; value = c.value } };
}

/// The objects that the other end doesn't know, and the cells that were written and named.
#[derive(Drop)]
pub struct Updates {
    pub headers: Vec<Header>,
    /// In the order of objects and indexes.
    pub cells: Vec<CellAt>,
}

impl Model for Updates {
    ghost use Rattle.px_blocks.specs.Message.{Updates as MessageUpdates};

    ghost Value = { MessageUpdates };

    ghost view = { λ u. record { headers = u.headers.items; cells = u.cells.items } };
}

/// Control goes to the other end.
#[derive(Drop)]
pub struct Transfer {
    /// The block that comes next; 0 for the end of a method.
    pub block: u32,
    pub turns: u32,
    /// How many of the lowest frames stay as they are.
    pub base: usize,
    /// The frames above them.
    pub frames: Vec<FrameTold>,
    pub slots: Vec<SlotAt>,
    pub updates: Updates,
}

impl Model for Transfer {
    ghost use Rattle.px_blocks.specs.Message.{Transfer as MessageTransfer};

    ghost Value = { MessageTransfer };

    ghost view = { λ t. record { block = t.block; turns = t.turns; base = t.base; frames = t.frames.items; slots = t.slots.items; updates = t.updates } };
}
