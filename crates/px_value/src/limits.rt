//! The limits of a run. `specs/Limits.antt` defines the same numbers.

/// The most frames that a call has at a time, the entry's with them.
pub const MAX_FRAMES: u32 = 200;

/// The most turns of a call: tests of loops, and calls of methods.
pub const MAX_TURNS: u32 = 100_000;

/// The most operations that a call asks of the tables.
pub const MAX_OPERATIONS: u32 = 100;

/// The most lines that a call prints.
pub const MAX_PRINTS: usize = 1000;

/// The most bytes that all printed lines of a call have together.
pub const MAX_PRINTED: usize = 20_000;

/// The most cells of a heap, where each object counts as one more.
pub const MAX_COUNTED: usize = 100_000;

/// The most elements of an array.
pub const MAX_ELEMENTS: u32 = 50_000;

/// The most bytes of a text.
pub const MAX_TEXT: usize = 500;

/// The most bytes of a text that is a parameter of an operation, or stands in a table.
pub const MAX_PARAMETER: usize = 255;

/// The most bytes that all texts of an operation have together.
pub const MAX_TEXTS: usize = 500;
