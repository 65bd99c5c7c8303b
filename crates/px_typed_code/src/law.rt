//! What holds of the code of typed programs.
ghost use Rattle.px_typed_code.specs.Laws.{LoweredIsTyped, EntriesAreMethods};
ghost use Rattle.px_typed_code.specs.Nodes.{NodesInOrder};
ghost use Rattle.px_typed_code.specs.Sizes.{FewSlots, FewNodes};

/// The code of a typed program is typed.
pub fn is_typed()
    ensures { LoweredIsTyped }
{}

/// Each entry of a program is a method that jobs may call, with its parameters and its result.
pub fn entries_are_methods()
    ensures { EntriesAreMethods }
{}

/// The nodes are numbered from 1 in the order of the code.
pub fn nodes_are_in_order()
    ensures { NodesInOrder }
{}

/// A method has at most its declared slots and two for each expression in it.
pub fn slots_are_few()
    ensures { FewSlots }
{}

/// A program has at most two nodes for each method, five for each statement and expression, and one
/// for each field.
pub fn nodes_are_few()
    ensures { FewNodes }
{}
