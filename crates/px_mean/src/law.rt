//! What holds of a run whose answers are written down, and of one that tables answer.

ghost use Rattle.px_mean.specs.Laws.{LongerLists, OnlyWrittenDown, OneForEach, AskedInOrder, OpenAtTheEnd, TablesAsLists, ListsAsTables, AHeapStaysTyped, AllHeapsStayTyped, FirstHeapsAreTyped, TablesAnswerTyped};

/// A longer list of answers changes nothing before the end of the list.
pub fn longer_lists()
    ensures { LongerLists }
{}

/// Nothing is answered but by the list.
pub fn only_written_down()
    ensures { OnlyWrittenDown }
{}

/// One answer is used for each operation, and there are at most so many operations.
pub fn one_for_each()
    ensures { OneForEach }
{}

/// Operations are asked one after the other, as answers come.
pub fn asked_in_order()
    ensures { AskedInOrder }
{}

/// A question is left open where the list ends, and not before.
pub fn open_at_the_end()
    ensures { OpenAtTheEnd }
{}

/// A run on tables is the run on what the tables answer.
pub fn tables_as_lists<Q>()
    ensures { TablesAsLists Q }
{}

/// A run on what tables answer is the run on the tables.
pub fn lists_as_tables<Q>()
    ensures { ListsAsTables Q }
{}

/// A call of a typed program leaves a typed heap, and its reply has the entry's type.
pub fn a_heap_stays_typed<W>()
    ensures { AHeapStaysTyped W }
{}

/// Calls of a typed program, one after the other, leave all heaps typed.
pub fn all_heaps_stay_typed<W>()
    ensures { AllHeapsStayTyped W }
{}

/// Before all calls the heaps are typed.
pub fn first_heaps_are_typed<W>()
    ensures { FirstHeapsAreTyped W }
{}

/// Tables whose cells are longs and texts answer typed, and keep such cells.
pub fn tables_answer_typed<Q>()
    ensures { TablesAnswerTyped Q }
{}
