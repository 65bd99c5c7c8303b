//! What two ends together do.
ghost use Rattle.px_pair.specs.Law.{BlocksRunAlike};
ghost use Rattle.px_pair.specs.Crossing.{StepsKeepStacks, StepsCanTell, ControlCrosses};
ghost use Rattle.px_pair.specs.Calls.{CallsAgree};
ghost use Rattle.px_pair.specs.Whole.{CallsDoAsCode, CommitsAsCode};
ghost use Rattle.px_pair.specs.Good.{CutIsGood, EntriesFit, BlocksRunAsCode};
ghost use Rattle.px_pair.specs.Fresh.{NothingStale, CommitsLeaveFresh};
ghost use Rattle.px_pair.specs.Served.{TalksAreTold, CallsAreServed};
ghost use Rattle.px_pair.specs.Once.{StoriesAreOne};
ghost use Rattle.px_pair.specs.Servable.{CompiledIsSound};
ghost use Rattle.px_pair.specs.Replies.{RepliesAreDeclared};
ghost use Rattle.px_pair.specs.FirstHeap.{FirstHeapFits};
ghost use Rattle.px_pair.specs.Sessions.{NewRests, CallsBegin, CommitsKeep};

/// Where two ends together have one heap and one stack, a block does at the end with control what it does on that heap: the same statements run, with the same reads and writes, and both ends have one heap again. What it reads is the newest value.
pub fn blocks_run_alike()
    ensures { BlocksRunAlike }
{}

/// The statements of a block leave both stacks alike, but for the slots written since control came.
pub fn steps_keep_stacks()
    ensures { StepsKeepStacks }
{}

/// The statements of a block leave an end whose stack can be told to the other end.
pub fn steps_can_tell()
    ensures { StepsCanTell }
{}

/// Control goes over, where both ends know all objects: the message of the end with control is taken in by the other end, which then has the same stack and the newest value of each cell that it keeps, and both have the one heap.
pub fn control_crosses()
    ensures { ControlCrosses }
{}

/// A whole call at two ends, however control goes over, is one on the one heap: the same statements run, with the same reads and writes, it ends alike, and both ends have that heap.
pub fn calls_agree()
    ensures { CallsAgree }
{}

/// No read of a call at two ends is stale, and no copy is old where it ends, if that held before it and every written cell is there.
pub fn nothing_stale()
    ensures { NothingStale }
{}

/// After a commit no copy is old, and the next call may begin.
pub fn commits_leave_fresh()
    ensures { CommitsLeaveFresh }
{}

/// Both ends of a new session, with the same heap, have the one heap.
pub fn new_rests()
    ensures { NewRests }
{}

/// A call that begins at two ends that have the one heap begins as on that heap, and its stack can be told.
pub fn calls_begin()
    ensures { CallsBegin }
{}

/// The commit of APP, taken in by DB, leaves two ends that have the one heap.
pub fn commits_keep()
    ensures { CommitsKeep }
{}

/// Blocks that are cut from code are as the laws here ask, if no literal is a reference and each method ends in a return.
pub fn cut_is_good()
    ensures { CutIsGood }
{}

/// The machine with which a call of an entry begins fits the first block of that call.
pub fn entries_fit()
    ensures { EntriesFit }
{}

/// From two ends that have one heap, a call does what its code does on that heap: the same statements run, it ends alike, and both ends have the heap and the reply that the code leaves, wherever its blocks run and however control goes over.
pub fn calls_do_as_code()
    ensures { CallsDoAsCode }
{}

/// Blocks that are cut from code, one after the other, do what a call of a method does: the same statements run, with the same reads and writes, and the reply, the throw and the heap are the same.
pub fn blocks_run_as_code()
    ensures { BlocksRunAsCode }
{}

/// After such a call and its commit both ends have the heap that the code leaves, APP has its reply, and the next call may begin.
pub fn commits_as_code()
    ensures { CommitsAsCode }
{}

/// What happens in a call at two ends, with every message between them, is what happens on the one heap, where a message has the values of that heap.
pub fn talks_are_told()
    ensures { TalksAreTold }
{}

/// From two ends that have one heap, a call of an entry does what its code does on that heap, wherever its blocks run and however control goes over: where it ends, APP has the code's reply and the commit leaves both ends with the code's heap; where it throws, the code throws the same. No read of it is stale, and what happens in it, with every message, is what happens on the one heap.
pub fn calls_are_served()
    ensures { CallsAreServed }
{}

/// What is told of a call on the one heap, with every message, is fixed by the plan and the machine with which the call begins.
pub fn stories_are_one()
    ensures { StoriesAreOne }
{}

/// A plan whose blocks are cut from well-formed code, and that lists what each side keeps, is a sound one for its code.
pub fn compiled_is_sound()
    ensures { CompiledIsSound }
{}

/// Well-formed code gives a value where its method has a type for it, so the reply of an end is that of the code.
pub fn replies_are_declared()
    ensures { RepliesAreDeclared }
{}

/// The heap with which a session begins fits the code of its plan, and can be told.
pub fn first_heap_fits()
    ensures { FirstHeapFits }
{}
