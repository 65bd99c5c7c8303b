//! Every run stays within points-to.
ghost use Rattle.px_points_stay.specs.Laws.{RunsStay, FirstFits};

/// What a run of typed code reaches, reads, writes and returns is in the sets of points-to.
pub fn runs_stay<Q, W>()
    ensures { RunsStay Q W }
{}

/// The first heap of a session fits.
pub fn first_heap_fits()
    ensures { FirstFits }
{}
