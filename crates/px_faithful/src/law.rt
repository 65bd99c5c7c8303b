//! What holds of histories.
ghost use Rattle.px_faithful.specs.Faithful.{LegalAndOwnIsSerial, SomeoneGoesOn, FewEvents, FewTries, FewInAll};

/// A legal history, each of whose events is what its session's attempt comes to, is the run of its calls one at a time, in the order of their ends.
pub fn legal_and_own_is_serial()
    ensures { LegalAndOwnIsSerial }
{}

/// While a call isn't over, some session can begin, do, die or end.
pub fn someone_goes_on()
    ensures { SomeoneGoesOn }
{}

/// A session's events are few, for each attempt that it began.
pub fn few_events()
    ensures { FewEvents }
{}

/// A session that gave no call up tries each of its calls as often as it may, at most.
pub fn few_tries()
    ensures { FewTries }
{}

/// Where no call was given up, a history has at most 102 events for each call and each time that it may be tried.
pub fn few_in_all()
    ensures { FewInAll }
{}
