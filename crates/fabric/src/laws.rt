// The laws of calls.
ghost use Rattle.fabric.specs.Laws.{OneAnswer, PathListed, CallsKeepLaw, ForwardAccepted, TakeAccepted};

// A call has one answer, and leaves the packets in one way.
pub fn one_answer()
    ensures { OneAnswer }
{}

// The path of a pair, as a list of virtual channels, holds the pair's hops in their order.
pub fn path_listed()
    ensures { PathListed }
{}

// What `run` promises of its calls holds of any calls that are made one after another, on a fabric of any depth from 1.
pub fn calls_keep_law()
    ensures { CallsKeepLaw }
{}

// A forward that can be made is accepted.
pub fn forward_accepted()
    ensures { ForwardAccepted }
{}

// A take that can be made is accepted.
pub fn take_accepted()
    ensures { TakeAccepted }
{}
