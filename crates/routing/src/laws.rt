// The laws of paths.
ghost use Rattle.routing.specs.Laws.{NeverEnds, NeverDelivered, DeliveredInTime, NoChannelTwice, StoppedUndelivered, WalkedOrStopped, OneFault, OnePath};

// A path that has not ended after as many channels as there are never ends.
pub fn never_ends()
    ensures { NeverEnds }
{}

// So its packets never arrive.
pub fn never_delivered()
    ensures { NeverDelivered }
{}

// A pair's packets arrive exactly if its path ends at the receiver within as many channels as there are.
pub fn delivered_in_time()
    ensures { DeliveredInTime }
{}

// A path that ends at the receiver has no channel twice.
pub fn no_channel_twice()
    ensures { NoChannelTwice }
{}

// Where the walk meets a fault of the path itself, the pair's packets never arrive.
pub fn stopped_undelivered()
    ensures { StoppedUndelivered }
{}

// The walk along a path does not both end and meet a fault, unless memory is wanting.
pub fn walked_or_stopped()
    ensures { WalkedOrStopped }
{}

// It meets one fault, unless memory is wanting.
pub fn one_fault()
    ensures { OneFault }
{}

// Where it ends, the list is the same each time.
pub fn one_path()
    ensures { OnePath }
{}
