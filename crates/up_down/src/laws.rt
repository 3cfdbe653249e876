// The laws of the up-down source.
ghost use Rattle.up_down.specs.Laws.{DownStaysDown, UpDownAccepted, AcceptedWhereAllConnect};

// No packet goes up after going down.
pub fn down_stays_down()
    ensures { DownStaysDown }
{}

// A plan over an up-down source is accepted with one lane, a lane table of zeros and levels 0.
pub fn up_down_accepted()
    ensures { UpDownAccepted }
{}

// Where the nodes of a rack all connect, a source over any of its switches is made, and such a plan over it accepted.
pub fn accepted_where_all_connect()
    ensures { AcceptedWhereAllConnect }
{}
