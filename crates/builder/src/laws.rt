// What holds of every plan that is built.
ghost use Rattle.builder.specs.Laws.{LanesRise, FirstAndLast0, OneOutcome};

// In a built table every middle turn of a pair's path has its own number for a lane, at the pair's level.
pub fn lanes_rise()
    ensures { LanesRise }
{}

// In a built table a turn from a channel out of a host, or to a channel into a host, has lane 0 at every level.
pub fn first_and_last_0()
    ensures { FirstAndLast0 }
{}

// But for want of memory, the answer and what the needed places hold are settled by what is given.
pub fn one_outcome()
    ensures { OneOutcome }
{}
