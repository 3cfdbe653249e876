// The law of packets that go through queues of limited room, each on a path of its own.
#![tactic(auto)]

ghost use Rattle.courses.specs.Law.{KeepsLaw};

// Any course of calls keeps the law, for every kind of packet, every assignment of paths without a ring and every room of the queues.
pub fn courses_keep_law<P>()
    ensures { KeepsLaw P }
{}
