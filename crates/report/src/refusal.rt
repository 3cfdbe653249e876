// Why the console refuses a file: the fault of whichever layer found one, handed up whole.
ghost use Rattle.std.specs.Prelude.{◌≡◌, Some};
ghost use Rattle.report.specs.Refusals.{plainly, of_record, of_hop, of_walk, of_parts, of_plan, told};
ghost use Rattle.report.specs.declared.refusal.Refusal.TheVariants.{File, Rack, Distance, Check, Memory};
ghost use Rattle.checking.specs.declared.fault.CheckFault.TheVariants.{Walk};

use builder::fault::BuildFault;
use checking::fault::CheckFault;
use planning::fault::PlanFault;
use rack::fault::RackFault;
use reading::fault::FileFault;
use routing::fault::{DistanceFault, WalkFault};
use routing::pair::Pair;
use std::alloc::AllocError;

// No `Display`, and none of the faults has one: what is printed of them is the line of what is told, and `Line` has that.
#[derive(Clone, Copy, PartialEq, Eq, Debug)]
pub enum Refusal {
    File(FileFault),
    Rack(RackFault),
    Distance(DistanceFault),
    Build(BuildFault),
    Check(CheckFault),
    // there is no memory for the answer
    Memory,
}

impl From<FileFault> for Refusal {
    ghost from_gives = { λ f r. r ≡ File f };

    fn from(fault: FileFault) -> Refusal {
        Refusal::File(fault)
    }
}

impl From<RackFault> for Refusal {
    ghost from_gives = { λ f r. r ≡ Rack f };

    fn from(fault: RackFault) -> Refusal {
        Refusal::Rack(fault)
    }
}

impl From<DistanceFault> for Refusal {
    ghost from_gives = { λ f r. r ≡ Distance f };

    fn from(fault: DistanceFault) -> Refusal {
        Refusal::Distance(fault)
    }
}

impl From<PlanFault> for Refusal {
    ghost from_gives = { λ f r. r ≡ of_plan f };

    fn from(fault: PlanFault) -> Refusal {
        match fault {
            PlanFault::Build(fault) => Refusal::Build(fault),
            PlanFault::Check(fault) => Refusal::Check(fault),
        }
    }
}

impl From<CheckFault> for Refusal {
    ghost from_gives = { λ f r. r ≡ Check f };

    fn from(check: CheckFault) -> Refusal {
        Refusal::Check(check)
    }
}

impl From<WalkFault> for Refusal {
    ghost from_gives = { λ f r. r ≡ Check (Walk f) };

    fn from(fault: WalkFault) -> Refusal {
        Refusal::Check(CheckFault::Walk(fault))
    }
}

impl From<AllocError> for Refusal {
    ghost from_gives = { λ _ r. r ≡ Memory };

    fn from(_: AllocError) -> Refusal {
        Refusal::Memory
    }
}

// What the line of a refusal tells: the number, then sender (for a fault of the file its record), receiver and hop, 0 where there is none.
#[derive(Clone, Copy, PartialEq, Eq, Debug)]
pub struct Told {
    pub number: u8,
    pub sender: usize,
    pub receiver: u16,
    pub hop: u16,
}

impl Told {
    // A number alone.
    fn plain(number: u8) -> Told
        ensures { result ≡ plainly number }
    {
        Told {
            number,
            sender: 0,
            receiver: 0,
            hop: 0,
        }
    }

    // The number of a fault of the file, and its record in the sender's place.
    fn at_record(number: u8, record: usize) -> Told
        ensures { result ≡ of_record number «record» }
    {
        Told {
            sender: record,
            ..Told::plain(number)
        }
    }

    // A number, and the pair and the hop that it is about.
    fn at_hop(number: u8, pair: Pair, hop: u16) -> Told
        ensures { result ≡ of_hop number pair hop }
    {
        Told {
            number,
            sender: usize::from(pair.sender.0),
            receiver: pair.receiver.0,
            hop,
        }
    }
}

fn of_walk(fault: WalkFault) -> Option<Told>
    ensures { result ≡ of_walk fault }
{
    Some(Told::at_hop(fault.number()?, fault.pair()?, fault.hop()))
}

// What is told by a number, and by a pair if there is one; else by the fault of a walk, if it is one.
fn of_parts(number: Option<u8>, about: Option<Pair>, fault: Option<WalkFault>) -> Option<Told>
    ensures { result ≡ of_parts number about fault }
{
    match (number, about, fault) {
        (Some(number), Some(pair), _) => Some(Told::at_hop(number, pair, 0)),
        (Some(number), None, _) => Some(Told::plain(number)),
        (None, _, Some(fault)) => of_walk(fault),
        (None, _, None) => None,
    }
}

// What is told of a refusal; none where memory was wanting, which is no refusal.
pub fn tell(refusal: Refusal) -> Option<Told>
    ensures { result ≡ told refusal }
{
    match refusal {
        Refusal::File(fault) => Some(Told::at_record(fault.number(), fault.record())),
        Refusal::Rack(fault) => of_parts(fault.number(), None, None),
        Refusal::Distance(fault) => Some(Told::plain(fault.number())),
        // the builder's and the check's fault alike: a trait over the two would be longer than the line twice
        Refusal::Build(fault) => of_parts(fault.number(), fault.about(), fault.walk()),
        Refusal::Check(fault) => of_parts(fault.number(), fault.about(), fault.walk()),
        Refusal::Memory => None,
    }
}
