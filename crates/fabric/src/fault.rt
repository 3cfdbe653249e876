// Why a call on the fabric is refused.
ghost use Rattle.std.specs.Prelude.{◌≡◌};
ghost use Rattle.fabric.specs.Faults.{fabric_refusal};
ghost use Rattle.fabric.specs.declared.fault.FabricFault.TheVariants.{Walk};

use routing::fault::WalkFault;
use routing::pair::Pair;

#[derive(Clone, Copy, PartialEq, Eq, Debug)]
pub enum FabricFault {
    // the lane count is not 1 to 8
    Lanes,
    // the depth is not 1 to 8
    Depth,
    // the path table or the queues are too few
    Tables,
    // the pair is not two different hosts
    NoPair { pair: Pair },
    // the pair's level is above 15
    Level { pair: Pair },
    // there is no such virtual channel
    NoQueue,
    // nothing waits there
    Empty,
    // the channel enters a host, or does not enter the receiver
    Misplaced { pair: Pair, hop: u16 },
    // something is wrong with the next hop of the path
    Walk(WalkFault),
    // the queue is full
    Full { pair: Pair, hop: u16 },
}

impl From<WalkFault> for FabricFault {
    ghost from_gives = { λ f r. r ≡ Walk f };

    fn from(fault: WalkFault) -> FabricFault {
        FabricFault::Walk(fault)
    }
}

impl FabricFault {
    // The number of the refusal; the fault of a walk has its own.
    pub fn number(self) -> Option<u8>
        ensures { result ≡ (fabric_refusal self).number }
    {
        match self {
            FabricFault::Lanes | FabricFault::Depth => Some(10),
            FabricFault::Tables => Some(9),
            FabricFault::NoPair { .. } => Some(30),
            FabricFault::Level { .. } => Some(26),
            FabricFault::NoQueue => Some(31),
            FabricFault::Empty => Some(32),
            FabricFault::Misplaced { .. } => Some(34),
            FabricFault::Walk(_) => None,
            FabricFault::Full { .. } => Some(33),
        }
    }

    // The pair that the refusal is about, if it is about one; the fault of a walk tells its own.
    pub fn about(self) -> Option<Pair>
        ensures { result ≡ (fabric_refusal self).about }
    {
        match self {
            FabricFault::NoPair { pair }
            | FabricFault::Level { pair }
            | FabricFault::Misplaced { pair, .. }
            | FabricFault::Full { pair, .. } => Some(pair),
            _ => None,
        }
    }

    // The hop that the refusal is about; the fault of a walk tells its own. 0 where it is about none, as in the line of a refusal.
    pub fn hop(self) -> u16
        ensures { result ≡ (fabric_refusal self).hop }
    {
        match self {
            FabricFault::Misplaced { hop, .. } | FabricFault::Full { hop, .. } => hop,
            _ => 0,
        }
    }

    // The fault of a walk, as it was handed up. Three layers have this question; a trait would leave each of them this body.
    pub fn walk(self) -> Option<WalkFault>
        ensures { result ≡ (fabric_refusal self).walk }
    {
        match self {
            FabricFault::Walk(fault) => Some(fault),
            _ => None,
        }
    }
}
