// Why no plan is built.
ghost use Rattle.std.specs.Prelude.{◌≡◌};
ghost use Rattle.builder.specs.Faults.{build_refusal};
ghost use Rattle.builder.specs.declared.fault.BuildFault.TheVariants.{Walk, Memory};

use routing::fault::WalkFault;
use routing::pair::Pair;
use std::alloc::AllocError;

#[derive(Clone, Copy, PartialEq, Eq, Debug)]
pub enum BuildFault {
    // the lane count is not 1 to 8
    Lanes,
    // a table is too short
    Tables,
    // something is wrong with the path of a pair
    Walk(WalkFault),
    // the path of the pair needs more lanes than there are
    Lane { pair: Pair },
    // no level has room for the path of the pair
    Level { pair: Pair },
    // there is no memory for the path
    Memory,
}

impl From<WalkFault> for BuildFault {
    ghost from_gives = { λ f r. r ≡ Walk f };

    fn from(fault: WalkFault) -> BuildFault {
        BuildFault::Walk(fault)
    }
}

impl From<AllocError> for BuildFault {
    ghost from_gives = { λ _ r. r ≡ Memory };

    fn from(_: AllocError) -> BuildFault {
        BuildFault::Memory
    }
}

impl BuildFault {
    // The number of the refusal; the fault of a walk has its own, and want of memory has none.
    pub fn number(self) -> Option<u8>
        ensures { result ≡ (build_refusal self).number }
    {
        match self {
            BuildFault::Lanes => Some(10),
            BuildFault::Tables => Some(9),
            BuildFault::Walk(_) => None,
            BuildFault::Lane { .. } => Some(11),
            BuildFault::Level { .. } => Some(12),
            BuildFault::Memory => None,
        }
    }

    // The pair that lacks a lane or a level.
    pub fn about(self) -> Option<Pair>
        ensures { result ≡ (build_refusal self).about }
    {
        match self {
            BuildFault::Lane { pair } | BuildFault::Level { pair } => Some(pair),
            _ => None,
        }
    }

    // The fault of a walk, as it was handed up. Three layers have this question; a trait would leave each of them this body.
    pub fn walk(self) -> Option<WalkFault>
        ensures { result ≡ (build_refusal self).walk }
    {
        match self {
            BuildFault::Walk(fault) => Some(fault),
            _ => None,
        }
    }
}
