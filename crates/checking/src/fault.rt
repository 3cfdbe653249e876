// Why a plan is refused.
ghost use Rattle.std.specs.Prelude.{◌≡◌};
ghost use Rattle.checking.specs.Faults.{check_refusal, rank_refusal};
ghost use Rattle.checking.specs.declared.fault.CheckFault.TheVariants.{Walk, Memory};

use ranking::RankFault;
use routing::fault::WalkFault;
use routing::pair::Pair;
use std::alloc::AllocError;

#[derive(Clone, Copy, PartialEq, Eq, Debug)]
pub enum CheckFault {
    // the lane count is not 1 to 8
    Lanes,
    // a table is too short
    Tables,
    // the pair's level is above 15
    Level { pair: Pair },
    // something is wrong with the path of a pair
    Walk(WalkFault),
    // so many virtual channels follow one another in a ring
    Ring { length: u16 },
    // there is no memory for the check
    Memory,
}

impl From<WalkFault> for CheckFault {
    ghost from_gives = { λ f r. r ≡ Walk f };

    fn from(fault: WalkFault) -> CheckFault {
        CheckFault::Walk(fault)
    }
}

impl From<RankFault> for CheckFault {
    ghost from_gives = { λ f r. r ≡ rank_refusal f };

    fn from(fault: RankFault) -> CheckFault {
        match fault {
            RankFault::Tables => CheckFault::Tables,
            RankFault::Ring { length } => CheckFault::Ring { length },
        }
    }
}

impl From<AllocError> for CheckFault {
    ghost from_gives = { λ _ r. r ≡ Memory };

    fn from(_: AllocError) -> CheckFault {
        CheckFault::Memory
    }
}

impl CheckFault {
    // The number of the refusal; the fault of a walk has its own, and want of memory has none.
    pub fn number(self) -> Option<u8>
        ensures { result ≡ (check_refusal self).number }
    {
        match self {
            CheckFault::Lanes => Some(10),
            CheckFault::Tables => Some(9),
            CheckFault::Level { .. } => Some(26),
            CheckFault::Walk(_) => None,
            CheckFault::Ring { .. } => Some(25),
            CheckFault::Memory => None,
        }
    }

    // The pair whose level is above 15.
    pub fn about(self) -> Option<Pair>
        ensures { result ≡ (check_refusal self).about }
    {
        match self {
            CheckFault::Level { pair } => Some(pair),
            _ => None,
        }
    }

    // The fault of a walk, as it was handed up. Three layers have this question; a trait would leave each of them this body.
    pub fn walk(self) -> Option<WalkFault>
        ensures { result ≡ (check_refusal self).walk }
    {
        match self {
            CheckFault::Walk(fault) => Some(fault),
            _ => None,
        }
    }
}
