// Why a path or a distance table is refused.
ghost use Rattle.std.specs.Prelude.{◌≡◌, Some};
ghost use Rattle.routing.specs.Faults.{walk_refusal, distance_refusal};
ghost use Rattle.routing.specs.declared.fault.WalkFault.TheVariants.{Memory};

use crate::pair::Pair;
use std::alloc::AllocFailed;

// What is wrong with the path of a pair, and at which hop; the channel out of the sender is hop 0.
#[derive(Clone, Copy, PartialEq, Eq, Debug)]
pub enum WalkFault {
    // the pair is not two different hosts
    NoPair { pair: Pair },
    // as many channels as there are were walked, and the last one enters a switch
    Endless { pair: Pair, hop: u16 },
    // the source names no channel
    NoChannel { pair: Pair, hop: u16 },
    // the source names what is no channel out of the switch
    Elsewhere { pair: Pair, hop: u16 },
    // the lane is not below the lane count
    Lane { pair: Pair, hop: u16 },
    // the path ends at another host
    OtherHost { pair: Pair, hop: u16 },
    // there is no memory for the path
    Memory,
}

#[derive(Clone, Copy, PartialEq, Eq, Debug)]
pub enum DistanceFault {
    // the table is too short
    Tables,
}

impl WalkFault {
    // The number of the refusal; want of memory has none.
    pub fn number(self) -> Option<u8>
        ensures { result ≡ (walk_refusal self).number }
    {
        match self {
            WalkFault::NoPair { .. } => Some(30),
            WalkFault::Endless { .. } => Some(23),
            WalkFault::NoChannel { .. } => Some(20),
            WalkFault::Elsewhere { .. } => Some(21),
            WalkFault::Lane { .. } => Some(24),
            WalkFault::OtherHost { .. } => Some(22),
            WalkFault::Memory => None,
        }
    }

    // The pair whose path is refused; want of memory is about none.
    pub fn pair(self) -> Option<Pair>
        ensures { result ≡ (walk_refusal self).pair }
    {
        match self {
            WalkFault::NoPair { pair }
            | WalkFault::Endless { pair, .. }
            | WalkFault::NoChannel { pair, .. }
            | WalkFault::Elsewhere { pair, .. }
            | WalkFault::Lane { pair, .. }
            | WalkFault::OtherHost { pair, .. } => Some(pair),
            WalkFault::Memory => None,
        }
    }

    // The hop at fault; 0 where the refusal is about none, as in the line that tells it.
    pub fn hop(self) -> u16
        ensures { result ≡ (walk_refusal self).hop }
    {
        match self {
            WalkFault::Endless { hop, .. }
            | WalkFault::NoChannel { hop, .. }
            | WalkFault::Elsewhere { hop, .. }
            | WalkFault::Lane { hop, .. }
            | WalkFault::OtherHost { hop, .. } => hop,
            WalkFault::NoPair { .. } | WalkFault::Memory => 0,
        }
    }
}

impl<T: Drop> From<AllocFailed<T>> for WalkFault {
    ghost from_gives = { λ _ f. f ≡ Memory };

    fn from(_: AllocFailed<T>) -> Self {
        Self::Memory
    }
}

impl DistanceFault {
    // The number of the refusal. Named, and no `From`: the faults of all layers are asked in the same words, and most of them answer an `Option`.
    pub fn number(self) -> u8
        ensures { (distance_refusal self).number ≡ Some result }
    {
        match self {
            DistanceFault::Tables => 9,
        }
    }
}
