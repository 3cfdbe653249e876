// Why no up-down source is made.
ghost use Rattle.std.specs.Prelude.{◌≡◌};
ghost use Rattle.up_down.specs.Faults.{up_down_refusal};
ghost use Rattle.up_down.specs.declared.fault.UpDownFault.TheVariants.{Memory};

use rack::numbers::Node;
use std::alloc::{AllocError, AllocFailed};

#[derive(Clone, Copy, PartialEq, Eq, Debug)]
pub enum UpDownFault {
    // the root is no switch
    Root(Node),
    // no way leads from this node to the root, and from each before it one does
    Unreachable(Node),
    // there is no memory for the source
    Memory,
}

impl From<AllocError> for UpDownFault {
    ghost from_gives = { λ _ r. r ≡ Memory };

    fn from(_: AllocError) -> UpDownFault {
        UpDownFault::Memory
    }
}

impl<T: Drop> From<AllocFailed<T>> for UpDownFault {
    ghost from_gives = { λ _ r. r ≡ Memory };

    fn from(_: AllocFailed<T>) -> UpDownFault {
        UpDownFault::Memory
    }
}

impl UpDownFault {
    // The number of the refusal; want of memory has none.
    pub fn number(self) -> Option<u8>
        ensures { result ≡ (up_down_refusal self).number }
    {
        match self {
            UpDownFault::Root(_) => Some(35),
            UpDownFault::Unreachable(_) => Some(36),
            UpDownFault::Memory => None,
        }
    }

    // The node that the refusal is about, in a record's place; 0 where it is about none.
    pub fn record(self) -> usize
        ensures { result ≡ (up_down_refusal self).about }
    {
        match self {
            UpDownFault::Root(node) | UpDownFault::Unreachable(node) => usize::from(node.0),
            UpDownFault::Memory => 0,
        }
    }
}
