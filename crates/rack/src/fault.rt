// Why a pair of tables is refused.
ghost use Rattle.std.specs.Prelude.{◌≡◌};
ghost use Rattle.rack.specs.Faults.{rack_refusal};
ghost use Rattle.rack.specs.declared.fault.RackFault.TheVariants.{Memory};

use std::alloc::AllocError;

#[derive(Clone, Copy, PartialEq, Eq, Debug)]
pub enum RackFault {
    // no file gives these tables
    Tables,
    // there is no memory for the rack
    Memory,
}

impl From<AllocError> for RackFault {
    ghost from_gives = { λ _ r. r ≡ Memory };

    fn from(_: AllocError) -> RackFault {
        RackFault::Memory
    }
}

impl RackFault {
    // The number of the refusal; want of memory has none.
    pub fn number(self) -> Option<u8>
        ensures { result ≡ (rack_refusal self).number }
    {
        match self {
            RackFault::Tables => Some(13),
            RackFault::Memory => None,
        }
    }
}
