// Calls on a fabric, and what is answered to them.
use crate::packet::{Delivery, VirtualChannel};
use rack::numbers::{Channel, Lane};
use routing::pair::Pair;

// A caller gives its calls in a list, so a call is data and not a closure.
#[derive(Clone, Copy)]
pub enum Call {
    Admit { pair: Pair, tag: u32 },
    Forward(VirtualChannel),
    Take(VirtualChannel),
}

// What an accepted call did.
#[derive(Clone, Copy, PartialEq, Eq, Debug)]
pub enum Done {
    Admitted,
    // the channel and the lane that the packet moved to: a pair, as `forward` answers it
    Forwarded(Channel, Lane),
    Taken(Delivery),
}
