// How a way begins.
use rack::numbers::Channel;

// The first channel of a way, and how many channels are left behind it.
#[derive(Clone, Copy, PartialEq, Eq, Debug)]
pub struct Begin {
    pub first: Channel,
    pub left: u16,
}
