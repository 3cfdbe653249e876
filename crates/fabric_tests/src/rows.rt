// Calls and answers in plain numbers, as the tables of the tests have them.
use fabric::call::Done;
use fabric::fault::FabricFault;
use fabric::packet::Delivery;
use routing::pair::Pair;

// The rows of a table of calls; a call is data, since a table can hold no closures.
#[derive(Clone, Copy)]
pub enum Ask {
    // sender, receiver and tag
    Admit(u16, u16, u32),
    Forward(u16),
    Take(u16),
    // no call: another entry at a place of the forwarding table, the lane table, the path table
    Entry(usize, u16),
    Lane(usize, u8),
    Level(usize, u8),
}

#[derive(Clone, Copy, PartialEq)]
pub enum Say {
    Admitted,
    // channel and lane
    Forwarded(u16, u8),
    // sender, receiver and tag
    Taken(u16, u16, u32),
    // no call was made
    Written,
}

// A refusal.
#[derive(Clone, Copy, PartialEq)]
pub enum No {
    // its number, where it is about no pair
    Plain(u8),
    // its number, and the pair and the hop that it is about
    For(u8, u16, u16, u16),
    // want of memory, the one refusal without a number
    Memory,
}

fn refused(number: Option<u8>, pair: Option<Pair>, hop: u16) -> No {
    match (number, pair) {
        (Some(number), Some(pair)) => No::For(number, pair.sender.0, pair.receiver.0, hop),
        (Some(number), None) => No::Plain(number),
        (None, _) => No::Memory,
    }
}

// What is told of a refusal; of the fault of a walk, what that tells.
impl From<FabricFault> for No {
    fn from(fault: FabricFault) -> No {
        match fault.walk() {
            Some(walk) => refused(walk.number(), walk.pair(), walk.hop()),
            None => refused(fault.number(), fault.about(), fault.hop()),
        }
    }
}

impl From<Done> for Say {
    fn from(done: Done) -> Say {
        match done {
            Done::Admitted => Say::Admitted,
            Done::Forwarded(channel, lane) => Say::Forwarded(channel.0, lane.number()),
            Done::Taken(Delivery { pair, tag }) => {
                Say::Taken(pair.sender.0, pair.receiver.0, tag)
            }
        }
    }
}

pub fn spoken(answer: Result<Done, FabricFault>) -> Result<Say, No> {
    Ok(Say::from(answer?))
}
