// The lines that answer a course of calls.
ghost use Rattle.std.specs.Prelude.{◌≡◌, Some};
ghost use Rattle.workbench.specs.Replies.{told_of, told_root};

use checking::fault::CheckFault;
use fabric::call::Done;
use fabric::fault::FabricFault;
use fabric::packet::Delivery;
use report::refusal::{Refusal, Told, tell};
use std::fmt;
use up_down::fault::UpDownFault;

#[derive(Clone, Copy)]
pub enum Reply {
    // what an accepted call did
    Done(Done),
    Refused(Told),
    // the fabric is closed, and so many packets wait
    Closed { waiting: usize },
    // the line of this number, from 1, asks for nothing
    Unknown { line: usize },
}

impl fmt::Display for Reply {
    ghost use Rattle.workbench.specs.Replies.{reply_text};

    ghost output = { λ r. Some (reply_text r) };

    fn fmt<W: fmt::Write>(&self, f: &mut fmt::Formatter<W>) -> fmt::Result {
        match *self {
            Reply::Done(Done::Admitted) => writeln!(f, "ok"),
            Reply::Done(Done::Forwarded(channel, lane)) => {
                let channel = channel.0;
                let lane = lane.number();
                writeln!(f, "ok {channel} {lane}")
            }
            Reply::Done(Done::Taken(Delivery { pair, tag })) => {
                let u = pair.sender.0;
                let v = pair.receiver.0;
                writeln!(f, "ok {u} {v} {tag}")
            }
            Reply::Refused(
                Told {
                    number,
                    sender,
                    receiver,
                    hop,
                },
            ) => writeln!(f, "refused {number} {sender} {receiver} {hop}"),
            Reply::Closed { waiting } => writeln!(f, "ok {waiting}"),
            Reply::Unknown { line } => writeln!(f, "what? {line}"),
        }
    }
}

// What is told of a refusal of the fabric, by the numbers of its line.
pub fn told_of(fault: FabricFault) -> Option<Told>
    ensures { result ≡ told_of fault }
{
    match (fault.number(), fault.about(), fault.walk()) {
        (Some(number), Some(pair), _) => Some(Told {
            number,
            sender: usize::from(pair.sender.0),
            receiver: pair.receiver.0,
            hop: fault.hop(),
        }),
        (Some(number), None, _) => Some(Told {
            number,
            sender: 0,
            receiver: 0,
            hop: 0,
        }),
        (None, _, Some(fault)) => tell(Refusal::Check(CheckFault::Walk(fault))),
        (None, _, None) => None,
    }
}

// What is told where no up-down source is made: the number and the node that it is about.
pub fn told_root(fault: UpDownFault) -> Option<Told>
    ensures { result ≡ told_root fault }
{
    Some(Told {
        number: fault.number()?,
        sender: fault.record(),
        receiver: 0,
        hop: 0,
    })
}
