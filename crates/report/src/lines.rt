// The lines of the console's answer.
ghost use Rattle.std.specs.Prelude.{◌≡◌, IfOk, Some, string_bytes};
ghost use Rattle.report.specs.Text.{accepted_line, pair_line, refused_line};

use crate::refusal::Told;
use std::alloc::{AllocError, Global};
use std::fmt;

#[derive(Clone, Copy, PartialEq, Eq, Debug)]
pub enum Line {
    // a plan is accepted
    Accepted {
        greatest: u16,
    },
    // a pair of the plan, its level, and how many channels its path has
    Pair {
        sender: u16,
        receiver: u16,
        level: u8,
        channels: usize,
    },
    // a file is refused
    Refused(Told),
}

impl fmt::Display for Line {
    ghost use Rattle.report.specs.Text.{line_text};

    ghost output = { λ line. Some (line_text line) };

    fn fmt<W: fmt::Write>(&self, f: &mut fmt::Formatter<W>) -> fmt::Result {
        match *self {
            Line::Accepted { greatest } => writeln!(f, "accepted {greatest}"),
            Line::Pair {
                sender,
                receiver,
                level,
                channels,
            } => writeln!(f, "{sender} {receiver} {level} {channels}"),
            Line::Refused(
                Told {
                    number,
                    sender,
                    receiver,
                    hop,
                },
            ) => writeln!(f, "refused {number} {sender} {receiver} {hop}"),
        }
    }
}

// Each of the three lines as a text of its own: what `Line` shows, by a call with a contract.
// `accepted` and the greatest rank.
pub fn accepted_line(heap: Global, greatest: u16) -> Result<String, AllocError>
    ensures { IfOk result (λ s. string_bytes s ≡ accepted_line greatest) }
{
    Line::Accepted { greatest }.to_string(heap)
}

// The sender, the receiver, the level and the count of channels of a pair.
pub fn pair_line(
    heap: Global,
    sender: u16,
    receiver: u16,
    level: u8,
    channels: usize,
) -> Result<String, AllocError>
    ensures { IfOk result (λ s. string_bytes s ≡ pair_line sender receiver level channels) }
{
    Line::Pair {
        sender,
        receiver,
        level,
        channels,
    }
    .to_string(heap)
}

// `refused`, the number, the sender or record, the receiver and the hop.
pub fn refused_line(heap: Global, told: Told) -> Result<String, AllocError>
    ensures { IfOk result (λ s. string_bytes s ≡ refused_line told) }
{
    Line::Refused(told).to_string(heap)
}
