// What a line asks for: a call on the fabric, or what waits, or that the fabric is closed.
ghost use Rattle.std.specs.Prelude.{ℕ, MatchOption, IfOk};
ghost use Rattle.workbench.specs.Words.{Writes};

use crate::words::{short, words};
use fabric::call::Call;
use fabric::packet::VirtualChannel;
use routing::pair::Pair;
use std::alloc::{AllocError, Global};

#[derive(Clone, Copy)]
pub enum Request {
    Call(Call),
    // how many packets wait, and where
    Waiting,
    Close,
}

// The number below 2^32 that a word writes.
fn long(word: &str) -> Option<u32>
    ensures { MatchOption result ((n : ℕ) → Writes 32 word.now n → ⊥) (Writes 32 word.now) }
{
    word.parse().ok()
}

impl Request {
    ghost use Rattle.workbench.specs.declared.request.Request.{Request as Requested};
    ghost use Rattle.workbench.specs.Requests.{Asks, AsksIn, AskedIn};

    // What the words ask for; none if they ask for nothing.
    pub fn of_words(words: &[&str]) -> Option<Request>
        ensures { MatchOption result ((r : Requested) → Asks words.now r → ⊥) (Asks words.now) }
    {
        match words {
            ["waiting"] => Some(Request::Waiting),
            ["close"] => Some(Request::Close),
            ["forward", from] => Some(Request::Call(Call::Forward(VirtualChannel(short(from)?)))),
            ["take", from] => Some(Request::Call(Call::Take(VirtualChannel(short(from)?)))),
            ["admit", u, v, tag] => Some(Request::Call(Call::Admit {
                pair: Pair::of(short(u)?, short(v)?),
                tag: long(tag)?,
            })),
            _ => None,
        }
    }

    // What a line asks for; none if it asks for nothing.
    pub fn of_line(heap: Global, line: &str) -> Result<Option<Request>, AllocError>
        ensures { IfOk result (AsksIn line.now) }
    {
        Ok(Request::of_words(&words(heap, line)?))
    }

    // What the bytes of a line ask for; bytes that are no text ask for nothing.
    pub fn of_bytes(heap: Global, line: &[u8]) -> Result<Option<Request>, AllocError>
        ensures { IfOk result (AskedIn line.now) }
    {
        match str::from_utf8(line) {
            Ok(line) => Request::of_line(heap, line),
            Err(_) => Ok(None),
        }
    }
}
