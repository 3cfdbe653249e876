// Reads a rack file from standard input, and prints what the console answers.
#![tactic(auto)]

ghost use Rattle.std.specs.Prelude.{◌≡◌, ◌≤◌, length, take, IfOk, IfSome};

use report::report::report;
use std::alloc::Global;
use std::io;
use std::io::{Read, Write};

// The most bytes that are read.
const MOST: u64 = 4096;

// The bytes of the input, up to the most that are read.
fn read_most<R: Read + Drop>(heap: Global, input: R) -> io::Result<Vec<u8>>
    ensures bytes { IfOk result (λ file. IfSome (R.remaining input) (λ bytes. file.items ≡ take MOST bytes)) }
    ensures few { IfOk result (λ file. length file.items ≤ MOST) }
{
    // with room for them all, since a read of less would cut a longer message off
    let mut file = Vec::with_capacity(heap, MOST as usize)?;
    input.take(MOST).read_to_end(&mut file)?;
    // no more than this is read; of a reader that is not known, only this line says so
    file.truncate(MOST as usize);
    Ok(file)
}

fn main(rt: HostRuntime) -> io::Result<()> {
    let file = read_most(rt.alloc(), rt.stdin())?;
    let answer = report(rt.alloc(), &file)?;
    rt.stdout().write_all(answer.as_bytes())
}
