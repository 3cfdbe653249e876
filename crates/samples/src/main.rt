// Prints what the console answers to each sample rack file.
#![tactic(auto)]

use report::report::report;
use std::{fs, io};

// The samples, in the order in which they are shown.
const NAMES: [&str; 12] = [
    "triangle",
    "clockwise",
    "line",
    "slip",
    "one-host",
    "row",
    "empty",
    "two-parts",
    "thirteen-nodes",
    "seventeen-cables",
    "turned",
    "back",
];

// One sample: its name, and the answer.
fn show(rt: &HostRuntime, name: &str) -> io::Result<()> {
    let path = format!(in rt.alloc(); "{name}.rack")?;
    let file = fs::read(rt, path.as_str())?;
    let answer = report(rt.alloc(), &file)?;
    println!(rt; "{name}")?;
    rt.print(answer.as_str())
}

fn main(rt: HostRuntime) -> io::Result<()> {
    for name in NAMES {
        show(&rt, name)?;
    }
    Ok(())
}
