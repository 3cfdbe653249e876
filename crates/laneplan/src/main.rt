// Builds and checks lane plans of whole racks, and tries them by calls.
#![tactic(auto)]

use fabric::fabric::Fabric;
use fabric::queue::Queue;
use rack::numbers::Node;
use rack::rack::Rack;
use report::lines::refused_line;
use report::refusal::{Told, tell};
use routing::plan::Plan;
use routing::rows::StoredRows;
use routing::sizes::virtual_channels;
use routing::source::ForwardingSource;
use std::alloc::{AllocError, AllocFailed};
use std::io::{BufRead, BufReader};
use std::process::ExitCode;
use std::{env, fs, io};
use up_down::source::UpDown;
use workbench::answer::answer;
use workbench::arguments::{BuildTask, Task, USAGE};
use workbench::built::build_text;
use workbench::checked::check_text;
use workbench::dry::{Start, close, open_dry};
use workbench::plan_file::{PlanFile, plan_in};
use workbench::rack_file::RackFile;
use workbench::reply::told_root;

// Why the program stops short, with status 1.
#[derive(Debug, Drop)]
enum Stop {
    // what is said on standard error
    Said(String),
    Failed(io::Error),
}

impl From<io::Error> for Stop {
    fn from(error: io::Error) -> Stop {
        Stop::Failed(error)
    }
}

impl From<AllocError> for Stop {
    fn from(error: AllocError) -> Stop {
        Stop::Failed(io::Error::from(error))
    }
}

impl<T: Drop> From<AllocFailed<T>> for Stop {
    fn from(_: AllocFailed<T>) -> Stop {
        Stop::from(AllocError)
    }
}

// What a file was read or written for; or its name and why it cannot be.
fn named<T: Drop>(rt: &HostRuntime, path: &str, came: io::Result<T>) -> Result<T, Stop> {
    match came {
        Ok(value) => Ok(value),
        Err(error) => Err(Stop::Said(format!(in rt.alloc(); "{path}: {error}")?)),
    }
}

// Prints the line of a refusal; where nothing is told, memory was wanting.
fn print_refused(rt: &HostRuntime, told: Option<Told>) -> Result<(), Stop> {
    rt.print(refused_line(rt.alloc(), told.ok_or(AllocError)?)?)?;
    Ok(())
}

// Reads a rack file; none, and it is said why, if it is refused.
fn rack_at(rt: &HostRuntime, path: &str) -> Result<Option<RackFile>, Stop> {
    let file = named(rt, path, fs::read(rt, path))?;
    match RackFile::read(rt.alloc(), &file) {
        Ok(rack) => Ok(Some(rack)),
        Err(fault) => {
            print_refused(rt, tell(fault))?;
            Ok(None)
        }
    }
}

fn build<S: ForwardingSource>(
    rt: &HostRuntime,
    rack: &Rack,
    source: &S,
    task: BuildTask<'_>,
) -> Result<(), Stop> {
    let built = build_text(rt.alloc(), rack, source, task.lane_count(), task.layout())?;
    rt.print(built.text.as_str())?;
    if let (Some(path), Some(bytes)) = (task.out, built.file) {
        named(rt, path, fs::write(rt, path, bytes))?;
    }
    Ok(())
}

fn check<S: ForwardingSource>(
    rt: &HostRuntime,
    rack: &Rack,
    source: &S,
    plan: PlanFile<'_>,
) -> Result<(), Stop> {
    let text = check_text(rt.alloc(), rack, source, plan)?;
    rt.print(text)?;
    Ok(())
}

// Answers the lines of standard input until one asks to close, or there are no more.
fn course<S: ForwardingSource>(
    rt: &HostRuntime,
    plan: &Plan<'_, S, StoredRows<'_>>,
    fabric: &Fabric,
    queues: &mut [Queue],
) -> Result<(), Stop> {
    let input = BufReader::new(rt.alloc(), rt.reader())?;
    for (number, line) in input.split(rt.alloc(), b'\n').enumerate() {
        let number = number.saturating_add(1);
        match answer(rt.alloc(), plan, fabric, queues, number, &line?)? {
            Some(text) => rt.print(text)?,
            None => break,
        }
    }
    Ok(())
}

fn dry<S: ForwardingSource>(
    rt: &HostRuntime,
    rack: &Rack,
    source: &S,
    file: PlanFile<'_>,
    depth: u8,
) -> Result<(), Stop> {
    let mut queues = vec![in rt.alloc(); Queue::empty(); virtual_channels(rack)]?;
    let fabric = match open_dry(rt.alloc(), rack, source, file, depth, &mut queues)? {
        Start::Open(fabric) => fabric,
        Start::Refused(text) => return Ok(rt.print(text)?),
    };
    let plan = Plan {
        rack,
        source,
        map: &StoredRows {
            rack,
            lanes: file.lanes,
        },
        levels: file.levels,
        lanes: file.lane_count,
    };
    course(rt, &plan, &fabric, &mut queues)?;
    rt.print(close(fabric, &plan, &queues))?;
    Ok(())
}

// Reads a plan file, and checks the plan, or tries it at a depth.
fn planned<S: ForwardingSource>(
    rt: &HostRuntime,
    rack: &Rack,
    source: &S,
    plan: &str,
    depth: Option<u8>,
) -> Result<(), Stop> {
    let bytes = named(rt, plan, fs::read(rt, plan))?;
    match (plan_in(rack, &bytes), depth) {
        (Ok(plan), None) => check(rt, rack, source, plan),
        (Ok(plan), Some(depth)) => dry(rt, rack, source, plan, depth),
        (Err(wrong), _) => Err(Stop::Said(format!(in rt.alloc(); "{plan}: {wrong}")?)),
    }
}

// Performs a task on its rack, where packets go by the source.
fn perform_by<S: ForwardingSource>(
    rt: &HostRuntime,
    rack: &Rack,
    source: &S,
    task: Task<'_>,
) -> Result<(), Stop> {
    match task {
        Task::Build(task) => build(rt, rack, source, task),
        Task::Check { plan, .. } => planned(rt, rack, source, plan, None),
        Task::Dry { plan, depth, .. } => planned(rt, rack, source, plan, Some(depth)),
    }
}

// Reads the rack file of a task, and performs the task by the source that it asks for; if there is none, it is said why.
fn perform(rt: &HostRuntime, task: Task<'_>) -> Result<(), Stop> {
    let (path, root) = match task {
        Task::Build(BuildTask { rack, root, .. })
        | Task::Check { rack, root, .. }
        | Task::Dry { rack, root, .. } => (rack, root),
    };
    let Some(file) = rack_at(rt, path)? else {
        return Ok(());
    };
    let rack = &file.rack;
    let Some(root) = root else {
        return perform_by(rt, rack, &file.source(), task);
    };
    match UpDown::new(rt.alloc(), rack, Node(root)) {
        Ok(source) => perform_by(rt, rack, &source, task),
        Err(fault) => print_refused(rt, told_root(fault)),
    }
}

fn run(rt: &HostRuntime) -> Result<(), Stop> {
    let words: Vec<String> = env::args(rt)?.collect(rt.alloc())?;
    let mut texts = Vec::new(rt.alloc());
    for word in words.iter().skip(1) {
        texts.push(word.as_str())?;
    }
    match Task::of_words(&texts) {
        Some(task) => perform(rt, task),
        None => Err(Stop::Said(String::from_str(rt.alloc(), USAGE)?)),
    }
}

fn main(rt: HostRuntime) -> io::Result<ExitCode> {
    match run(&rt) {
        Ok(()) => Ok(ExitCode::SUCCESS),
        Err(Stop::Said(text)) => {
            rt.eprintln(text.trim_end())?;
            Ok(ExitCode::FAILURE)
        }
        Err(Stop::Failed(error)) => Err(error),
    }
}
