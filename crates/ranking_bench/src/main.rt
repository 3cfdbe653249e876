#![tactic(auto)]

// How the time of the ranking grows with the count of points, and tests of the ranking.
//
// The work grows with (points + dependencies) x (greatest rank + 1). From 512 to 4096 points that is eight times as much
// for the ring, about 27 times for the grid and 64 times for the chain.
#[cfg(test)]
mod edges;
mod shapes;
#[cfg(test)]
mod tests;

use ranking::{Graph, RankFault, rank};
use shapes::{Chain, Grid, Points, Ring};
use std::time::Instant;
use std::{env, io};

// The time of a ranking, and its answer.
#[derive(Clone, Copy)]
struct Timed {
    seconds: f64,
    answer: Result<u16, RankFault>,
}

fn one_run<G: Graph>(
    rt: &HostRuntime,
    graph: &G,
    ranks: &mut [u16],
    ring: &mut [u16],
) -> io::Result<Timed> {
    let start = Instant::now(rt)?;
    let answer = rank(graph, ranks, ring);
    let seconds = start.elapsed(rt)?.as_secs_f64();
    Ok(Timed { seconds, answer })
}

// The best time of twenty runs, and the last run's answer.
fn best_of<G: Graph>(rt: &HostRuntime, graph: &G) -> io::Result<Timed> {
    let mut ranks = [0; 4096];
    let mut ring = [0; 4096];
    let mut best = one_run(rt, graph, &mut ranks, &mut ring)?;
    for _ in 1..20 {
        let run = one_run(rt, graph, &mut ranks, &mut ring)?;
        best = Timed {
            seconds: best.seconds.min(run.seconds),
            answer: run.answer,
        };
    }
    Ok(best)
}

// One line: the times at 1024, 2048 and 4096 points of a shape over the time at 512.
fn growth<G: Graph + Copy, F: Fn(Points) -> G>(
    rt: &HostRuntime,
    name: &str,
    shape: F,
) -> io::Result<()>
    requires { F.IsAlwaysCallable shape }
{
    let one = best_of(rt, &shape(Points::of(512)))?.seconds;
    let two = best_of(rt, &shape(Points::of(1024)))?.seconds / one;
    let four = best_of(rt, &shape(Points::of(2048)))?.seconds / one;
    let last = best_of(rt, &shape(Points::of(4096)))?;
    let eight = last.seconds / one;
    match last.answer {
        Ok(top) => println!(rt; "{name} 1.0 {two:.1} {four:.1} {eight:.1} (greatest rank {top})"),
        Err(RankFault::Ring { length }) => println!(rt;
            "{name} 1.0 {two:.1} {four:.1} {eight:.1} (a ring of {length})"
        ),
        Err(RankFault::Tables) => println!(rt; "{name} (tables too short)"),
    }
}

fn main(rt: HostRuntime) -> io::Result<()> {
    if !env::args(&rt)?.skip(1).any(|word| word.as_str() == "time") {
        return println!(rt;
            "usage: ranking_bench time   (prints how the time of a ranking grows from 512 to 4096 points)"
        );
    }
    println!(rt; "time at 512, 1024, 2048 and 4096 points, over the time at 512")?;
    growth(&rt, "grid ", Grid)?;
    growth(&rt, "chain", Chain)?;
    growth(&rt, "ring ", Ring)
}
