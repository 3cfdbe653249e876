// The answers to the lines of a course of calls on a dry fabric.
ghost use Rattle.std.specs.Prelude.{◌≡◌, ◌≤◌, ◌++◌, length, sum_by, OnOk, IfOk, OnErr, string_bytes};
ghost use Rattle.fabric.specs.Calls.{setup_of};
ghost use Rattle.workbench.specs.Courses.{replies, queue_text, queues_text, waiting_text, Answers, AnswersLine, KeptOrCalled};

use crate::reply::{Reply, told_of};
use crate::request::Request;
use fabric::call::Done;
use fabric::fabric::Fabric;
use fabric::fault::FabricFault;
use fabric::queue::Queue;
use rack::rack::Rack;
use routing::map::LaneMap;
use routing::plan::Plan;
use routing::sizes::virtual_channels;
use routing::source::ForwardingSource;
use std::alloc::{AllocError, Global};

// The line that answers a call.
fn reply_to(answer: Result<Done, FabricFault>) -> Option<Reply>
    ensures { result ≡ replies answer }
{
    match answer {
        Ok(done) => Some(Reply::Done(done)),
        Err(fault) => Some(Reply::Refused(told_of(fault)?)),
    }
}

// How many packets wait in the queues.
// A loop and no sum: that a queue holds eight at most, so that the sum fits, is known of each where it is counted.
fn count_all(queues: &[Queue]) -> usize
    requires { length queues.now ≤ 4096 }
    ensures { result ≡ sum_by length queues.now }
{
    let mut count = 0;
    for queue in queues {
        count += queue.count();
    }
    count
}

// Prints a queue in which packets wait: its number and how many they are.
fn print_queue(out: &mut String, number: usize, count: usize) -> Result<(), AllocError>
    ensures { OnOk result (string_bytes out.new ≡ string_bytes out.old ++ queue_text number count) }
{
    if count == 0 {
        return Ok(());
    }
    write!(out, " {number}:{count}")
}

// Prints all queues in which packets wait.
fn print_queues(out: &mut String, queues: &[Queue]) -> Result<(), AllocError>
    ensures { OnOk result (string_bytes out.new ≡ string_bytes out.old ++ queues_text queues.now (length queues.now)) }
{
    for (number, queue) in queues.iter().enumerate() {
        print_queue(out, number, queue.count())?;
    }
    Ok(())
}

// How many packets wait on a rack, and in which queues how many.
fn waiting_line(heap: Global, rack: &Rack, queues: &[Queue]) -> Result<String, AllocError>
    ensures { IfOk result (λ s. string_bytes s ≡ waiting_text rack.now queues.now) }
{
    let queues = &queues[..virtual_channels(rack).min(queues.len())];
    let count = count_all(queues);
    let mut out = format!(in heap; "ok {count}")?;
    print_queues(&mut out, queues)?;
    writeln!(out)?;
    Ok(out)
}

// The answer to what a line asks for; none where it asks to close.
fn answer_to<S: ForwardingSource, M: LaneMap>(
    heap: Global,
    plan: &Plan<'_, S, M>,
    fabric: &Fabric,
    queues: &mut [Queue],
    number: usize,
    request: Option<Request>,
) -> Result<Option<String>, AllocError>
    ensures says { IfOk result (λ a. Answers (setup_of S.route M.lanes plan.now fabric.now.depth) queues.old number request a queues.new) }
    ensures wanting { OnErr result (KeptOrCalled (setup_of S.route M.lanes plan.now fabric.now.depth) queues.old queues.new) }
{
    match request {
        Some(Request::Close) => Ok(None),
        Some(Request::Waiting) => Ok(Some(waiting_line(heap, plan.rack, queues)?)),
        Some(Request::Call(call)) => {
            let reply = reply_to(fabric.act(plan, queues, call)).ok_or(AllocError)?;
            Ok(Some(reply.to_string(heap)?))
        }
        None => Ok(Some(Reply::Unknown { line: number }.to_string(heap)?)),
    }
}

// The answer to one line of a course, whose number is told where it asks for nothing; none where it asks to close.
// If there is no memory for the answer, the call may have been made, and else nothing changed.
pub fn answer<S: ForwardingSource, M: LaneMap>(
    heap: Global,
    plan: &Plan<'_, S, M>,
    fabric: &Fabric,
    queues: &mut [Queue],
    number: usize,
    line: &[u8],
) -> Result<Option<String>, AllocError>
    ensures says { IfOk result (λ a. AnswersLine (setup_of S.route M.lanes plan.now fabric.now.depth) queues.old number line.now a queues.new) }
    ensures wanting { OnErr result (KeptOrCalled (setup_of S.route M.lanes plan.now fabric.now.depth) queues.old queues.new) }
{
    let request = Request::of_bytes(heap, line)?;
    answer_to(heap, plan, fabric, queues, number, request)
}
