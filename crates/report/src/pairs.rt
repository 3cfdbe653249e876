// The lines of the pairs of a plan whose pairs are all fine.
ghost use Rattle.std.specs.Prelude.{◌≡◌, ◌≤◌, vec_capacity, string_bytes, MatchResult};
ghost use Rattle.rack.specs.Racks.{channel_count};
ghost use Rattle.routing.specs.Paths.{PairOf};
ghost use Rattle.checking.specs.Plans.{AllFine};
ghost use Rattle.routing.specs.Plans.{routing_of};
ghost use Rattle.report.specs.Lines.{Adds, LineOf, AllPrinted};

use crate::lines::Line;
use crate::refusal::Refusal;
use checking::fault::CheckFault;
use routing::map::LaneMap;
use routing::pair::Pair;
use routing::pairs::Pairs;
use routing::plan::{Plan, level_of};
use routing::source::ForwardingSource;
use routing::walk::{Step, walk};
use std::alloc::Global;

// Prints the pairs of a plan that are all fine. Each method says that the plan stays, since it may change all that it is lent.
#[derive(Drop)]
struct Printer<'a, 'b, S: ForwardingSource, M: LaneMap> {
    plan: &'a Plan<'b, S, M>,
    // where the paths are walked, with room for the longest
    path: Vec<Step>,
    // what is printed so far
    out: String,
    ghost fine: { ∥ AllFine (routing_of S.route M.lanes plan.now) plan.now.levels.now plan.now.lanes ∥₁ },
    ghost room: { channel_count plan.now.rack.now ≤ vec_capacity path },
}

impl<'a, 'b, S: ForwardingSource, M: LaneMap> Printer<'a, 'b, S, M> {
    // Prints the line of one pair: it has a level, and the walk along its path meets no fault.
    fn print_pair(&mut self, pair: Pair) -> Result<(), Refusal>
        requires { PairOf self.old.plan.now.rack.now pair.sender.0 pair.receiver.0 }
        ensures plan { self.new.plan ≡ self.old.plan }
        ensures line { MatchResult result (λ _. Adds (LineOf (routing_of S.route M.lanes self.old.plan.now) self.old.plan.now.levels.now pair.sender.0 pair.receiver.0) (string_bytes self.old.out) (string_bytes self.new.out)) (λ f. f ≡ Refusal.Memory) }
    {
        let level = level_of(self.plan.rack, self.plan.levels, pair).ok_or(CheckFault::Level {
            pair,
        })?;
        walk(self.plan, pair, level, &mut self.path)?;
        let line = Line::Pair {
            sender: pair.sender.0,
            receiver: pair.receiver.0,
            level: level.number(),
            channels: self.path.len(),
        };
        write!(self.out, "{line}")?;
        Ok(())
    }

    // Prints the lines of all pairs, by ascending sender and then receiver.
    fn print_all(&mut self) -> Result<(), Refusal>
        ensures plan { self.new.plan ≡ self.old.plan }
        ensures lines { MatchResult result (λ _. Adds (AllPrinted (routing_of S.route M.lanes self.old.plan.now) self.old.plan.now.levels.now) (string_bytes self.old.out) (string_bytes self.new.out)) (λ f. f ≡ Refusal.Memory) }
    {
        let plan = self.plan;
        for pair in Pairs::of(plan.rack) {
            self.print_pair(pair)?;
        }
        Ok(())
    }
}

// The lines of all pairs, behind what is printed already.
pub(crate) fn all_lines<S: ForwardingSource, M: LaneMap>(
    heap: Global,
    plan: &Plan<'_, S, M>,
    out: String,
) -> Result<String, Refusal>
    requires { AllFine (routing_of S.route M.lanes plan.now) plan.now.levels.now plan.now.lanes }
    ensures { MatchResult result (λ s. Adds (AllPrinted (routing_of S.route M.lanes plan.now) plan.now.levels.now) (string_bytes out) (string_bytes s)) (λ f. f ≡ Refusal.Memory) }
{
    let path = Vec::with_capacity(heap, plan.rack.channel_count())?;
    let mut printer = Printer { plan, path, out };
    printer.print_all()?;
    Ok(printer.out)
}
