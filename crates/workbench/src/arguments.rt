// What the words behind the program's name ask for.
ghost use Rattle.std.specs.Prelude.{◌≡◌, ℕ, MatchOption, Option as Maybe};
ghost use Rattle.workbench.specs.Words.{Writes};
ghost use Rattle.workbench.specs.Commands.{NamesRoot};

use crate::layout::Layout;
use crate::words::short;

// What `laneplan` is to do. Over a root, if one is named, packets go up and then down, else by the rack file's forwarding.
#[derive(Clone, Copy, PartialEq, Eq, Debug)]
pub enum Task<'a> {
    Build(BuildTask<'a>),
    Check {
        rack: &'a str,
        plan: &'a str,
        root: Option<u16>,
    },
    Dry {
        rack: &'a str,
        plan: &'a str,
        depth: u8,
        root: Option<u16>,
    },
}

// A plan to be built for a rack file, with what the options tell, and where its plan file goes.
#[derive(Clone, Copy, PartialEq, Eq, Debug)]
pub struct BuildTask<'a> {
    pub rack: &'a str,
    pub lanes: Option<u8>,
    pub two_hop: bool,
    pub root: Option<u16>,
    pub out: Option<&'a str>,
}

// How `laneplan` is called.
pub const USAGE: &str =
    "usage: laneplan build RACK [--lanes L] [--two-hop] [--root SWITCH] [--out PLAN]
       laneplan check RACK PLAN [--root SWITCH]
       laneplan dry RACK PLAN [--depth D] [--root SWITCH]
";

// The number below 256 that a word writes.
fn small(word: &str) -> Option<u8>
    ensures { MatchOption result ((n : ℕ) → Writes 8 word.now n → ⊥) (Writes 8 word.now) }
{
    word.parse().ok()
}

// The root that the words name, `Some(None)` where there are no words; none if they are anything but `--root` and a number below 65,536.
fn root_in(words: &[&str]) -> Option<Option<u16>>
    ensures { MatchOption result ((root : Maybe ℕ) → NamesRoot words.now root → ⊥) (NamesRoot words.now) }
{
    match words {
        [] => Some(None),
        ["--root", root] => Some(Some(short(root)?)),
        _ => None,
    }
}

impl<'a> BuildTask<'a> {
    ghost use Rattle.workbench.specs.declared.arguments.BuildTask.{BuildTask as Building};
    ghost use Rattle.workbench.specs.Commands.{plainly, layout_of, lanes_of, Options};

    // Without options.
    fn of(rack: &'a str) -> BuildTask<'a>
        ensures { result ≡ plainly rack.entry }
    {
        BuildTask {
            rack,
            lanes: None,
            two_hop: false,
            root: None,
            out: None,
        }
    }

    // How the tables are laid out.
    pub fn layout(self) -> Layout
        ensures { result ≡ layout_of self.entry }
    {
        match (self.two_hop, self.root) {
            (true, _) => Layout::TwoHop,
            (false, Some(_)) => Layout::OneLane,
            (false, None) => Layout::Method,
        }
    }

    // How many lanes the plan has: if they are not told, one where one is all that is used, else eight.
    pub fn lane_count(self) -> u8
        ensures { result ≡ lanes_of self.entry }
    {
        match (self.lanes, self.layout()) {
            (Some(lanes), _) => lanes,
            (None, Layout::OneLane) => 1,
            (None, Layout::TwoHop | Layout::Method) => 8,
        }
    }

    // With the options that the words name, the last of each; none if they name anything else.
    fn with(self, words: &[&'a str]) -> Option<BuildTask<'a>>
        ensures { MatchOption result ((t : Building) → Options self.entry words.now t → ⊥) (Options self.entry words.now) }
    {
        let Some((option, rest)) = words.split_first() else {
            return Some(self);
        };
        if *option == "--two-hop" {
            return BuildTask {
                two_hop: true,
                ..self
            }
            .with(rest);
        }
        let (word, rest) = rest.split_first()?;
        match *option {
            "--lanes" => BuildTask {
                lanes: Some(small(word)?),
                ..self
            }
            .with(rest),
            "--root" => BuildTask {
                root: Some(short(word)?),
                ..self
            }
            .with(rest),
            "--out" => BuildTask {
                out: Some(*word),
                ..self
            }
            .with(rest),
            _ => None,
        }
    }
}

impl<'a> Task<'a> {
    ghost use Rattle.workbench.specs.declared.arguments.Task.{Task as Tasks};
    ghost use Rattle.workbench.specs.Commands.{Names};

    // The task that the words name; none if they name none.
    pub fn of_words(words: &[&'a str]) -> Option<Task<'a>>
        ensures { MatchOption result ((t : Tasks) → Names words.now t → ⊥) (Names words.now) }
    {
        match words {
            ["build", rack, options @ ..] => {
                Some(Task::Build(BuildTask::of(rack).with(options)?))
            }
            ["check", rack, plan, rest @ ..] => Some(Task::Check {
                rack: *rack,
                plan: *plan,
                root: root_in(rest)?,
            }),
            ["dry", rack, plan, "--depth", depth, rest @ ..] => Some(Task::Dry {
                rack: *rack,
                plan: *plan,
                depth: small(depth)?,
                root: root_in(rest)?,
            }),
            ["dry", rack, plan, rest @ ..] => Some(Task::Dry {
                rack: *rack,
                plan: *plan,
                depth: 1,
                root: root_in(rest)?,
            }),
            _ => None,
        }
    }
}
