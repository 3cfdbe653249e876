// Reads a file into the tables.
ghost use Rattle.std.specs.Prelude.{◌≡◌, ℕ, ◌≤◌, false, take, drop, is_ok, IfOk, Err, slice_index};
ghost use Rattle.rack.specs.Network.{KeepsRules};
ghost use Rattle.reading.specs.Format.{decoded};
ghost use Rattle.reading.specs.Rules.{Described, Shown, Judged, Answers, Sized, CountsFit, Blank};

use crate::add::{Counts, add_cable, add_entry, add_node};
use crate::fault::{FileFault, Rule};
use crate::limits::{CABLES, FORWARDING, Limits, NODES};
use crate::record::{Record, decode};
use rack::cable::Cable;
use rack::ends::lonely_host;

// Adds the record that the bytes spell.
// The three tables are lent one by one: a struct of the three would ensure in each method that it still lends the same ones.
fn step(
    bytes: &[u8],
    limits: Limits,
    nodes: &mut [u8; NODES],
    cables: &mut [Cable; CABLES],
    forwarding: &mut [u16; FORWARDING],
    counts: Counts,
) -> Result<Counts, Rule>
    requires counts { CountsFit counts }
    requires beyond { (k : ℕ) → counts.nodes ≤ k → slice_index nodes.old k ≡ 0 }
    ensures { (net : Described) → Shown net counts nodes.old cables.old forwarding.old → Judged limits net (decoded bytes.now) result nodes.new cables.new forwarding.new }
{
    match decode(bytes) {
        None => Err(Rule::Form),
        Some(Record::Node(kind, number)) => add_node(limits, nodes, counts, kind, number),
        Some(Record::Joins(cable)) => add_cable(limits, nodes, cables, counts, cable),
        Some(Record::Forwards(entry)) => add_entry(nodes, cables, forwarding, counts, entry),
    }
}

// Reads the file into tables that are zero.
fn fill(
    file: &[u8],
    limits: Limits,
    nodes: &mut [u8; NODES],
    cables: &mut [Cable; CABLES],
    forwarding: &mut [u16; FORWARDING],
) -> Result<Counts, FileFault>
    requires blank { Blank nodes.old cables.old forwarding.old }
    ensures { Answers limits file.now result nodes.new cables.new forwarding.new }
{
    if file.len() % 8 != 0 {
        return Err(FileFault::Length);
    }
    let mut counts = Counts {
        nodes: 0,
        cables: 0,
        entries: 0,
    };
    for (record, bytes) in file.chunks_exact(8).enumerate() {
        // a match: with `map_err` and `?` the proof of the refused case did not close
        match step(bytes, limits, nodes, cables, forwarding, counts) {
            Ok(next) => counts = next,
            Err(rule) => return Err(FileFault::Record { record, rule }),
        }
    }
    match lonely_host(nodes, &cables[..counts.cables]) {
        Some(host) => Err(FileFault::Uncabled { host }),
        None => Ok(counts),
    }
}

fn wipe(nodes: &mut [u8; NODES], cables: &mut [Cable; CABLES], forwarding: &mut [u16; FORWARDING])
    ensures { Blank nodes.new cables.new forwarding.new }
{
    nodes.fill(0);
    cables.fill(Cable::none());
    forwarding.fill(0);
}

// Reads the file into tables of the lengths needed, and leaves them zero where it is refused.
fn fill_or_wipe(
    file: &[u8],
    limits: Limits,
    nodes: &mut [u8; NODES],
    cables: &mut [Cable; CABLES],
    forwarding: &mut [u16; FORWARDING],
) -> Result<Counts, FileFault>
    ensures answers { Answers limits file.now result nodes.new cables.new forwarding.new }
    ensures blank { is_ok result ≡ false → Blank nodes.new cables.new forwarding.new }
{
    wipe(nodes, cables, forwarding);
    let answer = fill(file, limits, nodes, cables, forwarding);
    if answer.is_err() {
        wipe(nodes, cables, forwarding);
    }
    answer
}

// The counts of nodes, cables and forwarding entries, and the tables; or the first fault, and the needed places of the tables zero.
// Tables too short are refused before anything is written, and places beyond those needed are never written.
// What is accepted keeps the rules of a rack.
pub fn read(
    file: &[u8],
    limits: Limits,
    nodes: &mut [u8],
    cables: &mut [Cable],
    forwarding: &mut [u16],
) -> Result<Counts, FileFault>
    ensures short { (Sized nodes.old cables.old forwarding.old → ⊥) → (result ≡ Err FileFault.Tables) × (nodes.new ≡ nodes.old) × (cables.new ≡ cables.old) × (forwarding.new ≡ forwarding.old) }
    ensures answers { Sized nodes.old cables.old forwarding.old → Answers limits file.now result (take 128 nodes.new) (take 256 cables.new) (take 16384 forwarding.new) }
    ensures blank { Sized nodes.old cables.old forwarding.old → is_ok result ≡ false → Blank (take 128 nodes.new) (take 256 cables.new) (take 16384 forwarding.new) }
    ensures beyond { (drop 128 nodes.new ≡ drop 128 nodes.old) × (drop 256 cables.new ≡ drop 256 cables.old) × (drop 16384 forwarding.new ≡ drop 16384 forwarding.old) }
    ensures rules { IfOk result (λ counts. KeepsRules (take counts.nodes nodes.new) (take counts.cables cables.new)) }
    ensures few { IfOk result (λ counts. (counts.nodes ≤ 128) × (counts.cables ≤ 256)) }
{
    let nodes = nodes.first_chunk_mut().ok_or(FileFault::Tables)?;
    let cables = cables.first_chunk_mut().ok_or(FileFault::Tables)?;
    let forwarding = forwarding.first_chunk_mut().ok_or(FileFault::Tables)?;
    fill_or_wipe(file, limits, nodes, cables, forwarding)
}
