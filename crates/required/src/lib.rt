// The required time of a plan (01, Timing rule). A stage's required time rests on its terminals, and a buffer's on the stage it drives. The terminals of each
// stage are linked once for each plan judged, so that a stage's loop meets its own terminals only.
#![tactic(auto)]

ghost use Rattle.std.specs.Prelude.{◌≡◌, true, List, ℕ, ◌+◌, ◌≤◌, ◌<◌, ◌^◌, length, replicate, pos, ◌-ℤ◌};
ghost use Rattle.std.specs.Int.{w64};
ghost use Rattle.std.proofs.Common.{SFits};
ghost use Rattle.rules.specs.Tree.{at, is_terminal, is_root, drives};
ghost use Rattle.rules.specs.Bytes.{max_nodes, max_stages};
ghost use Rattle.rules.specs.Timing.{required, terminal_time};
ghost use Rattle.words.specs.Net.{net_of};
ghost use Rattle.required.specs.Links.{no_terminal, TerminalsLinked};
ghost use Rattle.required.specs.Timed.{TimedBy};

use rules::Kind;
use tree::EdgeStages;
use words::Net;

// What a link has where no further terminal follows: no node has this number.
// Kept: no heap: the links are node numbers in arrays of fixed size, so that their end is a number too.
pub const NO_TERMINAL: usize = rules::MAX_NODES + 1;

// What the required times under a plan are read from: the stage below each node, the terminals of each stage as links, the delay to each node.
#[derive(Clone, Copy)]
pub struct Tables<'a> {
    pub below: &'a [usize],
    pub first: &'a [usize],
    pub next: &'a [usize],
    pub delay: &'a [u64],
}

// A time less a delay.
// Kept: a difference with a clause in whole numbers; `-` alone says so of the machine's integers.
fn less(time: i64, delay: u64) -> i64
    requires { (delay < 2 ^ 63) × SFits w64 (time -ℤ pos delay) }
    ensures { result ≡ time -ℤ pos delay }
{
    time - (delay as i64)
}

// Whether a node of this kind is a terminal.
fn is_terminal(kind: Kind) -> bool
    ensures { result ≡ is_terminal kind }
{
    !matches!(kind, Kind::Steiner)
}

// Links the terminals of each stage: `first` gets for each stage the first of its terminals, `next` for each terminal the next of the same stage. They are put
// in front of those that the stage has, from the last node on, so that the links go up in number.
pub fn link_terminals(edges: &EdgeStages<'_>, first: &mut [usize], next: &mut [usize])
    requires { (first.old ≡ replicate max_stages no_terminal) × (length next.old ≡ max_nodes + 1) }
    ensures { TerminalsLinked (net_of edges.now.net) first.new next.new }
{
    for j in (1..=edges.net.nodes).rev() {
        if is_terminal(edges.net.node(j).kind) {
            let t = edges.stage[j];
            next[j] = first[t];
            first[t] = j;
        }
    }
}

// The required time at root i: the least that the terminals of the stage it drives ask. They are found by the links, each once.
#[cycle(stage_required_terminal_required)]
#[tactic(auto, using(crate::proofs::Loop::few_nodes))]
pub fn stage_required(net: &Net<'_>, tables: &Tables<'_>, i: usize) -> i64
    requires { ((plan : List ℕ) × TimedBy (net_of net.now) tables.now plan) × (i ≤ net.now.nodes) ×
        (is_root (net_of net.now) i ≡ true) }
    ensures { (plan : List ℕ) → TimedBy (net_of net.now) tables.now plan
        → result ≡ required (net_of net.now) plan (drives (net_of net.now) i) }
{
    let mut least: i64 = rules::MAX_TIME;
    let mut j = tables.first[tables.below[i]];
    // Kept: the terminals are links by index, as no heap is used; the loop follows them and counts nothing.
    while j <= net.nodes {
        let kind = net.node(j).kind;
        let time = terminal_required(net, tables, kind, j);
        let asked = less(time, tables.delay[j]);
        least = least.min(asked);
        j = tables.next[j];
    }
    least
}

// The required time of terminal j, of this kind: a sink's is given, a buffer's is that of the stage it drives.
#[cycle(stage_required_terminal_required)]
pub fn terminal_required(net: &Net<'_>, tables: &Tables<'_>, kind: Kind, j: usize) -> i64
    requires { ((plan : List ℕ) × TimedBy (net_of net.now) tables.now plan) × (1 ≤ j) × (j ≤ net.now.nodes) ×
        (kind ≡ (at (net_of net.now) j).kind) }
    ensures { (plan : List ℕ) → TimedBy (net_of net.now) tables.now plan
        → result ≡ terminal_time (net_of net.now) (required (net_of net.now) plan) j }
{
    match kind {
        Kind::Steiner => 0,
        Kind::Buffer { .. } => stage_required(net, tables, j),
        Kind::Sink { required, .. } => required,
    }
}
