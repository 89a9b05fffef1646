// The numbers of a net's tree of stages, laid out in the slices that the search reads (01, The tree and Timing rule; source 001, section 2): for each stage
// the stage that drives it, and on each layer the delay to it and the least limit that its sinks set. One pass over the nodes.
#![tactic(auto)]

ghost use Rattle.std.specs.Prelude.{◌≡◌, List, ℕ, ◌*◌, ◌≤◌, length, replicate, pos, ◌-ℤ◌};
ghost use Rattle.laws.specs.Basic.{min_z};
ghost use Rattle.rules.specs.Bytes.{max_layers, max_stages};
ghost use Rattle.facts.specs.Ranges.{TimeInRange};
ghost use Rattle.facts.specs.Fits.{half_range};
ghost use Rattle.words.specs.Net.{net_of};
ghost use Rattle.loads.specs.Tables.{NodeRow, RowMost};
ghost use Rattle.delays.specs.Delayed.{LayerDelays};
ghost use Rattle.costs.specs.Priced.{Priced};
ghost use Rattle.demands.specs.StageNumbers.{tree_of};
ghost use Rattle.slices.specs.Rows.{entry, RowOf, RowSet};
ghost use Rattle.slices.specs.Laid.{Laid, no_limit};
ghost use Rattle.stage_numbers.specs.LimitRows.{lowered};
ghost use Rattle.stage_numbers.specs.Noted.{NoteIn, Noted};

use rules::Kind;
use tree::StagedNet;

// The delays to the nodes: entry j * layers + l is that to node j on layer l.
#[derive(Clone, Copy)]
struct Delays<'a> {
    layers: usize,
    delay: &'a [u64],
}

// The delay to buffer j, on each layer, is the delay to the stage t that it drives.
fn copy_row(delays: &Delays<'_>, j: usize, t: usize, wire: &mut [u64])
    requires { (delays.now.layers ≤ max_layers) × NodeRow delays.now.layers delays.now.delay.now j × RowOf max_stages max_layers wire.old t }
    ensures { RowSet 0 max_layers wire.old wire.new t delays.now.layers (entry delays.now.layers delays.now.delay.now j) }
{
    let layers = delays.layers;
    let from = j * layers;
    let to = t * rules::MAX_LAYERS;
    wire[to..to + layers].copy_from_slice(&delays.delay[from..from + layers]);
}

// A limit lowered to what a sink asks, its required time minus the delay to it, if that is less.
fn lowered_limit(limit: i64, required: i64, delay: u64) -> i64
    requires { TimeInRange required × (delay ≤ half_range) }
    ensures { result ≡ min_z limit (required -ℤ pos delay) }
{
    let asked = required - (delay as i64);
    limit.min(asked)
}

// Sink j sets its stage t a limit on each layer.
fn lower_limits(delays: &Delays<'_>, j: usize, required: i64, t: usize, limit: &mut [i64])
    requires { (delays.now.layers ≤ max_layers) × RowMost delays.now.layers delays.now.delay.now j half_range × RowOf max_stages max_layers limit.old t ×
        TimeInRange required }
    ensures { RowSet (pos 0) max_layers limit.old limit.new t delays.now.layers
        (lowered delays.now.layers limit.old delays.now.delay.now j required t) }
{
    for l in 0..delays.layers {
        let at = t * rules::MAX_LAYERS + l;
        let old = limit[at];
        let delay = delays.delay[j * delays.layers + l];
        limit[at] = lowered_limit(old, required, delay);
    }
}

// What node j gives: a buffer the driver of the stage below it and the delay to that stage, a sink a limit for the stage above.
// Kept: three arrays are lent to be written; a struct of them was not tried.
fn note_node(
    kind: Kind,
    delays: &Delays<'_>,
    j: usize,
    above: usize,
    own: usize,
    driver: &mut [usize],
    wire: &mut [u64],
    limit: &mut [i64],
)
    requires { NoteIn kind delays.now.layers delays.now.delay.now j above own driver.old wire.old limit.old }
    ensures { Noted kind delays.now.layers delays.now.delay.now j above own driver.old wire.old limit.old driver.new wire.new limit.new }
{
    match kind {
        Kind::Steiner => {}
        Kind::Buffer { .. } => {
            driver[own] = above;
            copy_row(delays, j, own, wire);
        }
        Kind::Sink { required, .. } => lower_limits(delays, j, required, above, limit),
    }
}

// The numbers of all stages: after the pass `driver`, `wire` and `limit` hold, with the costs, the tree of stages of the net.
// Kept: three arrays are lent to be written; a struct of them was not tried.
pub fn stage_numbers(
    staged: &StagedNet<'_>,
    delay: &[u64],
    driver: &mut [usize],
    wire: &mut [u64],
    limit: &mut [i64],
)
    requires { LayerDelays (net_of staged.now.net) staged.now.net.layers delay.now ×
        (length driver.old ≡ max_stages) × (length wire.old ≡ max_stages * max_layers) × (limit.old ≡ replicate (max_stages * max_layers) no_limit) }
    ensures { (cost : List ℕ) → Priced (net_of staged.now.net) cost
        → Laid (tree_of (net_of staged.now.net)) driver.new wire.new limit.new cost }
{
    let delays = Delays {
        layers: staged.net.layers,
        delay,
    };
    for j in 1..=staged.net.nodes {
        let kind = staged.net.node(j).kind;
        note_node(
            kind,
            &delays,
            j,
            staged.stage[j],
            staged.below[j],
            driver,
            wire,
            limit,
        );
    }
}
