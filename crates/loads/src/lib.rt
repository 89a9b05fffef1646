// The load at each node (01, Timing rule; source 001, section 2), in time linear in nodes × columns. A table has a row of columns for each node. Column c of a
// stage stands for the layer that is c after `first` of the stage: judging has one column, the plan's layer, and planning one for each layer. Loads are kept in
// 32 bits, which they always fit. The walk that sums them also counts the edges of each stage (02, wish 4).
#![tactic(auto)]

ghost use Rattle.std.specs.Prelude.{◌≡◌, map, ℕ, ◌+◌, ◌≤◌, ◌<◌, length, get_or};
ghost use Rattle.laws.specs.Basic.{from, sum};
ghost use Rattle.rules.specs.Tree.{stages, edges_of};
ghost use Rattle.facts.specs.Loads.{max_load};
ghost use Rattle.words.specs.Net.{net_of};
ghost use Rattle.slices.specs.Rows.{entry, RowSet};
ghost use Rattle.loads.specs.Tables.{RowMost};
ghost use Rattle.loads.specs.Columns.{Columns};
ghost use Rattle.loads.specs.Edges.{EdgeIn, lower_of, added_on};
ghost use Rattle.loads.specs.Loaded.{Loaded, Unloaded};

use rules::Kind;
use tree::WireStages;
use words::{Net, Node};

// The rows of a table by node: the driver's and one for each node.
pub const NODE_ROWS: usize = rules::MAX_NODES + 1;

// The load at the lower end of an edge to a node of this kind: what is below a Steiner point, a terminal's input capacitance.
// Kept: no twin of `delays::paid_cap`, which calls it.
pub fn lower_load(kind: Kind, below: u64) -> u64
    ensures { result ≡ lower_of kind below }
{
    match kind {
        Kind::Steiner => below,
        Kind::Buffer { input_cap, .. } | Kind::Sink { input_cap, .. } => input_cap,
    }
}

// The edge to node j adds its wire and the load at its lower end to the load at its parent, in each column; column 0 stands for `layer`.
fn add_loads(net: &Net<'_>, columns: usize, node: Node, layer: usize, j: usize, load: &mut [u32])
    requires { (layer + columns ≤ net.now.layers) × EdgeIn (net_of net.now) columns load.old node.len node.kind layer j ×
        RowMost columns load.old node.parent max_load × (node.parent < j) }
    ensures { RowSet 0 columns load.old load.new node.parent columns
        (λ c. entry columns load.old node.parent c + added_on (net_of net.now) columns load.old node.len node.kind layer j c) }
{
    for c in 0..columns {
        let cap = node.len * net.unit_cap(layer + c);
        let lower = lower_load(node.kind, u64::from(load[j * columns + c]));
        let sum = u64::from(load[node.parent * columns + c]) + cap + lower;
        load[node.parent * columns + c] = sum as u32;
    }
}

// The load at each node in each column, and the number of edges of each stage, by one walk from the last node to the first: each edge adds to the load at its
// upper end and is counted to the stage of the wire below that end. No list of a stage's edges is made.
pub fn loads(
    wires: &WireStages<'_>,
    first: &[u8],
    columns: usize,
    load: &mut [u32],
) -> [usize; rules::MAX_STAGES]
    requires { Columns (net_of wires.now.net) first.now columns × Unloaded columns load.old }
    ensures { Loaded (net_of wires.now.net) first.now columns load.new ×
        ((t : ℕ) → get_or result t 0 ≡ length (edges_of (net_of wires.now.net) t)) ×
        (sum (map (λ t. get_or result t 0) (from 0 (stages (net_of wires.now.net)))) ≡ wires.now.net.nodes) }
{
    let mut edges = [0usize; rules::MAX_STAGES];
    for j in (1..=wires.net.nodes).rev() {
        let node = wires.net.node(j);
        let stage = wires.below[node.parent];
        let layer = usize::from(first[stage]);
        add_loads(&wires.net, columns, node, layer, j, load);
        edges[stage] += 1;
    }
    edges
}
