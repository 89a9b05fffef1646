// The delay from the gate input of its stage to each node (01, Timing rule; source 001, section 2), by the loads (`loads::loads`) and in tables of the same
// rows and columns: judging has one column, the plan's layer, and planning one for each layer.
#![tactic(auto)]

ghost use Rattle.std.specs.Prelude.{◌≡◌, false, ◌+◌, ◌*◌, ◌≤◌, ◌<◌, length, get_or, if◌then◌else◌};
ghost use Rattle.rules.specs.Bytes.{max_via_res, max_gate_res, max_intrinsic, max_layers, max_nodes};
ghost use Rattle.rules.specs.Tree.{stages};
ghost use Rattle.facts.specs.Layers.{NoVias};
ghost use Rattle.facts.specs.Ranges.{max_edge_res, max_edge_cap};
ghost use Rattle.facts.specs.Loads.{max_load};
ghost use Rattle.facts.specs.Fits.{half_range};
ghost use Rattle.words.specs.Net.{net_of};
ghost use Rattle.tree.specs.Plans.{Fitting};
ghost use Rattle.tree.specs.declared.Gate.TheVariants.{Wire};
ghost use Rattle.slices.specs.Rows.{RowSet};
ghost use Rattle.loads.specs.Tables.{NodeRow, RowMost};
ghost use Rattle.loads.specs.Columns.{Columns};
ghost use Rattle.loads.specs.Edges.{EdgeIn, lower_of};
ghost use Rattle.loads.specs.Loaded.{Loaded};
ghost use Rattle.delays.specs.Delayed.{Delayed, PlanDelays, LayerDelays, GateIn, ViaIn, start_of, delay_on, via_added};

use loads::{NODE_ROWS, loads, lower_load};
use rules::Kind;
use tree::{Gate, WireStages, gate_at};
use words::{Net, Node};

// Gate delay: 2 × gate resistance × load at the root, plus intrinsic delay, and 2 × via resistance × load for the via there.
fn gate_delay(res: u64, via: u64, load: u64, intrinsic: u64) -> u64
    requires { (res ≤ max_gate_res) × (via ≤ max_via_res) × (load ≤ max_load) × (intrinsic ≤ max_intrinsic) }
    ensures { result ≡ 2 * res * load + intrinsic + 2 * via * load }
{
    2 * (res + via) * load + intrinsic
}

// The delay to the upper end of an edge: that of the gate at a root, with the via and the load there, or the delay to a node within the wire.
fn start_of(gate: Gate, via: u64, load: u64, delay: u64) -> u64
    requires { GateIn gate × (via ≤ max_via_res) × (load ≤ max_load) }
    ensures { result ≡ start_of gate via load delay }
{
    match gate {
        Gate::Root {
            gate_res,
            intrinsic,
        } => gate_delay(gate_res, via, load, intrinsic),
        Gate::Wire => delay,
    }
}

// Edge delay: R × (C + 2 × load at the lower end).
fn edge_delay(res: u64, cap: u64, lower: u64) -> u64
    requires { (res ≤ max_edge_res) × (cap ≤ max_edge_cap) × (lower ≤ max_load) }
    ensures { result ≡ res * (cap + 2 * lower) }
{
    res * (cap + 2 * lower)
}

// An edge as a turn has it in hand: the node at its lower end and that node's number, what drives the wire at its upper end, and the layer that column 0 stands
// for.
#[derive(Clone, Copy)]
struct Edge {
    node: Node,
    j: usize,
    gate: Gate,
    layer: usize,
}

// The delay to the node at the end of an edge in each column, but for the via at it.
fn set_delays(net: &Net<'_>, columns: usize, edge: Edge, load: &[u32], delay: &mut [u64])
    requires { (edge.layer + columns ≤ net.now.layers) × GateIn edge.gate × RowMost columns load.now edge.node.parent max_load ×
        (edge.gate ≡ Wire → RowMost columns delay.old edge.node.parent half_range) × (edge.node.parent < edge.j) ×
        NodeRow columns delay.old edge.j × EdgeIn (net_of net.now) columns load.now edge.node.len edge.node.kind edge.layer edge.j }
    ensures { RowSet 0 columns delay.old delay.new edge.j columns
        (delay_on (net_of net.now) columns load.now delay.old edge.gate edge.node.len edge.node.kind edge.layer edge.node.parent edge.j) }
{
    let parent = edge.node.parent;
    for c in 0..columns {
        let layer = edge.layer + c;
        let start = start_of(
            edge.gate,
            net.via_res(layer),
            u64::from(load[parent * columns + c]),
            delay[parent * columns + c],
        );
        let res = edge.node.len * net.unit_res(layer);
        let cap = edge.node.len * net.unit_cap(layer);
        let lower = lower_load(edge.node.kind, u64::from(load[edge.j * columns + c]));
        delay[edge.j * columns + c] = start + edge_delay(res, cap, lower);
    }
}

// Whether some layer has a via. A file of tag 1 has none, and then nothing is paid at any terminal.
fn has_vias(net: &Net<'_>) -> bool
    ensures { result ≡ false → NoVias (net_of net.now) }
{
    (0..net.layers).any(|l| 0 < net.via_res(l))
}

// The input capacitance that a via is paid for at a node of this kind, given whether there are vias: none at a Steiner point.
// Kept: no twin of `loads::lower_load`, which it calls.
fn paid_cap(kind: Kind, vias: bool) -> u64
    ensures { result ≡ (if vias then lower_of kind 0 else 0) }
{
    if vias { lower_load(kind, 0) } else { 0 }
}

// The via at terminal j, whose pin has this input capacitance: it is paid on the way to j alone, by the layer of the stage that ends there, which is that of
// the wire below its parent; column 0 stands for `layer`.
fn add_vias(net: &Net<'_>, columns: usize, layer: usize, pin: u64, j: usize, delay: &mut [u64])
    requires { ViaIn (net_of net.now) columns delay.old pin layer j }
    ensures { RowSet 0 columns delay.old delay.new j columns (via_added (net_of net.now) columns delay.old layer pin j) }
{
    for c in 0..columns {
        delay[j * columns + c] += 2 * net.via_res(layer + c) * pin;
    }
}

// The first layer of the stage that the wire below node i is of: column 0 of that stage stands for it.
fn first_layer(wires: &WireStages<'_>, first: &[u8], i: usize) -> usize
    requires { (stages (net_of wires.now.net) ≤ length first.now) × (i ≤ wires.now.net.nodes) }
    ensures { result ≡ get_or first.now (get_or wires.now.below.now i 0) 0 }
{
    usize::from(first[wires.below[i]])
}

// The delay from the gate input of its stage to each node in each column, from the first node to the last.
fn delays(wires: &WireStages<'_>, first: &[u8], columns: usize, load: &[u32], delay: &mut [u64])
    requires { Columns (net_of wires.now.net) first.now columns × Loaded (net_of wires.now.net) first.now columns load.now ×
        ((max_nodes + 1) * columns ≤ length delay.old) }
    ensures { Delayed (net_of wires.now.net) first.now columns delay.new }
{
    let vias = has_vias(&wires.net);
    for j in 1..=wires.net.nodes {
        let node = wires.net.node(j);
        let gate = gate_at(&wires.net, node.parent);
        let layer = first_layer(wires, first, node.parent);
        let edge = Edge {
            node,
            j,
            gate,
            layer,
        };
        set_delays(&wires.net, columns, edge, load, delay);
        let pin = paid_cap(node.kind, vias);
        if 0 < pin {
            add_vias(&wires.net, columns, layer, pin, j, delay);
        }
    }
}

// The delay to each node under a plan: entry j becomes that of node j.
pub fn plan_delays(wires: &WireStages<'_>, plan: &[u8], delay: &mut [u64])
    requires { Fitting (net_of wires.now.net) plan.now × (length delay.old ≡ max_nodes + 1) }
    ensures { PlanDelays (net_of wires.now.net) plan.now delay.new }
{
    let mut load = [0u32; NODE_ROWS];
    loads(wires, plan, 1, &mut load);
    delays(wires, plan, 1, &load, delay);
}

// The delay to each node on each layer: entry j * layers + l becomes that of node j on layer l.
pub fn layer_delays(wires: &WireStages<'_>, delay: &mut [u64])
    requires { length delay.old ≡ (max_nodes + 1) * max_layers }
    ensures { LayerDelays (net_of wires.now.net) wires.now.net.layers delay.new }
{
    let first = [0u8; rules::MAX_STAGES];
    let mut load = [0u32; NODE_ROWS * rules::MAX_LAYERS];
    loads(wires, &first, wires.net.layers, &mut load);
    delays(wires, &first, wires.net.layers, &load, delay);
}
