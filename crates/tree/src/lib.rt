// The tree of a net that was read (01, The tree): what drives the wire below each node, and the stage of each edge.
#![tactic(auto)]

ghost use Rattle.std.specs.Prelude.{◌≡◌, ◌+◌, ◌≤◌, length, if◌then◌else◌};
ghost use Rattle.rules.specs.Bytes.{max_nodes};
ghost use Rattle.rules.specs.Tree.{is_buffer};
ghost use Rattle.words.specs.Net.{net_of};
ghost use Rattle.tree.specs.Gates.{gate_of};
ghost use Rattle.tree.specs.Staged.{Staged};

mod staged;

use reader::buffer_bit;
use rules::Kind;
pub use staged::{EdgeStages, StagedNet, WireStages};
use words::{Net, node_in};

// What drives the wire below a node: the gate of a root, or the wire above.
#[derive(Clone, Copy)]
pub enum Gate {
    Root { gate_res: u64, intrinsic: u64 },
    Wire,
}

// What drives the wire below node i. Row 0, the driver's, is read as a buffer.
pub fn gate_at(net: &Net<'_>, i: usize) -> Gate
    requires { i ≤ net.now.nodes }
    ensures { result ≡ gate_of (net_of net.now) i }
{
    match node_in(net.words, i).kind {
        Kind::Buffer {
            gate_res,
            intrinsic,
            ..
        } => Gate::Root {
            gate_res,
            intrinsic,
        },
        Kind::Steiner | Kind::Sink { .. } => Gate::Wire,
    }
}

// The stage that the wire below a node belongs to: a buffer begins one of its own, below another node goes on that of the edge above.
fn stage_below(kind: Kind, own: usize, above: usize) -> usize
    ensures { result ≡ (if is_buffer kind then own else above) }
{
    if matches!(kind, Kind::Buffer { .. }) {
        own
    } else {
        above
    }
}

// The stage of each edge, and of the wire below each node.
pub fn stages(net: &Net<'_>, stage: &mut [usize], below: &mut [usize])
    requires { (length stage.old ≡ max_nodes + 1) × (length below.old ≡ max_nodes + 1) }
    ensures { Staged (net_of net.now) stage.new below.new }
{
    below[0] = 0;
    let mut count: usize = 0;
    for j in 1..=net.nodes {
        let node = net.node(j);
        let above = below[node.parent];
        count += buffer_bit(node.kind);
        stage[j] = above;
        below[j] = stage_below(node.kind, count, above);
    }
}
