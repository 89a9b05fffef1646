// Reading a net (01, Reading): node fields one after the other, the tree that they make, the whole net.
#![tactic(auto)]

ghost use Rattle.std.specs.Prelude.{◌≡◌, ◌+◌, ◌*◌, ◌≤◌, ◌<◌, length, replicate};
ghost use Rattle.laws.specs.Basic.{bit};
ghost use Rattle.rules.specs.Tree.{is_sink, is_buffer};
ghost use Rattle.rules.specs.Bytes.{max_layers, max_nodes, max_children};
ghost use Rattle.words.specs.Words.{Rows};
ghost use Rattle.reader.specs.Nodes.{whole_for, NodesRead, TreeRead};
ghost use Rattle.reader.specs.Net.{RestRead, NetRead};

use fields::{Due, field_at, layer_size};
use nodes::{Counts, read_node};
use rules::{Kind, Refusal};
use words::{put_count, put_driver, put_layers};

// 1 for a buffer, else 0.
// Kept: a count of buffers is a sum of these, as `bit` in the clauses.
pub fn buffer_bit(kind: Kind) -> usize
    ensures { result ≡ bit (is_buffer kind) }
{
    usize::from(matches!(kind, Kind::Buffer { .. }))
}

// Two places for a sink, which takes no child and needs none, else 0.
// Kept: as `buffer_bit`, for the places that a sink takes.
fn sink_places(kind: Kind) -> u16
    ensures { result ≡ max_children * bit (is_sink kind) }
{
    match kind {
        Kind::Sink { .. } => rules::MAX_CHILDREN,
        _ => 0,
    }
}

// The nodes from `first` to the end. Where the net is kept, row j becomes node j; kids[j] counts its children, plus two for a sink.
fn nodes_from(
    net: &[u8],
    first: usize,
    layers: usize,
    keep: bool,
    words: &mut [u32],
    kids: &mut [u16],
) -> Result<Counts, Refusal>
    requires { (layers ≤ max_layers) × (first ≤ length net.now) × Rows keep words.old × (kids.old ≡ replicate (max_nodes + 1) 0) }
    ensures { NodesRead net.now layers first keep result words.old words.new kids.new }
{
    let mut at = first;
    let mut so_far = Counts {
        count: 0,
        buffers: 0,
    };
    // Kept: no index is counted: each turn goes on by the length of the field that it read.
    while at < net.len() {
        let step = read_node(net, at, layers, so_far, kids, keep, words)?;
        kids[step.node.parent] += 1;
        so_far.count += 1;
        kids[so_far.count] += sink_places(step.node.kind);
        so_far.buffers += buffer_bit(step.node.kind);
        at = step.next;
    }
    Ok(so_far)
}

// Whether every node but a sink has a child (refusal 6).
fn all_have_children(kids: &[u16], count: usize) -> bool
    requires { (count ≤ max_nodes) × (length kids.now ≡ max_nodes + 1) }
    ensures { result ≡ whole_for count kids.now }
{
    kids[..=count].iter().all(|children| 1 <= *children)
}

// The nodes from `first` to the end, and the last test.
fn tree_from(
    net: &[u8],
    first: usize,
    layers: usize,
    keep: bool,
    words: &mut [u32],
) -> Result<Counts, Refusal>
    requires { (layers ≤ max_layers) × (first ≤ length net.now) × Rows keep words.old }
    ensures { TreeRead net.now layers first keep result words.old words.new }
{
    let mut kids = [0u16; rules::MAX_NODES + 1];
    let counts = nodes_from(net, first, layers, keep, words, &mut kids)?;
    if !all_have_children(&kids, counts.count) {
        return Err(Refusal::Childless);
    }
    Ok(counts)
}

// What reading a net gives: its nodes after the driver, stages and layers.
#[derive(Clone, Copy)]
pub struct NetCounts {
    pub nodes: usize,
    pub stages: usize,
    pub layers: usize,
}

// What follows the layers, from `at` on: the driver, then the nodes.
fn rest_from(
    net: &[u8],
    at: usize,
    layers: usize,
    keep: bool,
    words: &mut [u32],
) -> Result<NetCounts, Refusal>
    requires { (layers ≤ max_layers) × (at ≤ length net.now) × Rows keep words.old }
    ensures { RestRead net.now layers at keep result words.old words.new }
{
    let driver = field_at(net, at, Due::Driver, 0)?;
    if !put_driver(net, driver.start, layers, words) {
        return Err(Refusal::OutOfRange);
    }
    let counts = tree_from(net, driver.start + driver.size, layers, keep, words)?;
    put_count(words, counts.count);
    Ok(NetCounts {
        nodes: counts.count,
        stages: counts.buffers + 1,
        layers,
    })
}

// The net that the bytes hold, or the first fault: layers, driver, nodes. Where it is to be kept, the array becomes the net.
// Kept: `keep` says which row a node goes to; a closure would take the array with it.
pub fn read(net: &[u8], keep: bool, words: &mut [u32]) -> Result<NetCounts, Refusal>
    requires { Rows keep words.old }
    ensures { NetRead net.now keep result words.new }
{
    let field = field_at(net, 0, Due::Layers, 0)?;
    let each = layer_size(field.tag);
    // The first layer and those after it: in this form the compiler knows that there is one.
    let layers = 1 + (field.size - each) / each;
    if !put_layers(net, field.tag, field.start, layers, words) {
        return Err(Refusal::OutOfRange);
    }
    rest_from(net, field.start + field.size, layers, keep, words)
}
