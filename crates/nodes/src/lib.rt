// One node field (01, Reading): the field's own faults, then the tests 4, 3, 5 in their order; the node is put into its row of the array.
#![tactic(auto)]

ghost use Rattle.std.specs.Prelude.{◌≡◌, ◌+◌, ◌≤◌, ◌<◌, length};
ghost use Rattle.rules.specs.Bytes.{max_layers, max_nodes};
ghost use Rattle.words.specs.Words.{row_for, Rows};
ghost use Rattle.nodes.specs.Steps.{room_for, ranges_of, parent_for, StepRead};

use fields::{Due, field_at, kind_in_range};
use rules::Refusal;
use words::{Node, node_in, put_node};

// How many nodes were read, and how many of them are buffers.
#[derive(Clone, Copy)]
pub struct Counts {
    pub count: usize,
    pub buffers: usize,
}

// Whether there is room for one more node, of this tag (refusal 4).
// Kept: the tag is the number in the bytes (01, Net bytes) and in the word of its row; an enum would be made of it and turned back into it.
#[tactic(auto, unfolding(crate::specs::Steps::room_for))]
fn has_room(so_far: Counts, tag: u32) -> bool
    ensures { result ≡ room_for so_far.count so_far.buffers tag }
{
    so_far.count < rules::MAX_NODES && (tag != 4 || so_far.buffers < rules::MAX_STAGES - 1)
}

// Whether the numbers of a node are in their ranges, given whether its costs are (refusal 3).
#[tactic(auto, unfolding(crate::specs::Steps::ranges_of))]
fn in_ranges(node: Node, costs: bool) -> bool
    ensures { result ≡ ranges_of costs node }
{
    node.len <= rules::MAX_LENGTH && costs && kind_in_range(node.kind)
}

// Whether node `parent` may have one more child (refusal 5).
#[tactic(auto, unfolding(crate::specs::Steps::parent_for))]
fn may_have_child(kids: &[u16], count: usize, parent: usize) -> bool
    requires { (count ≤ max_nodes) × (length kids.now ≡ max_nodes + 1) }
    ensures { result ≡ parent_for count kids.now parent }
{
    parent <= count && kids[parent] < rules::MAX_CHILDREN
}

// What reading a node field gives: its record, and where the next field starts.
#[derive(Clone, Copy)]
pub struct Step {
    pub node: Node,
    pub next: usize,
}

// The row for the node after `count` nodes: its own where the net is kept, else always row 1.
fn row_for(keep: bool, count: usize) -> usize
    requires { count < max_nodes }
    ensures { result ≡ row_for keep count }
{
    if keep { count + 1 } else { 1 }
}

// The node field that is due at `at`, after the nodes that were read so far, into its row: the field's own faults, then 4, 3, 5.
// Kept: what is left differs from call to call: the bytes, the place, what was counted, and two arrays lent.
pub fn read_node(
    net: &[u8],
    at: usize,
    layers: usize,
    so_far: Counts,
    kids: &[u16],
    keep: bool,
    words: &mut [u32],
) -> Result<Step, Refusal>
    requires { (layers ≤ max_layers) × (at ≤ length net.now) × (length kids.now ≡ max_nodes + 1) × Rows keep words.old }
    ensures { StepRead net.now layers so_far.count so_far.buffers kids.now at keep result words.old words.new }
{
    let field = field_at(net, at, Due::Node, layers)?;
    if !has_room(so_far, field.tag) {
        return Err(Refusal::TooMany);
    }
    let row = row_for(keep, so_far.count);
    let costs = put_node(net, field.tag, field.start, layers, row, words);
    let node = node_in(words, row);
    if !in_ranges(node, costs) {
        return Err(Refusal::OutOfRange);
    }
    if !may_have_child(kids, so_far.count, node.parent) {
        return Err(Refusal::WrongParent);
    }
    Ok(Step {
        node,
        next: field.start + field.size,
    })
}
