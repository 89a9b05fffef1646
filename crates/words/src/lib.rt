// A net in one array of 32-bit words (its layout: specs/Words.antt): how the parts of the bytes are put into it, and how its numbers are looked up. No other
// crate names a place in the array.
#![tactic(auto)]

ghost use Rattle.std.specs.Prelude.{◌≡◌, ℕ, ◌+◌, ◌*◌, ◌≤◌, ◌<◌, eqb, length, set, if◌then◌else◌};
ghost use Rattle.laws.specs.Basic.{within};
ghost use Rattle.rules.specs.Tree.{layer_count, at};
ghost use Rattle.rules.specs.Bytes.{max_cost, max_unit, max_layers, max_nodes, via_layers_tag, number, layer_size, kind_size};
ghost use Rattle.rules.specs.Timing.{layer, edge_cost};
ghost use Rattle.words.specs.Words.{rows_at, count_at, node_row, kind_of, record_in, net_in};
ghost use Rattle.words.specs.Held.{Held, record_of};
ghost use Rattle.words.specs.Puts.{Three, RecordPut, CostsPut, NodePut, LayerPut, LayersPut, DriverPut};

use fields::{kind_in_range, layer_size, number, time_in_range, time_of};
use rules::Kind;

mod net;

pub use net::Net;

// Where the unit capacitances of the layers begin.
const CAPS_AT: usize = rules::MAX_LAYERS;

// Where the via resistances of the layers begin.
const VIAS_AT: usize = CAPS_AT + rules::MAX_LAYERS;

// Where the rows begin.
const ROWS_AT: usize = VIAS_AT + rules::MAX_LAYERS;

// Where the count of nodes after the driver stands: in row 0, after its tag.
const COUNT_AT: usize = ROWS_AT + 1;

// Where the count of layers stands: after it.
const LAYERS_AT: usize = COUNT_AT + 1;

// Where the costs begin in a row.
const COSTS_AT: usize = 6;

// How many words a row has.
const WIDTH: usize = COSTS_AT + rules::MAX_LAYERS;

// How many words hold a net: the layers, and rows for the driver and 255 nodes.
pub const WORDS: usize = ROWS_AT + (rules::MAX_NODES + 1) * WIDTH;

// How many words are enough to read a net without keeping it: the layers, the driver's row and one more.
pub const CHECK_WORDS: usize = ROWS_AT + 2 * WIDTH;

// A node record: its parent, the length of the edge to it, its kind. Its costs stay in the array.
#[derive(Clone, Copy)]
pub struct Node {
    pub parent: usize,
    pub len: u64,
    pub kind: Kind,
}

// The kind of a tag with these three words.
// Kept: the tag is the number in the bytes (01, Net bytes) and in the word of its row; an enum would be made of it and turned back into it.
fn kind_of(tag: u32, a: u32, b: u32, c: u32) -> Kind
    ensures { result ≡ kind_of tag a b c }
{
    let input_cap = u64::from(a);
    match tag {
        3 => Kind::Steiner,
        4 => Kind::Buffer {
            input_cap,
            gate_res: u64::from(b),
            intrinsic: u64::from(c),
        },
        _ => Kind::Sink {
            input_cap,
            required: time_of(b, c),
        },
    }
}

// The record in row j.
pub fn node_in(words: &[u32], j: usize) -> Node
    requires { node_row (j + 1) ≤ length words.now }
    ensures { result ≡ record_in words.now j }
{
    let at = ROWS_AT + j * WIDTH;
    let kind = kind_of(words[at], words[at + 3], words[at + 4], words[at + 5]);
    let parent = words[at + 1] as usize;
    let len = u64::from(words[at + 2]);
    Node { parent, len, kind }
}

// Three words from place i on. Written one by one: copied from an array, they went to the stack and were loaded again from there, at each node that is read.
fn put_three(words: &mut [u32], i: usize, a: u32, b: u32, c: u32)
    requires { i + 3 ≤ length words.old }
    ensures { Three words.old words.new i a b c }
{
    let three = &mut words[i..i + 3];
    three[0] = a;
    three[1] = b;
    three[2] = c;
}

// All of the node of this tag whose payload starts at `start` but its costs, into row j.
// Kept: the tag is the number in the bytes (01, Net bytes) and in the word of its row; an enum would be made of it and turned back into it.
fn put_record(net: &[u8], tag: u32, start: usize, layers: usize, j: usize, words: &mut [u32])
    requires { (layers ≤ max_layers) × (start + 4 + 4 * layers + kind_size tag ≤ length net.now) × (node_row (j + 1) ≤ length words.old) }
    ensures { RecordPut net.now layers tag start words.old words.new j }
{
    let at = ROWS_AT + j * WIDTH;
    let parent = number(net, start, 2);
    let len = number(net, start + 2, 2);
    put_three(words, at, tag, parent, len);
    if tag != 3 {
        let own = start + 4 + 4 * layers;
        let a = number(net, own, 4);
        let b = number(net, own + 4, 4);
        let c = number(net, own + 8, 4);
        put_three(words, at + 3, a, b, c);
    }
}

// Whether a cost is in its range.
fn cost_in_range(cost: u32) -> bool
    ensures { result ≡ within 1 max_cost cost }
{
    (1..=rules::MAX_COST).contains(&u64::from(cost))
}

// The costs from `at` on, one for each layer, into row j, and whether they are in their range; the first that is not ends the work.
fn put_costs(net: &[u8], at: usize, layers: usize, j: usize, words: &mut [u32]) -> bool
    requires { (layers ≤ max_layers) × (at + 4 * layers ≤ length net.now) × (node_row (j + 1) ≤ length words.old) }
    ensures { CostsPut net.now layers at words.old words.new j result }
{
    for l in 0..layers {
        let cost = number(net, at + 4 * l, 4);
        words[ROWS_AT + j * WIDTH + COSTS_AT + l] = cost;
        if !cost_in_range(cost) {
            return false;
        }
    }
    true
}

// The node of this tag whose payload starts at `start`, into row j, and whether its costs are in their range.
// Kept: the tag is the number in the bytes (01, Net bytes) and in the word of its row; an enum would be made of it and turned back into it.
pub fn put_node(
    net: &[u8],
    tag: u32,
    start: usize,
    layers: usize,
    j: usize,
    words: &mut [u32],
) -> bool
    requires { (layers ≤ max_layers) × (start + 4 + 4 * layers + kind_size tag ≤ length net.now) × (node_row (j + 1) ≤ length words.old) }
    ensures { NodePut net.now layers tag start words.old words.new j result }
{
    put_record(net, tag, start, layers, j, words);
    put_costs(net, start + 4, layers, j, words)
}

// The via resistance at `at` in a layers field of this tag: two bytes under tag 7; tag 1 has none, and it is 0.
// Kept: the tag is the number in the bytes (01, Net bytes) and in the word of its row; an enum would be made of it and turned back into it.
fn via_at(net: &[u8], tag: u32, at: usize) -> u32
    requires { at + layer_size tag ≤ length net.now + 4 }
    ensures { result ≡ (if eqb tag via_layers_tag then number net.now at 2 else 0) }
{
    if tag == 7 { number(net, at, 2) } else { 0 }
}

// Whether a unit resistance or capacitance is in its range.
fn unit_in_range(unit: u32) -> bool
    ensures { result ≡ within 1 max_unit unit }
{
    (1..=rules::MAX_UNIT).contains(&u64::from(unit))
}

// The layer that stands at `at` in a layers field of this tag, as layer l, and whether its numbers are in their ranges.
// Kept: the tag is the number in the bytes (01, Net bytes) and in the word of its row; an enum would be made of it and turned back into it.
fn put_layer(net: &[u8], tag: u32, at: usize, l: usize, words: &mut [u32]) -> bool
    requires { (l < max_layers) × (at + layer_size tag ≤ length net.now) × (rows_at ≤ length words.old) }
    ensures { LayerPut net.now tag at words.old words.new l result }
{
    let unit_res = number(net, at, 2);
    let unit_cap = number(net, at + 2, 2);
    let via_res = via_at(net, tag, at + 4);
    words[l] = unit_res;
    words[CAPS_AT + l] = unit_cap;
    words[VIAS_AT + l] = via_res;
    unit_in_range(unit_res) && unit_in_range(unit_cap) && u64::from(via_res) <= rules::MAX_VIA_RES
}

// The layers from `at` on, in a layers field of this tag, and whether their numbers are in their ranges; the first that is not ends the work.
// Kept: the tag is the number in the bytes (01, Net bytes) and in the word of its row; an enum would be made of it and turned back into it.
pub fn put_layers(net: &[u8], tag: u32, at: usize, layers: usize, words: &mut [u32]) -> bool
    requires { (layers ≤ max_layers) × (at + layer_size tag * layers ≤ length net.now) × (rows_at ≤ length words.old) }
    ensures { LayersPut net.now tag layers at words.new result }
{
    let each = layer_size(tag);
    for l in 0..layers {
        if !put_layer(net, tag, at + each * l, l, words) {
            return false;
        }
    }
    true
}

// The driver that stands at `at`, into row 0, and whether its numbers are in their ranges. It is a buffer of no input capacitance.
pub fn put_driver(net: &[u8], at: usize, layers: usize, words: &mut [u32]) -> bool
    requires { (layers ≤ max_layers) × (at + 16 ≤ length net.now) × (node_row 1 ≤ length words.old) }
    ensures { DriverPut net.now layers at words.old words.new result }
{
    let gate_res = number(net, at, 4);
    let intrinsic = number(net, at + 4, 4);
    let high = number(net, at + 8, 4);
    let low = number(net, at + 12, 4);
    put_three(words, ROWS_AT, 4, 0, layers as u32);
    put_three(words, ROWS_AT + 3, 0, gate_res, intrinsic);
    put_three(words, ROWS_AT + 6, high, low, 0);
    let kind = kind_of(4, 0, gate_res, intrinsic);
    let arrival = time_of(high, low);
    kind_in_range(kind) && time_in_range(arrival)
}

// The count of nodes after the driver, into row 0.
pub fn put_count(words: &mut [u32], count: usize)
    requires { (count ≤ max_nodes) × (node_row 1 ≤ length words.old) }
    ensures { words.new ≡ set words.old count_at count }
{
    words[COUNT_AT] = count as u32;
}

// The numbers of a net by its array alone.
// Kept: public functions for who has the array alone, with what they ask and promise; `Net` has its counts from two of them (`Net::of`), and the others as
// methods.

// Node j of the net.
pub fn node_at(words: &[u32], j: usize) -> Node
    requires { (nodes : ℕ) × (layers : ℕ) × Held words.now nodes layers × (1 ≤ j) × (j ≤ nodes) }
    ensures { result ≡ record_of (at (net_in words.now) j) }
{
    node_in(words, j)
}

// The number of nodes after the driver.
pub fn node_count(words: &[u32]) -> usize
    requires { (nodes : ℕ) × (layers : ℕ) × Held words.now nodes layers }
    ensures { result ≡ length (net_in words.now).nodes }
{
    words[COUNT_AT] as usize
}

// The number of layers.
pub fn layer_count(words: &[u32]) -> usize
    requires { (nodes : ℕ) × (layers : ℕ) × Held words.now nodes layers }
    ensures { result ≡ layer_count (net_in words.now) }
{
    words[LAYERS_AT] as usize
}

// The unit resistance of layer l.
pub fn unit_res(words: &[u32], l: usize) -> u64
    requires { (nodes : ℕ) × (layers : ℕ) × Held words.now nodes layers × (l < layers) }
    ensures { result ≡ (layer (net_in words.now) l).unit_res }
{
    u64::from(words[l])
}

// The unit capacitance of layer l.
pub fn unit_cap(words: &[u32], l: usize) -> u64
    requires { (nodes : ℕ) × (layers : ℕ) × Held words.now nodes layers × (l < layers) }
    ensures { result ≡ (layer (net_in words.now) l).unit_cap }
{
    u64::from(words[CAPS_AT + l])
}

// The via resistance of layer l.
pub fn via_res(words: &[u32], l: usize) -> u64
    requires { (nodes : ℕ) × (layers : ℕ) × Held words.now nodes layers × (l < layers) }
    ensures { result ≡ (layer (net_in words.now) l).via_res }
{
    u64::from(words[VIAS_AT + l])
}

// The cost of edge j on layer l.
pub fn edge_cost(words: &[u32], j: usize, l: usize) -> u64
    requires { (nodes : ℕ) × (layers : ℕ) × Held words.now nodes layers × (1 ≤ j) × (j ≤ nodes) × (l < layers) }
    ensures { result ≡ edge_cost (net_in words.now) l j }
{
    u64::from(words[ROWS_AT + j * WIDTH + COSTS_AT + l])
}

// The driver's arrival time.
pub fn arrival(words: &[u32]) -> i64
    requires { (nodes : ℕ) × (layers : ℕ) × Held words.now nodes layers }
    ensures { result ≡ (net_in words.now).driver.arrival }
{
    time_of(words[ROWS_AT + 6], words[ROWS_AT + 7])
}
