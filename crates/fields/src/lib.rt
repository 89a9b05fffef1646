// Numbers, times, fields and ranges in net bytes (01, Net bytes and Reading), the leaves of the reader; and the range of a share (01, Planning).
#![tactic(auto)]

ghost use Rattle.std.specs.Prelude.{◌≡◌, ◌&&◌, ◌||◌, ◌+◌, ◌*◌, ◌≤◌, leb, eqb, length};
ghost use Rattle.laws.specs.Basic.{within};
ghost use Rattle.rules.specs.Bytes.{max_layers, layers_tag, via_layers_tag, number, signed, layer_size, due_layers, kind_size, is_time, is_kind};
ghost use Rattle.rules.specs.Reading.{field};
ghost use Rattle.rules.specs.Planning.{max_share};
ghost use Rattle.rules.specs.Refusals.{answered};
ghost use Rattle.fields.specs.Fields.{due_of, field_of};

use rules::{Kind, Refusal};

// The number in the `width` bytes from `at` on, at most four of them, most significant first.
pub fn number(net: &[u8], at: usize, width: usize) -> u32
    requires { (width ≤ 4) × (at + width ≤ length net.now) }
    ensures { result ≡ number net.now at width }
{
    let mut x: u32 = 0;
    for k in 0..width {
        x = x * 256 + u32::from(net[at + k]);
    }
    x
}

// The time whose 64 bits in two's complement are these two halves.
// Kept: two words of the array make a time; std has no conversion from two halves with a clause in whole numbers.
#[tactic(auto, unfolding(rules::specs::Bytes::signed))]
pub fn time_of(high: u32, low: u32) -> i64
    ensures { result ≡ signed (high * 4294967296 + low) }
{
    (u64::from(high) * 0x1_0000_0000 + u64::from(low)).cast_signed()
}

// lo ≤ x ≤ hi.
pub fn within(x: u64, lo: u64, hi: u64) -> bool
    ensures { result ≡ within lo hi x }
{
    (lo..=hi).contains(&x)
}

// Which field is due: one of a net, or a net's own field in a block (02, wish 2).
#[derive(Clone, Copy)]
pub enum Due {
    Layers,
    Driver,
    Node,
    Net,
}

// How many bytes a kind's own numbers take.
// Kept: the tag is the number in the bytes (01, Net bytes) and in the word of its row; an enum would be made of it and turned back into it.
fn kind_size(tag: u32) -> usize
    ensures { result ≡ kind_size tag }
{
    if tag == 3 { 0 } else { 12 }
}

// How many bytes a layer takes: four under tag 1, six under tag 7 (02, wish 5).
// Kept: the tag is the number in the bytes (01, Net bytes) and in the word of its row; an enum would be made of it and turned back into it.
pub fn layer_size(tag: u32) -> usize
    ensures { result ≡ layer_size tag }
{
    if tag == 7 { 6 } else { 4 }
}

// Whether layers may have this tag.
// Kept: the tag is the number in the bytes (01, Net bytes) and in the word of its row; an enum would be made of it and turned back into it.
fn is_layers_tag(tag: u32) -> bool
    ensures { result ≡ (eqb tag layers_tag || eqb tag via_layers_tag) }
{
    matches!(tag, 1 | 7)
}

// Whether a layers field may have this tag and payload length: 1 to 16 layers, each of the size that its tag says.
// Kept: the tag is the number in the bytes (01, Net bytes) and in the word of its row; an enum would be made of it and turned back into it.
#[tactic(auto, unfolding(rules::specs::Bytes::due_layers))]
fn layers_allowed(tag: u32, size: usize) -> bool
    ensures { result ≡ due_layers tag size }
{
    let each = layer_size(tag);
    is_layers_tag(tag) && (each..=each * rules::MAX_LAYERS).contains(&size) && size % each == 0
}

// Whether the field that is due may have this tag and payload length.
// Kept: the tag is the number in the bytes (01, Net bytes) and in the word of its row; an enum would be made of it and turned back into it.
#[tactic(auto, unfolding(rules::specs::Bytes::due_driver, rules::specs::Bytes::due_node, rules::specs::Block::due_net))]
fn allowed(due: Due, layers: usize, tag: u32, size: usize) -> bool
    requires { layers ≤ max_layers }
    ensures { result ≡ due_of due layers tag size }
{
    match due {
        Due::Layers => layers_allowed(tag, size),
        Due::Driver => tag == 2 && size == 16,
        Due::Node => (3..=5).contains(&tag) && size == 4 + 4 * layers + kind_size(tag),
        Due::Net => tag == 6,
    }
}

// A field of the bytes: its tag, where its payload starts, and the payload's length.
// Kept: the tag as a number: `words::put_node` puts it into the array of words as it stands in the bytes.
#[derive(Clone, Copy)]
pub struct Field {
    pub tag: u32,
    pub start: usize,
    pub size: usize,
}

// The field that is due at `at`: head (1), tag and length (2), payload (1).
// Kept: which field is due is one of four of 01's own; a closure would hide it from the clause.
#[tactic(auto, unfolding(rules::specs::Reading::field, rules::specs::Bytes::field_at, rules::specs::Bytes::next))]
pub fn field_at(net: &[u8], at: usize, due: Due, layers: usize) -> Result<Field, Refusal>
    requires { (layers ≤ max_layers) × (at ≤ length net.now) }
    ensures { answered field_of result ≡ field (due_of due layers) net.now at }
{
    if net.len() - at < 3 {
        return Err(Refusal::Ended);
    }
    let tag = number(net, at, 1);
    let size = number(net, at + 1, 2) as usize;
    if !allowed(due, layers, tag, size) {
        return Err(Refusal::WrongField);
    }
    if net.len() - at - 3 < size {
        return Err(Refusal::Ended);
    }
    Ok(Field {
        tag,
        start: at + 3,
        size,
    })
}

// Whether a time is in its range.
#[tactic(auto, unfolding(rules::specs::Bytes::is_time))]
pub fn time_in_range(t: i64) -> bool
    ensures { result ≡ is_time t }
{
    (-rules::MAX_TIME..=rules::MAX_TIME).contains(&t)
}

// Whether a kind's own numbers are in their ranges.
#[tactic(auto, unfolding(rules::specs::Bytes::is_kind))]
pub fn kind_in_range(kind: Kind) -> bool
    ensures { result ≡ is_kind kind }
{
    match kind {
        Kind::Steiner => true,
        Kind::Buffer {
            input_cap,
            gate_res,
            intrinsic,
        } => {
            input_cap <= rules::MAX_INPUT_CAP
                && gate_res <= rules::MAX_GATE_RES
                && intrinsic <= rules::MAX_INTRINSIC
        }
        Kind::Sink {
            input_cap,
            required,
        } => input_cap <= rules::MAX_INPUT_CAP && time_in_range(required),
    }
}

// Whether a share p/q is in its range (refusal 9).
pub fn share_in_range(p: u64, q: u64) -> bool
    ensures { result ≡ leb p max_share && within 1 max_share q }
{
    p <= rules::MAX_SHARE && (1..=rules::MAX_SHARE).contains(&q)
}
