// Reads nets at and just beyond each limit of document 01 (Net bytes, Reading, Nets to try; lengths by 02, wish 3, vias by wish 5) and prints what checking
// answers, a line for each.
// Nets are made in a local buffer from numbers, most significant byte first; each place below is that of a number in net B.
#![tactic(auto)]

ghost use Rattle.std.specs.Prelude.{◌≡◌, ◌+◌, ◌*◌, ◌≤◌, length};

use std::io;

// How many bytes net B has.
const NET_B: usize = 84;

// The largest time.
const MAX_TIME: u64 = 1_000_000_000_000_000;

// Puts the number x of `width` bytes, and answers the place after it.
fn put(net: &mut [u8], at: usize, width: usize, x: u64) -> usize
    requires { (width ≤ 8) × (at + width ≤ length net.old) }
    ensures { result ≡ at + width }
{
    let end = at + width;
    net[at..end].copy_from_slice(&x.to_be_bytes()[8 - width..]);
    end
}

// Puts so many zeros, and answers the place after them.
fn put_zeros(net: &mut [u8], at: usize, count: usize) -> usize
    requires { at + count ≤ length net.old }
    ensures { result ≡ at + count }
{
    let end = at + count;
    net[at..end].fill(0);
    end
}

// Puts a number of `width` bytes `times` times, and answers the place after them.
#[tactic(auto, using(crate::proofs::Places::one_more))]
fn put_each(net: &mut [u8], at: usize, times: usize, width: usize, x: u64) -> usize
    requires { (width ≤ 8) × (at + times * width ≤ length net.old) }
    ensures { result ≡ at + times * width }
{
    for k in 0..times {
        put(net, at + k * width, width, x);
    }
    at + times * width
}

// Prints the name of a net, and what checking answers for its first `size` bytes.
fn try_net(rt: &impl Print, name: &str, net: &[u8], size: usize) -> io::Result<()>
    requires { size ≤ length net.now }
{
    let answer = vorphiel::check(&net[..size]);
    if answer.refusal == 0 {
        println!(rt;
            "{name}: nodes {} stages {} layers {}",
            answer.nodes, answer.stages, answer.layers
        )
    } else {
        println!(rt; "{name}: refused {}", answer.refusal)
    }
}

// The two layers of nets A and B.
fn put_layers(net: &mut [u8]) -> usize
    requires { 11 ≤ length net.old }
    ensures { result ≡ 11 }
{
    let at = put(net, 0, 3, 0x01_0008);
    let at = put(net, at, 4, 0x0004_0001);
    put(net, at, 4, 0x0001_0001)
}

// The same layers in the second edition, with these via resistances.
fn put_via_layers(net: &mut [u8], via: u64, via2: u64) -> usize
    requires { 15 ≤ length net.old }
    ensures { result ≡ 15 }
{
    let at = put(net, 0, 3, 0x07_000c);
    let at = put(net, at, 4, 0x0004_0001);
    let at = put(net, at, 2, via);
    let at = put(net, at, 4, 0x0001_0001);
    put(net, at, 2, via2)
}

// The driver of nets A and B.
fn put_driver(net: &mut [u8], at: usize) -> usize
    requires { at + 19 ≤ length net.old }
    ensures { result ≡ at + 19 }
{
    let at = put(net, at, 3, 0x02_0010);
    let at = put(net, at, 4, 1);
    let at = put(net, at, 4, 0);
    put(net, at, 8, 0)
}

// The parent and the edge of a node of nets A and B: all lengths are 10.
fn put_edge(net: &mut [u8], at: usize, parent: u64, cost: u64, cost2: u64) -> usize
    requires { at + 12 ≤ length net.old }
    ensures { result ≡ at + 12 }
{
    let at = put(net, at, 2, parent);
    let at = put(net, at, 2, 10);
    let at = put(net, at, 4, cost);
    put(net, at, 4, cost2)
}

// A sink of nets A and B.
fn put_sink(net: &mut [u8], at: usize, parent: u64, cost: u64, cost2: u64, required: u64) -> usize
    requires { at + 27 ≤ length net.old }
    ensures { result ≡ at + 27 }
{
    let at = put(net, at, 3, 0x05_0018);
    let at = put_edge(net, at, parent, cost, cost2);
    let at = put(net, at, 4, 5);
    put(net, at, 8, required)
}

// The buffer of net B.
fn put_buffer(net: &mut [u8], at: usize) -> usize
    requires { at + 27 ≤ length net.old }
    ensures { result ≡ at + 27 }
{
    let at = put(net, at, 3, 0x04_0018);
    let at = put_edge(net, at, 0, 10, 20);
    let at = put(net, at, 4, 5);
    let at = put(net, at, 4, 1);
    put(net, at, 4, 3)
}

// Net A of document 01.
fn try_net_a(rt: &impl Print) -> io::Result<()> {
    let mut net = [0u8; 128];
    let at = put_layers(&mut net);
    let at = put_driver(&mut net, at);
    let size = put_sink(&mut net, at, 0, 10, 20, 830);
    try_net(rt, "net A", &net, size)
}

// Net B of document 01, but for its layers.
fn put_rest_of_b(net: &mut [u8], at: usize) -> usize
    requires { at + 73 ≤ length net.old }
    ensures { result ≡ at + 73 }
{
    let at = put_driver(net, at);
    let at = put_buffer(net, at);
    put_sink(net, at, 1, 12, 25, 1063)
}

// Net B of document 01.
fn put_net_b(net: &mut [u8]) -> usize
    requires { 84 ≤ length net.old }
    ensures { result ≡ 84 }
{
    let at = put_layers(net);
    put_rest_of_b(net, at)
}

// The first `size` bytes of net B, and zeros after its end, with the number x of `width` bytes at `place`.
fn try_net_b(
    rt: &impl Print,
    name: &str,
    place: usize,
    width: usize,
    x: u64,
    size: usize,
) -> io::Result<()>
    requires { (width ≤ 8) × (place + width ≤ 128) × (size ≤ 128) }
{
    let mut net = [0u8; 128];
    put_net_b(&mut net);
    put(&mut net, place, width, x);
    try_net(rt, name, &net, size)
}

// Net B with another number.
fn with(rt: &impl Print, name: &str, place: usize, width: usize, x: u64) -> io::Result<()>
    requires { (width ≤ 8) × (place + width ≤ 128) }
{
    try_net_b(rt, name, place, width, x, NET_B)
}

// Net B of another length.
fn long(rt: &impl Print, name: &str, size: usize) -> io::Result<()>
    requires { size ≤ 128 }
{
    try_net_b(rt, name, 0, 0, 0, size)
}

// Net B in the second edition, with these via resistances.
fn try_vias(rt: &impl Print, name: &str, via: u64, via2: u64) -> io::Result<()> {
    let mut net = [0u8; 128];
    let at = put_via_layers(&mut net, via, via2);
    let size = put_rest_of_b(&mut net, at);
    try_net(rt, name, &net, size)
}

// A layers field with this tag and so many numbers of 2 bytes, all 1, and a driver with all numbers 0.
fn put_start(net: &mut [u8], tag: u64, numbers: usize) -> usize
    requires { (numbers ≤ 51) × (22 + 2 * numbers ≤ length net.old) }
    ensures { result ≡ 22 + 2 * numbers }
{
    let at = put(net, 0, 1, tag);
    let at = put(net, at, 2, 2 * numbers as u64);
    let at = put_each(net, at, numbers, 2, 1);
    let at = put(net, at, 3, 0x02_0010);
    put_zeros(net, at, 16)
}

// How many times 4 bytes the own numbers of a kind take.
fn own_words(tag: u64) -> usize
    ensures { result ≤ 3 }
{
    if tag == 3 { 0 } else { 3 }
}

// A node below `parent` with all costs 1 and all other numbers 0: at most 19 bytes, and 4 for each layer.
fn put_node(net: &mut [u8], at: usize, tag: u64, layers: usize, parent: u64) -> usize
    requires { (layers ≤ 17) × (at + (19 + 4 * layers) ≤ length net.old) }
    ensures { result ≤ at + (19 + 4 * layers) }
{
    let own = own_words(tag);
    let at = put(net, at, 1, tag);
    let at = put(net, at, 2, (4 + 4 * layers + 4 * own) as u64);
    let at = put(net, at, 2, parent);
    let at = put(net, at, 2, 0);
    let at = put_each(net, at, layers, 4, 1);
    put_zeros(net, at, 4 * own)
}

// A net of so many layers, whose layers field has this tag and so many numbers, with one sink.
fn try_layers(
    rt: &impl Print,
    name: &str,
    tag: u64,
    numbers: usize,
    layers: usize,
) -> io::Result<()>
    requires { (numbers ≤ 51) × (layers ≤ 17) }
{
    let mut net = [0u8; 256];
    let at = put_start(&mut net, tag, numbers);
    let size = put_node(&mut net, at, 5, layers, 0);
    try_net(rt, name, &net, size)
}

// One layer, `count` nodes with this tag, each below the one before it, and a sink below the last.
fn put_chain(net: &mut [u8], tag: u64, count: u64) -> usize
    requires { 49 + 23 * count ≤ length net.old }
    ensures { result ≤ length net.new }
{
    let mut at = put_start(net, 1, 2);
    for parent in 0..count {
        at = put_node(net, at, tag, 1, parent);
    }
    put_node(net, at, 5, 1, count)
}

// A chain, with the number x of `width` bytes at `place`.
fn try_chain(
    rt: &impl Print,
    name: &str,
    tag: u64,
    count: u64,
    place: usize,
    width: usize,
    x: u64,
) -> io::Result<()>
    requires { (count ≤ 255) × (width ≤ 8) × (place ≤ 4096) }
{
    let mut net = [0u8; 6144];
    let size = put_chain(&mut net, tag, count);
    put(&mut net, place, width, x);
    try_net(rt, name, &net, size)
}

// One layer, and two or three sinks below the driver.
fn try_sinks(rt: &impl Print) -> io::Result<()> {
    let mut net = [0u8; 128];
    let at = put_start(&mut net, 1, 2);
    let one = put_node(&mut net, at, 5, 1, 0);
    let two = put_node(&mut net, one, 5, 1, 0);
    let three = put_node(&mut net, two, 5, 1, 0);
    try_net(rt, "two children", &net, two)?;
    try_net(rt, "third child", &net, three)
}

// The rows of 'Nets to try' that concern reading.
fn try_rows(rt: &impl Print) -> io::Result<()> {
    long(rt, "empty input", 0)?;
    try_net_a(rt)?;
    long(rt, "net B", NET_B)?;
    try_chain(rt, "63 buffers", 4, 63, 0, 0, 0)?;
    try_chain(rt, "64 buffers", 4, 64, 0, 0, 0)
}

// 1480 and 2836 are the places of the lengths of the 64th buffer and of the 256th node.
fn try_counts(rt: &impl Print) -> io::Result<()> {
    try_chain(rt, "64th buffer with length 4001", 4, 64, 1480, 2, 4001)?;
    try_chain(rt, "255 nodes", 3, 254, 0, 0, 0)?;
    try_chain(rt, "256 nodes", 3, 255, 0, 0, 0)?;
    try_chain(rt, "256th node with length 4001", 3, 255, 2836, 2, 4001)
}

fn try_layer_counts(rt: &impl Print) -> io::Result<()> {
    try_layers(rt, "1 layer", 1, 2, 1)?;
    try_layers(rt, "16 layers", 1, 32, 16)?;
    try_layers(rt, "17 layers", 1, 34, 17)?;
    try_layers(rt, "no layers", 1, 0, 0)?;
    with(rt, "layers length 6", 1, 2, 6)?;
    try_layers(rt, "layers length 12", 1, 6, 3)
}

// The second edition's layers have 6 bytes each, which is refused where the first edition's 4 are not, and the other way round.
fn try_via_layer_counts(rt: &impl Print) -> io::Result<()> {
    try_layers(rt, "tag 7, 1 layer", 7, 3, 1)?;
    try_layers(rt, "tag 7, 15 layers", 7, 45, 15)?;
    try_layers(rt, "tag 7, 16 layers", 7, 48, 16)?;
    try_layers(rt, "tag 7, 17 layers", 7, 51, 17)?;
    try_layers(rt, "tag 7, no layers", 7, 0, 0)?;
    try_layers(rt, "tag 7, length 4", 7, 2, 1)?;
    try_layers(rt, "tag 7, length 8", 7, 4, 2)?;
    try_layers(rt, "tag 7, length 10", 7, 5, 2)?;
    try_layers(rt, "tag 7, length 12", 7, 6, 2)?;
    try_layers(rt, "tag 7, length 64", 7, 32, 16)
}

fn try_via_resistances(rt: &impl Print) -> io::Result<()> {
    try_vias(rt, "via resistance 0", 0, 0)?;
    try_vias(rt, "via resistance 1000", 1000, 0)?;
    try_vias(rt, "via resistance 1001", 1001, 0)?;
    try_vias(rt, "second via resistance 1000", 0, 1000)?;
    try_vias(rt, "second via resistance 1001", 0, 1001)?;
    try_vias(rt, "second via resistance 65535", 0, 65535)
}

fn try_unit_values(rt: &impl Print) -> io::Result<()> {
    with(rt, "unit resistance 0", 3, 2, 0)?;
    with(rt, "unit resistance 1", 3, 2, 1)?;
    with(rt, "unit resistance 1000", 3, 2, 1000)?;
    with(rt, "unit resistance 1001", 3, 2, 1001)?;
    with(rt, "unit capacitance 0", 5, 2, 0)?;
    with(rt, "unit capacitance 1", 5, 2, 1)?;
    with(rt, "unit capacitance 1000", 5, 2, 1000)?;
    with(rt, "unit capacitance 1001", 5, 2, 1001)?;
    with(rt, "second unit capacitance 1001", 9, 2, 1001)
}

fn try_driver(rt: &impl Print) -> io::Result<()> {
    with(rt, "driver resistance 100000", 14, 4, 100_000)?;
    with(rt, "driver resistance 100001", 14, 4, 100_001)?;
    with(
        rt,
        "driver intrinsic delay 1000000000",
        18,
        4,
        1_000_000_000,
    )?;
    with(
        rt,
        "driver intrinsic delay 1000000001",
        18,
        4,
        1_000_000_001,
    )
}

fn try_arrival(rt: &impl Print) -> io::Result<()> {
    with(rt, "arrival -10^15", 22, 8, MAX_TIME.wrapping_neg())?;
    with(
        rt,
        "arrival -10^15 - 1",
        22,
        8,
        (MAX_TIME + 1).wrapping_neg(),
    )?;
    with(rt, "arrival 10^15", 22, 8, MAX_TIME)?;
    with(rt, "arrival 10^15 + 1", 22, 8, MAX_TIME + 1)
}

fn try_edge(rt: &impl Print) -> io::Result<()> {
    with(rt, "length 0", 35, 2, 0)?;
    with(rt, "length 1000", 35, 2, 1000)?;
    with(rt, "length 1001", 35, 2, 1001)?;
    with(rt, "length 4000", 35, 2, 4000)?;
    with(rt, "length 4001", 35, 2, 4001)?;
    with(rt, "length 65535", 35, 2, 65535)?;
    with(rt, "cost 0", 37, 4, 0)?;
    with(rt, "cost 1", 37, 4, 1)?;
    with(rt, "cost 1000000", 37, 4, 1_000_000)?;
    with(rt, "cost 1000001", 37, 4, 1_000_001)?;
    with(rt, "second cost 0", 41, 4, 0)
}

fn try_buffer(rt: &impl Print) -> io::Result<()> {
    with(rt, "buffer capacitance 100000", 45, 4, 100_000)?;
    with(rt, "buffer capacitance 100001", 45, 4, 100_001)?;
    with(rt, "buffer resistance 100000", 49, 4, 100_000)?;
    with(rt, "buffer resistance 100001", 49, 4, 100_001)?;
    with(
        rt,
        "buffer intrinsic delay 1000000000",
        53,
        4,
        1_000_000_000,
    )?;
    with(
        rt,
        "buffer intrinsic delay 1000000001",
        53,
        4,
        1_000_000_001,
    )
}

fn try_sink(rt: &impl Print) -> io::Result<()> {
    with(rt, "sink capacitance 100000", 72, 4, 100_000)?;
    with(rt, "sink capacitance 100001", 72, 4, 100_001)?;
    with(rt, "required time -10^15", 76, 8, MAX_TIME.wrapping_neg())?;
    with(
        rt,
        "required time -10^15 - 1",
        76,
        8,
        (MAX_TIME + 1).wrapping_neg(),
    )?;
    with(rt, "required time 10^15", 76, 8, MAX_TIME)?;
    with(rt, "required time 10^15 + 1", 76, 8, MAX_TIME + 1)
}

fn try_parents(rt: &impl Print) -> io::Result<()> {
    with(rt, "own number as parent", 60, 2, 2)?;
    with(rt, "higher number as parent", 60, 2, 3)?;
    with(rt, "own number as parent, length 4001", 60, 4, 0x0002_0fa1)?;
    try_sinks(rt)?;
    try_chain(rt, "sink as parent", 5, 1, 0, 0, 0)
}

fn try_childless(rt: &impl Print) -> io::Result<()> {
    long(rt, "childless buffer at the end", 57)?;
    with(rt, "childless buffer before a sink", 60, 2, 0)?;
    long(rt, "layers and driver alone", 30)
}

fn try_ends(rt: &impl Print) -> io::Result<()> {
    long(rt, "layers alone", 11)?;
    long(rt, "one trailing byte", NET_B + 1)?;
    long(rt, "two trailing bytes", NET_B + 2)?;
    long(rt, "three trailing bytes", NET_B + 3)?;
    long(rt, "missing payload", NET_B - 1)
}

fn try_heads(rt: &impl Print) -> io::Result<()> {
    with(rt, "tag 7 with the length of tag 1", 0, 1, 7)?;
    with(rt, "tag 7 in a node's place", 57, 1, 7)?;
    with(rt, "wrong tag", 57, 1, 6)?;
    try_net_b(rt, "wrong tag with missing payload", 57, 1, 6, NET_B - 1)?;
    with(rt, "wrong length", 58, 2, 23)
}

fn main(rt: HostRuntime) -> io::Result<()> {
    try_rows(&rt)?;
    try_counts(&rt)?;
    try_layer_counts(&rt)?;
    try_via_layer_counts(&rt)?;
    try_unit_values(&rt)?;
    try_via_resistances(&rt)?;
    try_driver(&rt)?;
    try_arrival(&rt)?;
    try_edge(&rt)?;
    try_buffer(&rt)?;
    try_sink(&rt)?;
    try_parents(&rt)?;
    try_childless(&rt)?;
    try_ends(&rt)?;
    try_heads(&rt)
}
