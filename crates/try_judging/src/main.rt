// Judges plans of nets A and B of document 01 (Judging, Nets to try), without and with vias (02, wish 5), and of nets near them, and prints what judging
// answers, a line for each.
#![tactic(auto)]

ghost use Rattle.std.specs.Prelude.{◌+◌, ◌*◌, ◌<◌, ◌≤◌, length};

use std::io;

// Net A of document 01, a line for each field.
const NET_A: [u8; 57] = *b"\x01\x00\x08\x00\x04\x00\x01\x00\x01\x00\x01\
    \x02\x00\x10\x00\x00\x00\x01\x00\x00\x00\x00\x00\x00\x00\x00\x00\x00\x00\x00\
    \x05\x00\x18\x00\x00\x00\x0a\x00\x00\x00\x0a\x00\x00\x00\x14\x00\x00\x00\x05\x00\x00\x00\x00\x00\x00\x03\x3e";

// Net B of document 01, a line for each field.
const NET_B: [u8; 84] = *b"\x01\x00\x08\x00\x04\x00\x01\x00\x01\x00\x01\
    \x02\x00\x10\x00\x00\x00\x01\x00\x00\x00\x00\x00\x00\x00\x00\x00\x00\x00\x00\
    \x04\x00\x18\x00\x00\x00\x0a\x00\x00\x00\x0a\x00\x00\x00\x14\x00\x00\x00\x05\x00\x00\x00\x01\x00\x00\x00\x03\
    \x05\x00\x18\x00\x01\x00\x0a\x00\x00\x00\x0c\x00\x00\x00\x19\x00\x00\x00\x05\x00\x00\x00\x00\x00\x00\x04\x27";

// Net A with via resistance 0 on layer 0 and 2 on layer 1 (02, wish 5).
const VIA_NET_A: [u8; 61] = *b"\x07\x00\x0c\x00\x04\x00\x01\x00\x00\x00\x01\x00\x01\x00\x02\
    \x02\x00\x10\x00\x00\x00\x01\x00\x00\x00\x00\x00\x00\x00\x00\x00\x00\x00\x00\
    \x05\x00\x18\x00\x00\x00\x0a\x00\x00\x00\x0a\x00\x00\x00\x14\x00\x00\x00\x05\x00\x00\x00\x00\x00\x00\x03\x3e";

// Net B with the same via resistances.
const VIA_NET_B: [u8; 88] = *b"\x07\x00\x0c\x00\x04\x00\x01\x00\x00\x00\x01\x00\x01\x00\x02\
    \x02\x00\x10\x00\x00\x00\x01\x00\x00\x00\x00\x00\x00\x00\x00\x00\x00\x00\x00\
    \x04\x00\x18\x00\x00\x00\x0a\x00\x00\x00\x0a\x00\x00\x00\x14\x00\x00\x00\x05\x00\x00\x00\x01\x00\x00\x00\x03\
    \x05\x00\x18\x00\x01\x00\x0a\x00\x00\x00\x0c\x00\x00\x00\x19\x00\x00\x00\x05\x00\x00\x00\x00\x00\x00\x04\x27";

// Prints a name, and what judging answers for the plan.
fn try_plan(rt: &impl Print, name: &str, net: &[u8], plan: &[u8]) -> io::Result<()> {
    let answer = vorphiel::judge(net, plan);
    if answer.refusal == 0 {
        println!(rt; "{name}: cost {} slack {}", answer.cost, answer.slack)
    } else {
        println!(rt; "{name}: refused {}", answer.refusal)
    }
}

fn try_net_a(rt: &impl Print, name: &str, plan: &[u8]) -> io::Result<()> {
    try_plan(rt, name, &NET_A, plan)
}

// Net A with another last byte of the required time, which is 0x033e, or 830, in net A itself.
fn required(rt: &impl Print, name: &str, last: u8, plan: &[u8]) -> io::Result<()> {
    let mut net = NET_A;
    net[56] = last;
    try_plan(rt, name, &net, plan)
}

fn try_net_b(rt: &impl Print, name: &str, plan: &[u8]) -> io::Result<()> {
    try_plan(rt, name, &NET_B, plan)
}

// Net B with another byte, which makes it unreadable.
fn unreadable(rt: &impl Print, name: &str, place: usize, x: u8, plan: &[u8]) -> io::Result<()>
    requires { place < 84 }
{
    let mut net = NET_B;
    net[place] = x;
    try_plan(rt, name, &net, plan)
}

// Net A with another via resistance on layer 1.
fn via_resistance(rt: &impl Print, name: &str, via: u16, plan: &[u8]) -> io::Result<()> {
    let mut net = VIA_NET_A;
    net[13..15].copy_from_slice(&via.to_be_bytes());
    try_plan(rt, name, &net, plan)
}

fn try_via_net_b(rt: &impl Print, name: &str, plan: &[u8]) -> io::Result<()> {
    try_plan(rt, name, &VIA_NET_B, plan)
}

// One layer with both unit values 1, and a driver with all numbers 0.
const START: [u8; 26] = *b"\x01\x00\x04\x00\x01\x00\x01\
    \x02\x00\x10\x00\x00\x00\x00\x00\x00\x00\x00\x00\x00\x00\x00\x00\x00\x00\x00";

// The node below node `parent` of a chain: a buffer (tag 4) with cost and intrinsic delay 1, or a sink (tag 5) with cost and required time 1.
fn node(tag: u8, parent: u8) -> [u8; 23] {
    [
        tag, 0, 20, 0, parent, 0, 0, 0, 0, 0, 1, 0, 0, 0, 0, 0, 0, 0, 0, 0, 0, 0, 1,
    ]
}

// Puts the node below node `parent` of a chain at its place.
fn put_node(net: &mut [u8], tag: u8, parent: u8)
    requires { 26 + 23 * (parent + 1) ≤ length net.old }
{
    let at = 26 + 23 * usize::from(parent);
    net[at..at + 23].copy_from_slice(&node(tag, parent));
}

// Puts a driver, so many buffers, each below the one before it, and a sink below the last.
fn put_chain(net: &mut [u8], buffers: u8)
    requires { 26 + 23 * (buffers + 1) ≤ length net.old }
{
    net[..26].copy_from_slice(&START);
    for parent in 0..buffers {
        put_node(net, 4, parent);
    }
    put_node(net, 5, buffers);
}

// The plans of nets A and B, and slacks just around 0.
fn try_answers(rt: &impl Print) -> io::Result<()> {
    try_net_a(rt, "A, plan 0", b"\x00")?;
    try_net_a(rt, "A, plan 1", b"\x01")?;
    required(rt, "A, required 829, plan 0", 0x3d, b"\x00")?;
    required(rt, "A, required 830, plan 0", 0x3e, b"\x00")?;
    required(rt, "A, required 831, plan 0", 0x3f, b"\x00")?;
    try_net_b(rt, "B, plan 0 0", b"\x00\x00")?;
    try_net_b(rt, "B, plan 0 1", b"\x00\x01")?;
    try_net_b(rt, "B, plan 1 0", b"\x01\x00")?;
    try_net_b(rt, "B, plan 1 1", b"\x01\x01")
}

// Net A takes 310 ticks on layer 1 with via resistance 2, and 40,230 with 1,000. The buffer's pin of net B pays by the layer of the stage above it.
fn try_vias(rt: &impl Print) -> io::Result<()> {
    via_resistance(rt, "A with vias, plan 0", 2, b"\x00")?;
    via_resistance(rt, "A with vias, plan 1", 2, b"\x01")?;
    via_resistance(rt, "A with vias of 0, plan 1", 0, b"\x01")?;
    via_resistance(rt, "A with vias of 1000, plan 1", 1000, b"\x01")?;
    via_resistance(rt, "A with vias of 1001, plan 1", 1001, b"\x01")?;
    try_via_net_b(rt, "B with vias, plan 0 0", b"\x00\x00")?;
    try_via_net_b(rt, "B with vias, plan 0 1", b"\x00\x01")?;
    try_via_net_b(rt, "B with vias, plan 1 0", b"\x01\x00")?;
    try_via_net_b(rt, "B with vias, plan 1 1", b"\x01\x01")
}

fn try_plan_lengths(rt: &impl Print) -> io::Result<()> {
    try_net_a(rt, "A, empty plan", b"")?;
    try_net_a(rt, "A, plan too long", b"\x00\x00")?;
    try_net_b(rt, "B, empty plan", b"")?;
    try_net_b(rt, "B, plan too short", b"\x00")?;
    try_net_b(rt, "B, plan too long", b"\x00\x00\x00")
}

fn try_layer_numbers(rt: &impl Print) -> io::Result<()> {
    try_net_a(rt, "A, plan 2", b"\x02")?;
    try_net_a(rt, "A, plan 255", b"\xff")?;
    try_net_b(rt, "B, plan 2 0", b"\x02\x00")?;
    try_net_b(rt, "B, plan 0 2", b"\x00\x02")?;
    try_net_b(rt, "B, plan too short, layer 2", b"\x02")?;
    try_net_b(rt, "B, plan too long, layer 2", b"\x00\x00\x02")
}

// The most stages that a net can have, and one more: the chains have 1498 and 1521 bytes.
fn try_most_stages(rt: &impl Print) -> io::Result<()> {
    let mut most = [0u8; 1498];
    put_chain(&mut most, 63);
    try_plan(rt, "63 buffers", &most, &[0; 64])?;
    try_plan(rt, "63 buffers, plan too short", &most, &[0; 63])?;
    let mut more = [0u8; 1521];
    put_chain(&mut more, 64);
    try_plan(rt, "64 buffers", &more, &[0; 65])
}

// The faults of a net come before those of a plan.
fn try_unreadable(rt: &impl Print) -> io::Result<()> {
    try_plan(rt, "empty input", b"", b"")?;
    try_plan(rt, "empty input, plan 0", b"", b"\x00")?;
    unreadable(rt, "wrong tag", 57, 6, b"\x00\x00")?;
    unreadable(rt, "wrong tag, plan too short", 57, 6, b"\x00")?;
    unreadable(rt, "unit resistance 0, plan 0 2", 4, 0, b"\x00\x02")?;
    unreadable(
        rt,
        "own number as parent, plan too short, layer 2",
        61,
        2,
        b"\x02",
    )?;
    unreadable(rt, "childless buffer", 61, 0, b"\x00\x00")?;
    unreadable(rt, "childless buffer, empty plan", 61, 0, b"")
}

fn main(rt: HostRuntime) -> io::Result<()> {
    try_answers(&rt)?;
    try_vias(&rt)?;
    try_plan_lengths(&rt)?;
    try_layer_numbers(&rt)?;
    try_most_stages(&rt)?;
    try_unreadable(&rt)
}
