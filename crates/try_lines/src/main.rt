// Compares the lines that the programs print (01, Program) with fixed byte strings, and prints for each its name and `ok`, or the line that came instead.
#![tactic(auto)]

ghost use Rattle.std.specs.Prelude.{◌≤◌, length};
ghost use Rattle.rules.specs.Bytes.{max_stages};

use compare_text::compare;
use std::io;

// Net B of document 01 (Nets to try), a line for each field.
const NET_B: [u8; 84] = *b"\x01\x00\x08\x00\x04\x00\x01\x00\x01\x00\x01\
    \x02\x00\x10\x00\x00\x00\x01\x00\x00\x00\x00\x00\x00\x00\x00\x00\x00\x00\x00\
    \x04\x00\x18\x00\x00\x00\x0a\x00\x00\x00\x0a\x00\x00\x00\x14\x00\x00\x00\x05\x00\x00\x00\x01\x00\x00\x00\x03\
    \x05\x00\x18\x00\x01\x00\x0a\x00\x00\x00\x0c\x00\x00\x00\x19\x00\x00\x00\x05\x00\x00\x00\x00\x00\x00\x04\x27";

// The line that planning prints for a net.
fn try_planned(rt: &impl Print, name: &str, net: &[u8], expected: &str) -> io::Result<()> {
    let mut out = [0u8; 512];
    let length = program::answer_line(net, &mut out);
    compare(rt, name.as_bytes(), &out[..length], expected.as_bytes())
}

// The line that checking prints for a net.
fn try_checked(rt: &impl Print, name: &str, net: &[u8], expected: &str) -> io::Result<()> {
    let mut out = [0u8; 512];
    let length = program::check_line(net, &mut out);
    compare(rt, name.as_bytes(), &out[..length], expected.as_bytes())
}

// The line of an accepted plan.
fn try_plan_line(
    rt: &impl Print,
    name: &str,
    cost: u64,
    g: u64,
    slack: i64,
    plan: &[u8],
    expected: &str,
) -> io::Result<()>
    requires { length plan.now ≤ max_stages }
{
    let mut out = [0u8; 512];
    let length = line::plan_line(cost, g, slack, plan, &mut out);
    compare(rt, name.as_bytes(), &out[..length], expected.as_bytes())
}

// The line of the counts.
fn try_counts_line(
    rt: &impl Print,
    name: &str,
    nodes: u64,
    stages: u64,
    layers: u64,
    expected: &str,
) -> io::Result<()> {
    let mut out = [0u8; 512];
    let length = line::counts_line(nodes, stages, layers, &mut out);
    compare(rt, name.as_bytes(), &out[..length], expected.as_bytes())
}

// The line of a refusal.
fn try_refused_line(rt: &impl Print, name: &str, r: u8, expected: &str) -> io::Result<()> {
    let mut out = [0u8; 512];
    let length = line::refused_line(r, &mut out);
    compare(rt, name.as_bytes(), &out[..length], expected.as_bytes())
}

// Net B, and net B with another byte: required time 39, and the buffer childless.
fn try_net_b(rt: &impl Print) -> io::Result<()> {
    try_planned(
        rt,
        "B planned",
        &NET_B,
        "cost 35 grain 4 slack 0 plan 0 1\n",
    )?;
    try_checked(rt, "B checked", &NET_B, "nodes 3 stages 2 layers 2\n")?;
    let mut early = NET_B;
    early[82] = 0;
    try_planned(rt, "B, required 39, planned", &early, "refused 11\n")?;
    try_checked(
        rt,
        "B, required 39, checked",
        &early,
        "nodes 3 stages 2 layers 2\n",
    )?;
    let mut childless = NET_B;
    childless[61] = 0;
    try_planned(rt, "childless buffer planned", &childless, "refused 6\n")?;
    try_checked(rt, "childless buffer checked", &childless, "refused 6\n")
}

// Inputs that hold no net.
fn try_no_net(rt: &impl Print) -> io::Result<()> {
    try_planned(rt, "empty input planned", b"", "refused 1\n")?;
    try_checked(rt, "empty input checked", b"", "refused 1\n")?;
    try_planned(rt, "zeros planned", b"\x00\x00\x00", "refused 2\n")?;
    try_checked(rt, "zeros checked", b"\x00\x00\x00", "refused 2\n")
}

// Lines of numbers: a negative slack, the least and the largest numbers of their widths, two and three digits.
fn try_numbers(rt: &impl Print) -> io::Result<()> {
    try_plan_line(
        rt,
        "negative slack",
        1_000_000,
        1,
        -600,
        b"\x0f",
        "cost 1000000 grain 1 slack -600 plan 15\n",
    )?;
    try_plan_line(
        rt,
        "longest numbers",
        18_446_744_073_709_551_615,
        268_435_456,
        -9_223_372_036_854_775_808,
        b"\x00\x0a\xff",
        "cost 18446744073709551615 grain 268435456 slack -9223372036854775808 plan 0 10 255\n",
    )?;
    try_counts_line(
        rt,
        "most counts",
        256,
        64,
        16,
        "nodes 256 stages 64 layers 16\n",
    )?;
    try_refused_line(rt, "refusal 9", 9, "refused 9\n")?;
    try_refused_line(rt, "refusal 12", 12, "refused 12\n")
}

fn main(rt: HostRuntime) -> io::Result<()> {
    try_net_b(&rt)?;
    try_no_net(&rt)?;
    try_numbers(&rt)
}
