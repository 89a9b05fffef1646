// Plans the net on standard input and prints one line (01, Program). No input is too long: the line for its first 65,536 bytes is the line for all of it, by
// `line-front` in crates/longest/specs/Line.antt.
#![tactic(auto)]

use streams::{input_whole, write_output};

fn main(rt: HostRuntime) {
    let mut net = [0u8; 65536];
    let Some(size) = input_whole(&rt, b"plan_net: standard input", &mut net) else {
        return;
    };
    let mut out = [0u8; 512];
    let length = program::answer_line(&net[..size], &mut out);
    write_output(&rt, b"plan_net: standard output", &out[..length]);
}
