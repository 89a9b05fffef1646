// Checks the net on standard input and prints one line: its counts, or the number of the first fault. No input is too long: what checking answers for its
// first 65,536 bytes is the answer for all of it, by `check-front` in crates/longest/specs/Line.antt.
#![tactic(auto)]

use streams::{input_whole, write_output};

fn main(rt: HostRuntime) {
    let mut net = [0u8; 65536];
    let Some(size) = input_whole(&rt, b"check_net: standard input", &mut net) else {
        return;
    };
    let mut out = [0u8; 512];
    let length = program::check_line(&net[..size], &mut out);
    write_output(&rt, b"check_net: standard output", &out[..length]);
}
