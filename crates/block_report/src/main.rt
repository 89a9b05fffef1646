// Reads a block on standard input and prints the report over it (02, wish 2). The buffer for the input holds one byte more than a block may have, and no
// input is too long: the text for its first 65,537 bytes is the text for all of it, by `report-front` in crates/longest/specs/Block.antt. The buffer for the
// text is as long as `report_lines` asks for (`max_report`, crates/report_text/specs/Length.antt).
#![tactic(auto)]

use streams::{input_whole, write_output};

fn main(rt: HostRuntime) {
    let mut block = [0u8; 65537];
    let Some(size) = input_whole(&rt, b"block_report: standard input", &mut block) else {
        return;
    };
    let mut out = [0u8; 1537];
    let length = program::report_lines(&block[..size], &mut out);
    write_output(&rt, b"block_report: standard output", &out[..length]);
}
