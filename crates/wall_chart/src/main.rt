// Prints the wall chart of table lengths (02, wish 1): a line for each s from 1 to 64, ten numbers with one space between, for shares 1/1 to 1/10.
// The buffer is as long as `write_chart` asks for (`max_chart`, crates/chart_text/specs/Length.antt).
#![tactic(auto)]

use streams::write_output;

fn main(rt: HostRuntime) {
    let mut out = [0u8; 3840];
    let length = chart_text::write_chart(&mut out);
    write_output(&rt, b"wall_chart: standard output", &out[..length]);
}
