// Compares the text of given reports (02, wish 2) with fixed byte strings, and prints for each its name and `ok`, or the text that came instead.
#![tactic(auto)]

use compare_text::compare;
use rules::Report;
use std::io;

// The text of a report.
fn try_text(rt: &impl Print, name: &str, report: Report, expected: &str) -> io::Result<()> {
    let mut out = [0u8; 1537];
    let length = report_text::write_report(report, &mut out);
    compare(rt, name.as_bytes(), &out[..length], expected.as_bytes())
}

// A report of zeros with a refusal number, or 0.
fn zeros(refusal: u8) -> Report {
    Report {
        refusal,
        nets: 0,
        planned: 0,
        refused: [0; 13],
        cost: 0,
        lengths: [0; 16],
    }
}

// Reports: 13, a block of no nets, every refusal number and every layer met, and the largest numbers at both ends of the counts.
fn main(rt: HostRuntime) -> io::Result<()> {
    try_text(&rt, "13", zeros(13), "refused 13\n")?;
    try_text(&rt, "no nets", zeros(0), "nets 0\nplanned 0\ncost 0\n")?;
    let all = Report {
        refusal: 0,
        nets: 96,
        planned: 5,
        refused: [1, 2, 3, 4, 5, 6, 7, 8, 9, 10, 11, 12, 13],
        cost: 600,
        lengths: [1, 2, 3, 4, 5, 6, 7, 8, 9, 8, 7, 6, 5, 4, 3, 2],
    };
    try_text(
        &rt,
        "all numbers and layers",
        all,
        "nets 96\nplanned 5\nrefused 0 1\nrefused 1 2\nrefused 2 3\nrefused 3 4\nrefused 4 5\nrefused 5 6\nrefused 6 7\n\
        refused 7 8\nrefused 8 9\nrefused 9 10\nrefused 10 11\nrefused 11 12\nrefused 12 13\ncost 600\nlength 0 1\n\
        length 1 2\nlength 2 3\nlength 3 4\nlength 4 5\nlength 5 6\nlength 6 7\nlength 7 8\nlength 8 9\nlength 9 8\n\
        length 10 7\nlength 11 6\nlength 12 5\nlength 13 4\nlength 14 3\nlength 15 2\n",
    )?;
    let mut largest = zeros(0);
    largest.nets = u64::MAX;
    largest.planned = u64::MAX;
    largest.refused[0] = u64::MAX;
    largest.refused[12] = u64::MAX;
    largest.cost = u64::MAX;
    largest.lengths[0] = u64::MAX;
    largest.lengths[15] = u64::MAX;
    try_text(
        &rt,
        "the largest numbers",
        largest,
        "nets 18446744073709551615\nplanned 18446744073709551615\nrefused 0 18446744073709551615\n\
        refused 12 18446744073709551615\ncost 18446744073709551615\nlength 0 18446744073709551615\n\
        length 15 18446744073709551615\n",
    )
}
