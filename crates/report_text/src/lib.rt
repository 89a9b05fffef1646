// The text of a report over a block (02, wish 2), written from what the report tells: its bytes are those of the definition, and the bytes after it keep
// their values.
#![tactic(auto)]

ghost use Rattle.std.specs.Prelude.{◌≡◌, ◌++◌, ◌+◌, ◌*◌, ◌≤◌, length, drop};
ghost use Rattle.io.specs.Counts.{IsPrefixLen};
ghost use Rattle.rules.specs.Block.{count_line, met_line, met_from, totals_text, answer_text};
ghost use Rattle.text.specs.Placing.{Placed};
ghost use Rattle.report_text.specs.Length.{max_word, max_count_line, max_met_line, max_report};

use line::refused_line;
use rules::Report;
use text::{put, put_field};

// Puts a line of one number at `at`, and answers where it ends.
#[tactic(auto, using(text::proofs::Decimal::number_length))]
fn put_count(word: &[u8], n: u64, out: &mut [u8], at: usize) -> usize
    requires { at + max_count_line (length word.now) ≤ length out.old }
    ensures placed { Placed (count_line word.now n) at out.old out.new result }
    ensures upper_bound { result ≤ at + max_count_line (length word.now) }
{
    let next = put_field(word, n, out, at);
    put(b"\n", out, next)
}

// Puts the line of refusal number or layer i at `at`, or nothing if `count` is 0. Answers where it ends.
#[tactic(auto, using(text::proofs::Decimal::number_length))]
fn put_met_line(word: &[u8], i: u64, count: u64, out: &mut [u8], at: usize) -> usize
    requires { (length word.now ≤ max_word) × (at + max_met_line ≤ length out.old) }
    ensures placed { Placed (met_line word.now i count) at out.old out.new result }
    ensures upper_bound { result ≤ at + max_met_line }
{
    if count == 0 {
        return at;
    }
    let next = put_field(word, i, out, at);
    put_count(b" ", count, out, next)
}

// Puts the lines for all counts at `at`, rising by number or layer, and answers where they end.
fn put_met(word: &[u8], counts: &[u64], out: &mut [u8], at: usize) -> usize
    requires { (length word.now ≤ max_word) × (at + max_met_line * length counts.now ≤ length out.old) }
    ensures placed { Placed (met_from word.now 0 counts.now) at out.old out.new result }
    ensures upper_bound { result ≤ at + max_met_line * length counts.now }
{
    let mut next = at;
    for (i, count) in counts.iter().enumerate() {
        next = put_met_line(word, i as u64, *count, out, next);
    }
    next
}

// Writes the totals at the front of `out`. Answers their length.
fn put_totals(report: Report, out: &mut [u8]) -> usize
    requires { max_report ≤ length out.old }
    ensures { Placed (totals_text report) 0 out.old out.new result }
{
    let refused = report.refused;
    let lengths = report.lengths;
    let mut at = put_count(b"nets ", report.nets, out, 0);
    at = put_count(b"planned ", report.planned, out, at);
    at = put_met(b"refused ", &refused, out, at);
    at = put_count(b"cost ", report.cost, out, at);
    put_met(b"length ", &lengths, out, at)
}

// Writes the report at the front of `out`: the totals, or the line of 13. Answers its length. It also promises `IsPrefixLen`, so that a caller may lend
// `&out[..n]` with no proof of its own.
pub fn write_report(report: Report, out: &mut [u8]) -> usize
    requires { max_report ≤ length out.old }
    ensures value { result ≡ length (answer_text report) }
    ensures out_after { out.new ≡ answer_text report ++ drop result out.old }
    ensures prefix_len { IsPrefixLen result out.new }
{
    if report.refusal != 0 {
        return refused_line(report.refusal, out);
    }
    put_totals(report, out)
}
