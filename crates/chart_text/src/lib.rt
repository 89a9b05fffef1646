// The wall chart's text (02, wish 1), written from the constant table: its bytes are those of the definition, and the bytes after it keep their values.
#![tactic(auto)]

ghost use Rattle.std.specs.Prelude.{◌≡◌, ◌++◌, ◌+◌, ◌≤◌, length, take, drop};
ghost use Rattle.io.specs.Counts.{IsPrefixLen};
ghost use Rattle.rules.specs.Bytes.{max_stages};
ghost use Rattle.rules.specs.Chart.{chart_row, chart_text, numbers_in, table_rows};
ghost use Rattle.text.specs.Placing.{Placed};
ghost use Rattle.chart_text.specs.Length.{max_row, max_chart};

use chart::entry;
use text::{put, put_field, put_number};

// Puts the line for s at `at`, without its line feed: ten numbers with one space between. Answers where it ends.
fn put_row(s: u64, out: &mut [u8], at: usize) -> usize
    requires { (1 ≤ s) × (s ≤ max_stages) × (at + max_row ≤ length out.old) }
    ensures placed { Placed (chart_row s) at out.old out.new result }
    ensures upper_bound { result ≤ at + max_row }
{
    let mut next = put_number(entry(s, 1), out, at);
    for q in 1..rules::CHART_SHARES {
        next = put_field(b" ", entry(s, q + 1), out, next);
    }
    next
}

// Writes the chart at the front of `out`: a line for each s, a line feed at the end of each. Answers its length. The clauses: the length and the bytes are those of
// the definition; the numbers that a reader finds in them are those of the table.
pub fn write_chart(out: &mut [u8]) -> usize
    requires { max_chart ≤ length out.old }
    ensures value { result ≡ length chart_text }
    ensures out_after { out.new ≡ chart_text ++ drop result out.old }
    ensures prefix_len { IsPrefixLen result out.new }
    ensures numbers { numbers_in (take result out.new) ≡ table_rows }
{
    let mut next = put_row(1, out, 0);
    for s in 1..rules::MAX_STAGES as u64 {
        next = put(b"\n", out, next);
        next = put_row(s + 1, out, next);
    }
    put(b"\n", out, next)
}
