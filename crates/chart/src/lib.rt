// The wall chart of table lengths (02, wish 1) as a constant table: the entries that always serve a net of s stages at share 1/q.
#![tactic(auto)]

mod entries;

ghost use Rattle.std.specs.Prelude.{◌≡◌};
ghost use Rattle.rules.specs.Chart.{OnChart, chart_entry, table_entries};
ghost use Rattle.chart.specs.Charted.{Charted};

use entries::ENTRIES;
use fields::within;

// The whole table. That each of its entries follows the rule is one test, which the checker computes over all of it.
fn table() -> [u64; 640]
    ensures { Charted result }
{
    ENTRIES
}

// The table's number for s stages and share 1/q: the rule carried to one entry.
pub fn entry(s: u64, q: u64) -> u64
    requires { OnChart s q }
    ensures { result ≡ chart_entry s q }
{
    let numbers = table();
    let at = ((s - 1) * rules::CHART_SHARES + (q - 1)) as usize;
    numbers[at]
}

// The table's number for s stages and share 1/q, 0 where the chart has none.
pub fn table_entries(s: u64, q: u64) -> u64
    ensures { result ≡ table_entries s q }
{
    if !within(s, 1, rules::MAX_STAGES as u64) {
        return 0;
    }
    if !within(q, 1, rules::CHART_SHARES) {
        return 0;
    }
    entry(s, q)
}
