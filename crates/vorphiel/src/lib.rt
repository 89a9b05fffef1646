// The open calls of the layer planner. Each answers for every input; each contract opens with one equation: with the rules of documents 01 and 02, or, of the
// version, with its own definition. Hosts in other languages call crates/vorphiel_c.
#![tactic(auto)]

ghost use Rattle.std.specs.Prelude.{◌≡◌};
ghost use Rattle.rules.specs.Reading.{check};
ghost use Rattle.rules.specs.Judging.{judge};
ghost use Rattle.rules.specs.Planning.{plan_answer, plan, Demand2, Demand3};
ghost use Rattle.rules.specs.Rounds.{rounds_answer, plan_rounds, RoundsPromise};
ghost use Rattle.rules.specs.Chart.{table_entries};
ghost use Rattle.rules.specs.Block.{report, BlockPromise};
ghost use Rattle.vorphiel.specs.Version.{version};

use calls::{planned, planned_rounds};
use rules::{Checked, Judged, Planned, Report, RoundsPlanned};

// Checking (01, Reading): the counts of nodes, stages and layers of the net that the bytes hold, or the number of the first fault and zeros.
pub fn check(net: &[u8]) -> Checked
    ensures { result ≡ check net.now }
{
    judging::check(net)
}

// Judging (01, Judging): the cost and slack of a plan, or a refusal number and zeros: 1 to 6 of the net, then 7, then 8.
pub fn judge(net: &[u8], plan: &[u8]) -> Judged
    ensures { result ≡ judge net.now plan.now }
{
    judging::judge(net, plan)
}

// Planning (01, Planning) with share p/q: the plan chosen into the first bytes of `buffer`, its cost and slack, k of the grain and the floor g × V(k) (02, wish
// 6); or a refusal number and zeros. The clauses: all that it answers and leaves is what the definition says; demand 2 for planning; demand 3, whole. What the
// floor is good for follows from the definition: `floor_promise` in crates/demands/specs/Floor.antt; how long a table serves by the cost of a plan that is
// known, at share 0 too: `plan-by-cost` in Exact.antt beside it.
pub fn plan(net: &[u8], p: u64, q: u64, table: &mut [i64], buffer: &mut [u8]) -> Planned
    ensures equation { plan_answer result buffer.new table.new ≡ plan net.now p q table.old buffer.old }
    ensures demand2 { Demand2 net.now p q table.old buffer.old buffer.new result }
    ensures demand3 { Demand3 net.now p q table.old buffer.old buffer.new result }
{
    planned(net, p, q, table, buffer)
}

// The best plan after some rounds (02, wish 7): the cheapest plan of at most r rounds into the first bytes of `buffer`, its cost and slack, the floor and the
// rounds run; or a refusal number and zeros. The clauses: all that it answers and leaves is what the definition says; what it promises in its own words. That a
// larger r never gives a dearer plan or a lower floor is `more-rounds` in crates/demands/specs/Rounds.antt.
pub fn plan_rounds(net: &[u8], r: u64, table: &mut [i64], buffer: &mut [u8]) -> RoundsPlanned
    ensures equation { rounds_answer result buffer.new table.new ≡ plan_rounds net.now r table.old buffer.old }
    ensures rounds_promise { RoundsPromise net.now r table.old buffer.old (rounds_answer result buffer.new table.new) }
{
    planned_rounds(net, r, table, buffer)
}

// The chart's number (02, wish 1): the entries of a table that always serves a net of s stages at share 1/q, 0 where the chart has none. That planning never
// refuses such a table with 12 is `chart_serves` in crates/demands/specs/Chart.antt.
pub fn table_entries(s: u64, q: u64) -> u64
    ensures { result ≡ table_entries s q }
{
    chart::table_entries(s, q)
}

// The report over a block (02, wish 2): the totals over its nets, each planned as the program plans, or 13 and zeros. The clauses: the answer is that of the
// definition; what the totals add up to, and demand 3 for the block.
pub fn report(block: &[u8]) -> Report
    ensures value { result ≡ report block.now }
    ensures block_promise { BlockPromise block.now result }
{
    block::report(block)
}

// The library's version (CHANGELOG.md), counted as the header counts its own.
pub fn version() -> u64
    ensures { result ≡ version }
{
    10100
}
