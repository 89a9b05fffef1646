// One round of the search at a grain (01, Planning): the rows, V(k) read off the first, and the plan read off them all; and what is found before the first
// round, once for each call.
#![tactic(auto)]

ghost use Rattle.std.specs.Prelude.{◌≡◌, ℕ, ◌^◌, ◌≤◌, length};
ghost use Rattle.oracle.specs.Stages.{StageTree};
ghost use Rattle.rounds.specs.Problem.{NumbersOf};
ghost use Rattle.rounds.specs.Clauses.{PrepareOf, Prepared, RoundOf, ValueAt, Feasible, Known, PlanAtOf, PlanAt};

use fanout::link;
use readoff::{least_column, read_plan};
use rounding::excess_costs;
use rows::fill_rows;
use rules::MAX_STAGES;
use slices::{Bands, Round, STAGE_ENTRIES, Tree};
use windows::windows;

mod prepared;

pub use prepared::Ready;

// The largest grain: every plan's cost is below it.
pub const MAX_GRAIN: u64 = 268_435_456;

// What is found once for each call, before the first round: the links from each stage to those that it drives, and from when to when each can be reached.
pub fn prepare(
    tree: &Tree<'_>,
    first: &mut [usize],
    next: &mut [usize],
    early: &mut [i64],
    late: &mut [i64],
)
    requires { PrepareOf tree.now first.old next.old early.old late.old }
    ensures { Prepared tree.now.driver.now first.new next.new tree.now.delay.now early.new late.new
        tree.now.stages tree.now.layers tree.now.arrival }
{
    link(tree.driver, tree.stages, first, next);
    windows(tree, early, late);
}

// The bands of a round, and V(k) read off the first; none if it does not fit the width.
// Kept: what stays for a call is in `ready`; three arrays are lent to be written.
fn value_at(
    table: &mut [i64],
    ready: &Ready<'_>,
    starts: &mut [usize],
    ends: &mut [usize],
    n: Round,
) -> Option<usize>
    requires { RoundOf table.old ready.now.tree starts.old ends.old n }
    ensures { (T : StageTree) (k : ℕ) → NumbersOf T ready.now.tree → n.grain ≡ 2 ^ k → ValueAt T k n.width table.new starts.new ends.new result }
{
    fill_rows(
        table,
        &ready.tree,
        &ready.links,
        &ready.windows,
        starts,
        ends,
        n,
    );
    let least = least_column(table, 0, starts[0], ends[0], n.width, ready.tree.arrival);
    if n.width <= least {
        return None;
    }
    Some(least)
}

// Whether some plan meets timing, and if so the plan that 01 chooses at the largest grain, into the first bytes of `known`: there every rounded cost is 0, so
// one column is enough.
pub fn feasible(ready: &Ready<'_>, known: &mut [u8]) -> bool
    requires some_tree { (T : StageTree) × NumbersOf T ready.now.tree }
    requires room { ready.now.tree.stages ≤ length known.old }
    ensures { (T : StageTree) → NumbersOf T ready.now.tree → Feasible T ready.now.tree.stages known.new result }
{
    let n = Round {
        width: 1,
        grain: MAX_GRAIN,
    };
    let mut table = [0i64; MAX_STAGES + 2];
    let mut starts = [0usize; MAX_STAGES];
    // Kept: two arrays, as no heap is used and the rows fill them; they are read as one struct, `Bands`.
    let mut ends = [0usize; MAX_STAGES];
    let least = value_at(&mut table, ready, &mut starts, &mut ends, n);
    if least.is_none() {
        return false;
    }
    let bands = Bands {
        starts: &starts,
        ends: &ends,
    };
    let mut times = [0i64; MAX_STAGES];
    read_plan(
        &table,
        &ready.tree,
        &ready.links,
        &bands,
        n,
        &mut times,
        known,
    );
    true
}

// V(k) at the grain g, and into `known` the plan that 01 chooses at that grain; or none if V(k) is no less than `columns`. `known` holds a plan that meets
// timing, and `bound` is its rounded cost, which V(k) does not exceed. The columns of the rows count what is spent above the least of each stage.
// Kept: what stays for a call is in `ready`; what is left differs from round to round.
pub fn plan_at(
    table: &mut [i64],
    ready: &Ready<'_>,
    g: u64,
    columns: usize,
    bound: usize,
    known: &mut [u8],
) -> Option<usize>
    requires { PlanAtOf table.old ready.now.tree g columns bound known.old }
    ensures { (T : StageTree) (k : ℕ) → NumbersOf T ready.now.tree → g ≡ 2 ^ k → Known T k ready.now.tree.stages known.old bound
        → PlanAt T k columns ready.now.tree.stages known.new result }
{
    let mut excess = [0u64; STAGE_ENTRIES];
    let base = excess_costs(&ready.tree, g, &mut excess);
    if columns <= base {
        return None;
    }
    let width = columns.min(bound + 1) - base;
    let n = Round { width, grain: 1 };
    let left = Ready {
        tree: Tree {
            cost: &excess,
            ..ready.tree
        },
        links: ready.links,
        windows: ready.windows,
    };
    let mut starts = [0usize; MAX_STAGES];
    // Kept: two arrays, as no heap is used and the rows fill them; they are read as one struct, `Bands`.
    let mut ends = [0usize; MAX_STAGES];
    let spent = value_at(table, &left, &mut starts, &mut ends, n)?;
    let bands = Bands {
        starts: &starts,
        ends: &ends,
    };
    let mut times = [0i64; MAX_STAGES];
    read_plan(table, &left.tree, &left.links, &bands, n, &mut times, known);
    Some(base + spent)
}
