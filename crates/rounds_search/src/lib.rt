// Some rounds of the search on a tree of stages (02, wish 7): at k = 28, 27 and down, as far as the columns reach, and the cheapest plan that they find.
#![tactic(auto)]

ghost use Rattle.std.specs.Prelude.{◌≡◌, ℕ, suc, ◌+◌, ◌/◌, ◌^◌, ◌≤◌, length};
ghost use Rattle.std.proofs.Math.Option.{some};
ghost use Rattle.rules.specs.Grain.{max_exponent};
ghost use Rattle.oracle.specs.Stages.{StageTree};
ghost use Rattle.oracle.specs.Value.{first_plan, MeetingPlan};
ghost use Rattle.oracle.specs.Rounds.{plan_cost};
ghost use Rattle.rounding.specs.Clauses.{Costs, plan_in, PricedPlan};
ghost use Rattle.rounds.specs.Problem.{NumbersOf};
ghost use Rattle.rounds.specs.Clauses.{PlanAt};
ghost use Rattle.rounds_search.specs.Clauses.{Cheaper, FoundAt, NextRoundOf, RunOf, Ran};
ghost use Rattle.rounds_search.specs.Planned.{BestOf, RoundsExplored, BestPlanned};

use rounding::rounded_cost;
use rounds::{MAX_GRAIN, Ready, feasible, plan_at, prepare};
use rules::MAX_STAGES;
use search::{Found, MAX_EXPONENT, Unplanned, copy_plan, leave};
use slices::{Links, Tree, Windows};

// Of the best plan so far, of cost `least`, and the one known now the cheaper, into `best`; among equals the best so far. Gives its cost. A plan's true cost is
// its rounded cost at grain 1.
fn keep_cheaper(tree: &Tree<'_>, known: &[u8], least: usize, best: &mut [u8]) -> usize
    requires { PricedPlan tree.now.cost.now known.now tree.now.stages 1 × (tree.now.stages ≤ length best.old) }
    ensures { (T : StageTree) → Costs T tree.now.cost.now tree.now.stages → MeetingPlan T (plan_in tree.now.stages known.now)
        → least ≡ plan_cost T (plan_in tree.now.stages best.old) → Cheaper T tree.now.stages known.now best.old best.new result }
{
    let found = rounded_cost(tree.cost, known, tree.stages, 1);
    if least <= found {
        return least;
    }
    copy_plan(known, tree.stages, best);
    found
}

// One round more: V(k) at the grain `half`, and into `known` the plan that 01 chooses there; or none if V(k) is no less than `columns`. `value` and `known` are
// what the round at twice the grain found. V(k) is at least twice that value: where this is past the columns, or where that plan costs no more, nothing is left
// to be found. Else that plan's rounded cost bounds the rows.
// Kept: what stays for a call is in `ready`; what is left differs from round to round.
fn next_round(
    table: &mut [i64],
    ready: &Ready<'_>,
    half: u64,
    columns: usize,
    value: usize,
    known: &mut [u8],
) -> Option<usize>
    requires { NextRoundOf table.old ready.now.tree half columns value known.old }
    ensures { (T : StageTree) (k : ℕ) → NumbersOf T ready.now.tree
        → half ≡ 2 ^ k → FoundAt T (suc k) ready.now.tree.stages known.old value → PlanAt T k columns ready.now.tree.stages known.new result }
{
    let least = 2 * value;
    if columns <= least {
        return None;
    }
    let bound = rounded_cost(ready.tree.cost, known, ready.tree.stages, half);
    if bound == least {
        return Some(least);
    }
    plan_at(table, ready, half, columns, bound, known)
}

// The rounds from the largest k, whose plan is known, down to k = `last`, or as far as the columns reach: what was found at the last k run, and the cheapest
// plan of all, into `best`.
// Kept: what stays for a call is in `ready`; what is left differs from call to call.
fn run_rounds(
    table: &mut [i64],
    ready: &Ready<'_>,
    last: usize,
    known: &mut [u8],
    best: &mut [u8],
) -> Result<Found, Unplanned>
    requires { RunOf table.old ready.now.tree last known.old best.old }
    ensures { (T : StageTree) → NumbersOf T ready.now.tree
        → first_plan T max_exponent ≡ some (plan_in ready.now.tree.stages known.old)
        → Ran T last (length table.old / (ready.now.tree.stages + 2)) ready.now.tree.stages best.new result }
{
    let columns = table.len() / (ready.tree.stages + 2);
    copy_plan(known, ready.tree.stages, best);
    let mut least = rounded_cost(ready.tree.cost, known, ready.tree.stages, 1);
    let mut found = Found {
        k: MAX_EXPONENT,
        g: MAX_GRAIN,
        value: 0,
    };
    for k in (last..MAX_EXPONENT).rev() {
        let half = found.g / 2;
        let next = next_round(table, ready, half, columns, found.value, known);
        let Some(v) = next else {
            return Ok(found);
        };
        found = Found {
            k,
            g: half,
            value: v,
        };
        least = keep_cheaper(&ready.tree, known, least, best);
    }
    Ok(found)
}

// The rounds over a tree down to k = `last`: whether some plan meets timing, whether there is a column, and if both, the cheapest plan of the rounds, into the
// first bytes of `best`. Where no plan meets timing the table is not touched. The test of timing is the round at the largest k: it is not run twice.
// Kept: beside search::search_tree: `prepare` and `feasible` are shared, the rounds and their clauses are not.
fn search_rounds(
    table: &mut [i64],
    tree: &Tree<'_>,
    last: usize,
    best: &mut [u8],
) -> Result<Found, Unplanned>
    requires { BestOf tree.now last best.old }
    ensures { (T : StageTree) → NumbersOf T tree.now
        → RoundsExplored T last tree.now.stages table.old table.new best.new result }
{
    let mut first = [0usize; MAX_STAGES];
    // Kept: arrays of fixed size, as no heap is used; they are read as structs, `Links` and `Windows`.
    let mut next = [0usize; MAX_STAGES];
    let mut early = [0i64; MAX_STAGES];
    // Kept: arrays of fixed size, as no heap is used; they are read as structs, `Links` and `Windows`.
    let mut late = [0i64; MAX_STAGES];
    prepare(tree, &mut first, &mut next, &mut early, &mut late);
    let ready = Ready {
        tree: *tree,
        links: Links {
            first: &first,
            next: &next,
        },
        windows: Windows {
            early: &early,
            late: &late,
        },
    };
    let mut known = [0u8; MAX_STAGES];
    if !feasible(&ready, &mut known) {
        return Err(Unplanned::Late);
    }
    if table.len() < tree.stages + 2 {
        return Err(Unplanned::Short);
    }
    run_rounds(table, &ready, last, &mut known, best)
}

// The cheapest plan of the rounds down to k = `last`, into the first bytes of `plan`; and what was found at the last k run.
// Kept: beside search::plan_tree: `leave` is shared, the searches and their clauses are not.
pub fn best_of_rounds(
    tree: &Tree<'_>,
    last: usize,
    table: &mut [i64],
    plan: &mut [u8],
) -> Result<Found, Unplanned>
    requires { BestOf tree.now last plan.old }
    ensures { (T : StageTree) → NumbersOf T tree.now
        → BestPlanned T last tree.now.stages table.old table.new plan.old plan.new result }
{
    let mut best = [0u8; MAX_STAGES];
    let outcome = search_rounds(table, tree, last, &mut best);
    leave(outcome, &best, tree.stages, table, plan);
    outcome
}
