// The search over grains on a tree of stages (01, Planning): whether some plan meets timing, the grain by a descent in k, the plan that is chosen.
#![tactic(auto)]

ghost use Rattle.std.specs.Prelude.{◌≡◌, ◌++◌, ◌+◌, ◌-◌, ◌*◌, ◌/◌, ◌≤◌, leb, length, drop};
ghost use Rattle.oracle.specs.Stages.{StageTree};
ghost use Rattle.oracle.specs.Value.{MeetingPlan};
ghost use Rattle.rounding.specs.Clauses.{plan_in};
ghost use Rattle.search.specs.Clauses.{ProblemOf, TestIn, DescendOf, Searched};
ghost use Rattle.search.specs.Planned.{PlanTreeOf, SearchOf, Explored, Left, Planned, refusal_of};

use rounding::rounded_cost;
use rounds::{MAX_GRAIN, Ready, feasible, plan_at, prepare};
use rules::{MAX_STAGES, Refusal};
use slices::{Links, Tree, Windows};

// The largest k: 2^k is the largest grain.
pub const MAX_EXPONENT: usize = 28;

// The share p/q (01, Planning).
#[derive(Clone, Copy)]
pub struct Share {
    pub p: u64,
    pub q: u64,
}

// What planning a tree finds: the grain 2^k = g, and V(k).
#[derive(Clone, Copy)]
pub struct Found {
    pub k: usize,
    pub g: u64,
    pub value: usize,
}

// Why it finds no plan.
#[derive(Clone, Copy, Debug, PartialEq, Eq)]
pub enum Unplanned {
    // No plan meets timing.
    Late,
    // The table has too few columns.
    Short,
}

impl From<Unplanned> for Refusal {
    ghost from_gives = { λ why r. r ≡ refusal_of why };

    fn from(why: Unplanned) -> Refusal {
        match why {
            Unplanned::Late => Refusal::TooLate,
            Unplanned::Short => Refusal::TooShort,
        }
    }
}

// The test of the grain g with V(k) = v at a share.
fn qualifies(share: Share, stages: usize, g: u64, v: usize) -> bool
    requires { TestIn share.p share.q stages g v }
    ensures { result ≡ leb (share.q * stages * (g - 1)) (share.p * g * v) }
{
    share.q * (stages as u64) * (g - 1) <= share.p * g * (v as u64)
}

// From the largest k down, the first that qualifies, and the plan that 01 chooses at its grain, into `known`. A k at which not even the rounded cost of the
// plan known so far qualifies is passed over: V(k) is no more.
fn descend(
    table: &mut [i64],
    ready: &Ready<'_>,
    share: Share,
    known: &mut [u8],
) -> Result<Found, Unplanned>
    requires { DescendOf ready.now.tree share known.old }
    ensures { (T : StageTree) → ProblemOf T ready.now.tree share
        → MeetingPlan T (plan_in ready.now.tree.stages known.old)
        → Searched T share.p share.q (length table.old / (ready.now.tree.stages + 2)) ready.now.tree.stages known.new result }
{
    let columns = table.len() / (ready.tree.stages + 2);
    let mut g: u64 = MAX_GRAIN;
    for k in (0..MAX_EXPONENT).rev() {
        g /= 2;
        let bound = rounded_cost(ready.tree.cost, known, ready.tree.stages, g);
        if qualifies(share, ready.tree.stages, g, bound) {
            let Some(v) = plan_at(table, ready, g, columns, bound, known) else {
                return Err(Unplanned::Short);
            };
            if qualifies(share, ready.tree.stages, g, v) {
                return Ok(Found { k, g, value: v });
            }
        }
    }
    // k = 0 always qualifies, so this is not reached.
    Err(Unplanned::Short)
}

// Copies the plan in the first bytes of `known` to the front of `plan`.
pub fn copy_plan(known: &[u8], stages: usize, plan: &mut [u8])
    requires { (stages ≤ length known.now) × (stages ≤ length plan.old) }
    ensures { plan.new ≡ plan_in stages known.now ++ drop stages plan.old }
{
    plan[..stages].copy_from_slice(&known[..stages]);
}

// The search over a tree: whether some plan meets timing, and if so the grain and the plan that 01 chooses, into the first bytes of `known`. Where none does
// the table is not touched.
// Kept: beside rounds_search::search_rounds: `prepare` and `feasible` are shared, the descents and their clauses (`Explored`, `BestPlanned`) are not.
fn search_tree(
    table: &mut [i64],
    tree: &Tree<'_>,
    share: Share,
    known: &mut [u8],
) -> Result<Found, Unplanned>
    requires { SearchOf tree.now share known.old }
    ensures { (T : StageTree) → ProblemOf T tree.now share
        → Explored T share.p share.q tree.now.stages table.old table.new known.new result }
{
    let mut first = [0usize; MAX_STAGES];
    // Kept: arrays of fixed size, as no heap is used; they are read as structs, `Links` and `Windows`.
    let mut next = [0usize; MAX_STAGES];
    let mut early = [0i64; MAX_STAGES];
    // Kept: arrays of fixed size, as no heap is used; they are read as structs, `Links` and `Windows`.
    let mut late = [0i64; MAX_STAGES];
    prepare(tree, &mut first, &mut next, &mut early, &mut late);
    let ready = Ready {
        tree: *tree,
        links: Links {
            first: &first,
            next: &next,
        },
        windows: Windows {
            early: &early,
            late: &late,
        },
    };
    if !feasible(&ready, known) {
        return Err(Unplanned::Late);
    }
    descend(table, &ready, share, known)
}

// What is left behind (01, Planning): after 11 table and plan buffer as they were, after 12 the table all zero; if a plan was found the table is all zero, and
// the plan opens the buffer.
pub fn leave(
    outcome: Result<Found, Unplanned>,
    known: &[u8],
    stages: usize,
    table: &mut [i64],
    plan: &mut [u8],
)
    requires { (stages ≤ length known.now) × (stages ≤ length plan.old) }
    ensures { Left stages known.now table.old table.new plan.old plan.new outcome }
{
    match outcome {
        Err(Unplanned::Late) => {}
        Err(Unplanned::Short) => table.fill(0),
        Ok(_) => {
            table.fill(0);
            copy_plan(known, stages, plan);
        }
    }
}

// The plan that 01 chooses, into the first bytes of `plan`.
// Kept: beside rounds_search::best_of_rounds: `leave` is shared, the searches and their clauses are not.
pub fn plan_tree(
    tree: &Tree<'_>,
    share: Share,
    table: &mut [i64],
    plan: &mut [u8],
) -> Result<Found, Unplanned>
    requires { PlanTreeOf tree.now share plan.old }
    ensures { (T : StageTree) → ProblemOf T tree.now share
        → Planned T share.p share.q tree.now.stages table.old table.new plan.old plan.new result }
{
    let mut known = [0u8; MAX_STAGES];
    let outcome = search_tree(table, tree, share, &mut known);
    leave(outcome, &known, tree.stages, table, plan);
    outcome
}
