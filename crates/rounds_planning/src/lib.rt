// Planning by some rounds a net that was read (02, wish 7): the rounds over its tree of stages, and what the cheapest plan that they found costs.

#![tactic(auto)]

ghost use Rattle.std.specs.Prelude.{◌≡◌, List, ℕ, ◌≤◌, length, IfOk};
ghost use Rattle.rules.specs.Reading.{accept, read};
ghost use Rattle.rules.specs.Rounds.{max_rounds, last_run};
ghost use Rattle.words.specs.Net.{net_of};
ghost use Rattle.demands.specs.StageNumbers.{tree_of};
ghost use Rattle.demands.specs.RoundsCall.{rounds_refused};
ghost use Rattle.rounds_search.specs.Planned.{BestPlanned};
ghost use Rattle.rounds_planning.specs.Calls.{RoundsAdmitted, NetRuns, PlansRounds, rounds_told};

use loads::NODE_ROWS;
use planning::{JudgedPlan, NO_LIMIT, judged_plan, numbers};
use rounds_search::best_of_rounds;
use rules::{MAX_ROUNDS, Refusal, RoundsPlanned};
use search::{Found, Unplanned};
use slices::{STAGE_ENTRIES, Tree};
use tree::{StagedNet, stages};
use words::Net;

// What r rounds over the tree of stages of a net, which has `count` of them, find: the last is due at k = 29 − r.
// Kept: planning::plan_stages has these lines with its own search, as `rounds_by` says.
fn rounds_stages(
    staged: &StagedNet<'_>,
    count: usize,
    r: u64,
    table: &mut [i64],
    plan: &mut [u8],
) -> Result<Found, Unplanned>
    requires { NetRuns staged.now.net count r (length plan.old) }
    ensures { BestPlanned (tree_of (net_of staged.now.net)) (last_run r) count table.old table.new plan.old plan.new result }
{
    let mut driver = [0usize; rules::MAX_STAGES];
    let mut wire = [0u64; STAGE_ENTRIES];
    let mut limit = [NO_LIMIT; STAGE_ENTRIES];
    let mut costs = [0u64; STAGE_ENTRIES];
    numbers(staged, &mut driver, &mut wire, &mut limit, &mut costs);
    let tree = Tree {
        driver: &driver,
        delay: &wire,
        limit: &limit,
        cost: &costs,
        stages: count,
        layers: staged.net.layers,
        arrival: staged.net.arrival(),
    };
    let last = (MAX_ROUNDS - r) as usize;
    best_of_rounds(&tree, last, table, plan)
}

// A refusal: the number and zeros.
// Kept: the clause of this public function speaks of any number, and may not change; its answer has other fields than that of `planning::refused`.
pub fn rounds_refused(m: u8) -> RoundsPlanned
    ensures { result ≡ rounds_refused m }
{
    RoundsPlanned {
        refusal: m,
        cost: 0,
        slack: 0,
        floor: 0,
        rounds: 0,
    }
}

// The answer: the cheapest plan found with refusal 0 and the rounds that were run, down to its k; or the refusal.
fn rounds_told(found: Result<JudgedPlan, Refusal>) -> RoundsPlanned
    requires { IfOk found (λ x. x.k ≤ max_rounds) }
    ensures { result ≡ rounds_told found }
{
    match found {
        Ok(plan) => RoundsPlanned {
            refusal: 0,
            cost: plan.cost,
            slack: plan.slack,
            floor: plan.floor,
            rounds: MAX_ROUNDS - plan.k,
        },
        Err(why) => rounds_refused(u8::from(why)),
    }
}

// Planning by r rounds past refusals 1 to 6, 14 and 10, for a net of `count` stages that are known: the cheapest plan of the rounds, judged as every plan is, the
// floor of the last round, which is the largest, and the rounds run; or 11, or 12.
// Kept: planning::plan_by has these lines with its own search; one function for both would ask of a closure all that the clauses of the searches say.
fn rounds_by(
    staged: &StagedNet<'_>,
    count: usize,
    r: u64,
    table: &mut [i64],
    plan: &mut [u8],
) -> Result<JudgedPlan, Refusal>
    requires { NetRuns staged.now.net count r (length plan.old) }
    ensures answer { (bs : List ℕ) → read bs ≡ accept (net_of staged.now.net)
        → PlansRounds bs r table.old table.new plan.old plan.new (rounds_told result) }
    ensures some_run { IfOk result (λ x. x.k ≤ max_rounds) }
{
    let found = rounds_stages(staged, count, r, table, plan)?;
    Ok(judged_plan(staged, &plan[..count], found))
}

// Planning by r rounds past refusals 1 to 6, 14 and 10, for a net of `count` stages.
// Kept: planning::plan_net has these lines with its own search, as `rounds_by` says.
pub fn rounds_net(
    net: &Net<'_>,
    count: usize,
    r: u64,
    table: &mut [i64],
    plan: &mut [u8],
) -> RoundsPlanned
    requires { RoundsAdmitted net.now.words.now net.now.nodes net.now.layers count r (length plan.old) }
    ensures { (bs : List ℕ) → read bs ≡ accept (net_of net.now)
        → PlansRounds bs r table.old table.new plan.old plan.new result }
{
    let mut stage = [0usize; NODE_ROWS];
    // Kept: arrays of fixed size, as no heap is used; they are read as one struct, `StagedNet`.
    let mut below = [0usize; NODE_ROWS];
    stages(net, &mut stage, &mut below);
    let staged = StagedNet {
        net: *net,
        stage: &stage,
        below: &below,
    };
    rounds_told(rounds_by(&staged, count, r, table, plan))
}
