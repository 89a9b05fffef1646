// Planning a net that was read (01, Planning): the numbers of its tree of stages, the search over the grains, and what the plan found costs.

#![tactic(auto)]

ghost use Rattle.std.specs.Prelude.{◌≡◌, List, ℕ, ◌*◌, ◌^◌, ◌<◌, length, replicate};
ghost use Rattle.rules.specs.Bytes.{max_layers, max_stages};
ghost use Rattle.rules.specs.Grain.{max_exponent};
ghost use Rattle.rules.specs.Timing.{cost, slack};
ghost use Rattle.rules.specs.Reading.{accept, read};
ghost use Rattle.words.specs.Net.{net_of};
ghost use Rattle.demands.specs.StageNumbers.{tree_of};
ghost use Rattle.demands.specs.Call.{refused_with};
ghost use Rattle.tree.specs.Plans.{Fitting};
ghost use Rattle.slices.specs.Laid.{Laid, no_limit};
ghost use Rattle.search.specs.Planned as search;
ghost use Rattle.planning.specs.Calls.{Admitted, PlansNet, told};
ghost use Rattle.planning.specs.Nets.{NetAdmitted};

use costs::stage_costs;
use delays::layer_delays;
use loads::NODE_ROWS;
use rules::{Planned, Refusal};
use search::{Found, Share, Unplanned, plan_tree};
use slices::{STAGE_ENTRIES, Tree};
use stage_numbers::stage_numbers;
use timing::judged_by;
use tree::{EdgeStages, StagedNet, WireStages, stages};
use words::Net;

// What stands for no limit at all: no time that is compared with it is later.
pub const NO_LIMIT: i64 = 0x4000_0000_0000_0000;

// The numbers of a net's tree of stages, for the search: for each stage its driver, and on each layer the delay to it, the limit of its sinks and its cost.
// Kept: four arrays lent by the caller: handed back in a struct they stood on the stack three times more, 77,000 bytes.
pub fn numbers(
    staged: &StagedNet<'_>,
    driver: &mut [usize],
    wire: &mut [u64],
    limit: &mut [i64],
    costs: &mut [u64],
)
    requires { (length driver.old ≡ max_stages) × (length wire.old ≡ max_stages * max_layers) ×
        (limit.old ≡ replicate (max_stages * max_layers) no_limit) × (costs.old ≡ replicate (max_stages * max_layers) 0) }
    ensures { Laid (tree_of (net_of staged.now.net)) driver.new wire.new limit.new costs.new }
{
    let mut delay = [0u64; NODE_ROWS * rules::MAX_LAYERS];
    let wires = WireStages {
        net: staged.net,
        below: staged.below,
    };
    layer_delays(&wires, &mut delay);
    stage_numbers(staged, &delay, driver, wire, limit);
    let edges = EdgeStages {
        net: staged.net,
        stage: staged.stage,
    };
    stage_costs(&edges, costs);
}

// What the search over the tree of stages of a net finds, which has `count` of them.
// Kept: rounds_planning::rounds_stages has these lines with its own search, as `plan_by` says.
fn plan_stages(
    staged: &StagedNet<'_>,
    count: usize,
    share: Share,
    table: &mut [i64],
    plan: &mut [u8],
) -> Result<Found, Unplanned>
    requires { NetAdmitted staged.now.net count share (length plan.old) }
    ensures { search.Planned (tree_of (net_of staged.now.net)) share.p share.q count table.old table.new plan.old plan.new result }
{
    let mut driver = [0usize; rules::MAX_STAGES];
    let mut wire = [0u64; STAGE_ENTRIES];
    let mut limit = [NO_LIMIT; STAGE_ENTRIES];
    let mut costs = [0u64; STAGE_ENTRIES];
    numbers(staged, &mut driver, &mut wire, &mut limit, &mut costs);
    let tree = Tree {
        driver: &driver,
        delay: &wire,
        limit: &limit,
        cost: &costs,
        stages: count,
        layers: staged.net.layers,
        arrival: staged.net.arrival(),
    };
    plan_tree(&tree, share, table, plan)
}

// A plan that was found, judged as every plan is, with k of its grain and the floor g × V(k).
#[derive(Clone, Copy)]
pub struct JudgedPlan {
    pub cost: u64,
    pub slack: i64,
    pub k: u64,
    pub floor: u64,
}

// What planning tells of the plan that was found.
pub fn judged_plan(staged: &StagedNet<'_>, plan: &[u8], found: Found) -> JudgedPlan
    requires { Fitting (net_of staged.now.net) plan.now × (found.g * found.value < 2 ^ max_exponent) }
    ensures { result ≡ record {
      cost = cost (net_of staged.now.net) plan.now;
      slack = slack (net_of staged.now.net) plan.now;
      k = found.k;
      floor = found.g * found.value;
    } }
{
    let answer = judged_by(staged, plan);
    JudgedPlan {
        cost: answer.cost,
        slack: answer.slack,
        k: found.k as u64,
        floor: found.g * (found.value as u64),
    }
}

// A refusal: the number and zeros.
// Kept: the clause of this public function speaks of any number, and may not change.
pub fn refused(r: u8) -> Planned
    ensures { result ≡ refused_with r }
{
    Planned {
        refusal: r,
        cost: 0,
        slack: 0,
        k: 0,
        floor: 0,
    }
}

// The answer: the plan found with refusal 0, or the refusal.
fn told(found: Result<JudgedPlan, Refusal>) -> Planned
    ensures { result ≡ told found }
{
    match found {
        Ok(plan) => Planned {
            refusal: 0,
            cost: plan.cost,
            slack: plan.slack,
            k: plan.k,
            floor: plan.floor,
        },
        Err(why) => refused(u8::from(why)),
    }
}

// Planning past refusals 1 to 10, for a net of `count` stages that are known: the plan that 01 chooses, judged as every plan is, and the floor g × V(k); or 11, or 12.
// Kept: rounds_planning::rounds_by has these lines with its own search; one function for both would ask of a closure all that the clauses of the searches say.
fn plan_by(
    staged: &StagedNet<'_>,
    count: usize,
    share: Share,
    table: &mut [i64],
    plan: &mut [u8],
) -> Result<JudgedPlan, Refusal>
    requires { NetAdmitted staged.now.net count share (length plan.old) }
    ensures { (bs : List ℕ) → read bs ≡ accept (net_of staged.now.net)
        → PlansNet bs share.p share.q table.old table.new plan.old plan.new (told result) }
{
    let found = plan_stages(staged, count, share, table, plan)?;
    Ok(judged_plan(staged, &plan[..count], found))
}

// Planning past refusals 1 to 10, for a net of `count` stages.
// Kept: rounds_planning::rounds_net has these lines with its own search, as `plan_by` says.
pub fn plan_net(
    net: &Net<'_>,
    count: usize,
    p: u64,
    q: u64,
    table: &mut [i64],
    plan: &mut [u8],
) -> Planned
    requires { Admitted net.now.words.now net.now.nodes net.now.layers count p q (length plan.old) }
    ensures { (bs : List ℕ) → read bs ≡ accept (net_of net.now)
        → PlansNet bs p q table.old table.new plan.old plan.new result }
{
    let mut stage = [0usize; NODE_ROWS];
    // Kept: arrays of fixed size, as no heap is used; they are read as one struct, `StagedNet`.
    let mut below = [0usize; NODE_ROWS];
    stages(net, &mut stage, &mut below);
    let staged = StagedNet {
        net: *net,
        stage: &stage,
        below: &below,
    };
    told(plan_by(&staged, count, Share { p, q }, table, plan))
}
