// Timing and cost of plans (01, Timing rule): the cost and slack that a plan of a net has.
#![tactic(auto)]

ghost use Rattle.std.specs.Prelude.{◌≡◌, List, ℕ, pos};
ghost use Rattle.rules.specs.Tree as tree;
ghost use Rattle.rules.specs.Tree.{layer_count, are_layers};
ghost use Rattle.rules.specs.Timing.{cost, slack};
ghost use Rattle.words.specs.Net.{net_of};
ghost use Rattle.tree.specs.Plans.{Fitting};
ghost use Rattle.delays.specs.Delayed.{PlanDelays};

use costs::plan_cost;
use delays::plan_delays;
use loads::NODE_ROWS;
use required::{NO_TERMINAL, Tables, link_terminals, stage_required};
use rules::Judged;
use tree::{EdgeStages, StagedNet, WireStages, stages};
use words::Net;

// Whether each layer number of a plan is below the layer count (refusal 8).
pub fn are_layers(plan: &[u8], layers: usize) -> bool
    ensures { (n : tree.Net) → layers ≡ layer_count n → result ≡ are_layers n plan.now }
{
    plan.iter().all(|l| usize::from(*l) < layers)
}

// The slack of a plan, by the delays under it: the driver's required time minus its arrival time.
fn slack_by(staged: &StagedNet<'_>, delay: &[u64]) -> i64
    requires { (plan : List ℕ) × Fitting (net_of staged.now.net) plan × PlanDelays (net_of staged.now.net) plan delay.now }
    ensures { (plan : List ℕ) → Fitting (net_of staged.now.net) plan → PlanDelays (net_of staged.now.net) plan delay.now
        → result ≡ slack (net_of staged.now.net) plan }
{
    let mut first = [NO_TERMINAL; rules::MAX_STAGES];
    // Kept: arrays of fixed size, as no heap is used; what required times need is read as one struct, `Tables`.
    let mut next = [0usize; NODE_ROWS];
    let edges = EdgeStages {
        net: staged.net,
        stage: staged.stage,
    };
    link_terminals(&edges, &mut first, &mut next);
    let tables = Tables {
        below: staged.below,
        first: &first,
        next: &next,
        delay,
    };
    let required = stage_required(&staged.net, &tables, 0);
    let arrives = staged.net.arrival();
    required - arrives
}

// The cost and slack of a plan of a net whose stages are known.
pub fn judged_by(staged: &StagedNet<'_>, plan: &[u8]) -> Judged
    requires { Fitting (net_of staged.now.net) plan.now }
    ensures { result ≡ record { refusal = 0; cost = cost (net_of staged.now.net) plan.now; slack = slack (net_of staged.now.net) plan.now } }
{
    let mut delay = [0u64; NODE_ROWS];
    let wires = WireStages {
        net: staged.net,
        below: staged.below,
    };
    plan_delays(&wires, plan, &mut delay);
    let edges = EdgeStages {
        net: staged.net,
        stage: staged.stage,
    };
    let cost = plan_cost(&edges, plan);
    let slack = slack_by(staged, &delay);
    Judged {
        refusal: 0,
        cost,
        slack,
    }
}

// The cost and slack of a plan of the net.
pub fn judged(net: &Net<'_>, plan: &[u8]) -> Judged
    requires { Fitting (net_of net.now) plan.now }
    ensures { result ≡ record { refusal = 0; cost = cost (net_of net.now) plan.now; slack = slack (net_of net.now) plan.now } }
{
    let mut stage = [0usize; NODE_ROWS];
    // Kept: arrays of fixed size, as no heap is used; what required times need is read as one struct, `Tables`.
    let mut below = [0usize; NODE_ROWS];
    stages(net, &mut stage, &mut below);
    let staged = StagedNet {
        net: *net,
        stage: &stage,
        below: &below,
    };
    judged_by(&staged, plan)
}

// A refusal of judging: the number and zeros.
// Kept: the clause of this public function speaks of any number, and may not change.
pub fn judging_refused(r: u8) -> Judged
    ensures { result ≡ record { refusal = r; cost = 0; slack = pos 0 } }
{
    Judged {
        refusal: r,
        cost: 0,
        slack: 0,
    }
}
