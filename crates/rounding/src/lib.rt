// Costs rounded to a grain (01, Rounded cost and the grain): a plan's rounded cost, and what each stage on each layer costs above the least of its layers.
// Taking that least off beforehand leaves fewer budgets for the search.
#![tactic(auto)]

ghost use Rattle.std.specs.Prelude.{◌≡◌, ℕ, ◌-◌, ◌/◌, ◌^◌};
ghost use Rattle.laws.specs.Basic.{from, lowest};
ghost use Rattle.oracle.specs.Stages.{StageTree};
ghost use Rattle.oracle.specs.Value.{plan_rounded, MeetingPlan};
ghost use Rattle.rules.specs.Bytes.{max_layers};
ghost use Rattle.slices.specs.Laid.{on_layer};
ghost use Rattle.slices.specs.Rows.{RowSet};
ghost use Rattle.rounding.specs.Clauses.{Costs, plan_in, OnLayerIn, PricedPlan, CostRow, ExcessRowIn, ExcessIn, Excess};

use rules::MAX_LAYERS;
use slices::Tree;

// The rounded cost of stage i on a layer.
fn stage_rounded(cost: &[u64], g: u64, i: usize, layer: u8) -> usize
    requires { OnLayerIn cost.now g i layer }
    ensures { result ≡ on_layer cost.now i layer / g }
{
    (cost[i * MAX_LAYERS + usize::from(layer)] / g) as usize
}

// The rounded cost of the plan in the first bytes of `plan`: the sum over stages.
pub fn rounded_cost(cost: &[u64], plan: &[u8], stages: usize, g: u64) -> usize
    requires { PricedPlan cost.now plan.now stages g }
    ensures { (T : StageTree) (k : ℕ) → Costs T cost.now stages → g ≡ 2 ^ k
        → MeetingPlan T (plan_in stages plan.now) → result ≡ plan_rounded T k (plan_in stages plan.now) }
{
    let mut total = 0;
    for i in 0..stages {
        total += stage_rounded(cost, g, i, plan[i]);
    }
    total
}

// The least rounded cost of stage i over the layers.
fn least_rounded(tree: &Tree<'_>, g: u64, i: usize) -> u64
    requires { CostRow tree.now.cost.now tree.now.layers g i }
    ensures { result ≡ lowest (λ l. on_layer tree.now.cost.now i l / g) (from 0 tree.now.layers) }
{
    let mut least = tree.cost[i * MAX_LAYERS] / g;
    for l in 1..tree.layers {
        least = least.min(tree.cost[i * MAX_LAYERS + l] / g);
    }
    least
}

// Row i of `excess`: what the rounded cost on each layer is above the least of them.
fn excess_row(tree: &Tree<'_>, g: u64, i: usize, least: u64, excess: &mut [u64])
    requires { ExcessRowIn tree.now.cost.now tree.now.layers g i least excess.old }
    ensures { RowSet 0 max_layers excess.old excess.new i tree.now.layers (λ l. on_layer tree.now.cost.now i l / g - least) }
{
    for l in 0..tree.layers {
        let at = i * MAX_LAYERS + l;
        excess[at] = tree.cost[at] / g - least;
    }
}

// What every stage on each layer costs above its least, into `excess`; gives the sum of what is taken off.
pub fn excess_costs(tree: &Tree<'_>, g: u64, excess: &mut [u64]) -> usize
    requires { ExcessIn tree.now.cost.now tree.now.stages tree.now.layers g excess.old }
    ensures { (T : StageTree) (k : ℕ) → Costs T tree.now.cost.now tree.now.stages → tree.now.layers ≡ T.layers → g ≡ 2 ^ k
        → Excess T k excess.new result }
{
    let mut base = 0;
    for i in 0..tree.stages {
        let least = least_rounded(tree, g, i);
        excess_row(tree, g, i, least, excess);
        base += least as usize;
    }
    base
}
