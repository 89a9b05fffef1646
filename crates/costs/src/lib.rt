// The cost of each stage on each layer, and of a plan (01, Timing rule: cost is the sum of all edge costs on their layers).
#![tactic(auto)]

ghost use Rattle.std.specs.Prelude.{◌≡◌, ◌+◌, ◌*◌, ◌≤◌, replicate};
ghost use Rattle.rules.specs.Bytes.{max_layers, max_stages};
ghost use Rattle.rules.specs.Timing.{cost};
ghost use Rattle.words.specs.Net.{net_of};
ghost use Rattle.tree.specs.Plans.{Fitting};
ghost use Rattle.slices.specs.Rows.{RowSet};
ghost use Rattle.costs.specs.Priced.{Priced};
ghost use Rattle.costs.specs.Adding.{Room, cost_with};

use tree::EdgeStages;
use words::Net;

// Adds the costs of the edge to node j to those of stage t, on each layer.
fn add_costs(net: &Net<'_>, j: usize, t: usize, costs: &mut [u64])
    requires { (1 ≤ j) × (j ≤ net.now.nodes) × Room (net_of net.now) j t net.now.layers costs.old }
    ensures { RowSet 0 max_layers costs.old costs.new t net.now.layers (cost_with (net_of net.now) j t costs.old) }
{
    for l in 0..net.layers {
        costs[t * rules::MAX_LAYERS + l] += net.edge_cost(j, l);
    }
}

// The cost of each stage on each layer: entry t * MAX_LAYERS + l becomes that of stage t on layer l.
pub fn stage_costs(edges: &EdgeStages<'_>, costs: &mut [u64])
    requires { costs.old ≡ replicate (max_stages * max_layers) 0 }
    ensures { Priced (net_of edges.now.net) costs.new }
{
    for j in 1..=edges.net.nodes {
        add_costs(&edges.net, j, edges.stage[j], costs);
    }
}

// The cost of a plan: that of each edge on the layer of its stage, summed.
pub fn plan_cost(edges: &EdgeStages<'_>, plan: &[u8]) -> u64
    requires { Fitting (net_of edges.now.net) plan.now }
    ensures { result ≡ cost (net_of edges.now.net) plan.now }
{
    let mut total: u64 = 0;
    for j in 1..=edges.net.nodes {
        let l = usize::from(plan[edges.stage[j]]);
        total += edges.net.edge_cost(j, l);
    }
    total
}
