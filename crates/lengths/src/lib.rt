// The total edge length of a plan on each layer (02, wish 2: `length` with layer and total edge length on it).
#![tactic(auto)]

ghost use Rattle.std.specs.Prelude.{◌≡◌, map, ℕ, ◌+◌, ◌≤◌, length, get_or};
ghost use Rattle.laws.specs.Basic.{from};
ghost use Rattle.rules.specs.Bytes.{max_layers};
ghost use Rattle.rules.specs.Block.{length_on};
ghost use Rattle.facts.specs.Block.{max_block_wire};
ghost use Rattle.words.specs.Net.{net_of};
ghost use Rattle.tree.specs.Plans.{Fitting};

use tree::{StagedNet, stages};
use words::Net;

// Adds the length of each edge to that on the layer of its stage: the stage of the wire below its parent.
fn add_edges(staged: &StagedNet<'_>, plan: &[u8], lengths: &mut [u64])
    requires { Fitting (net_of staged.now.net) plan.now × (length lengths.old ≡ max_layers) × ((l : ℕ) → get_or lengths.old l 0 ≤ max_block_wire) }
    ensures { lengths.new ≡ map (λ l. get_or lengths.old l 0 + length_on (net_of staged.now.net) plan.now l) (from 0 max_layers) }
{
    for j in 1..=staged.net.nodes {
        let node = staged.net.node(j);
        let l = usize::from(plan[staged.below[node.parent]]);
        lengths[l] += node.len;
    }
}

// Adds the total edge length of the net on each layer under a plan of it to what stands in `lengths`, by layer number.
pub fn add_lengths(net: &Net<'_>, plan: &[u8], lengths: &mut [u64])
    requires { Fitting (net_of net.now) plan.now × (length lengths.old ≡ max_layers) ×
        ((l : ℕ) → get_or lengths.old l 0 ≤ max_block_wire) }
    ensures { lengths.new ≡ map (λ l. get_or lengths.old l 0 + length_on (net_of net.now) plan.now l) (from 0 max_layers) }
{
    let mut stage = [0usize; rules::MAX_NODES + 1];
    // Kept: arrays of fixed size, as no heap is used; they are read as one struct, `StagedNet`.
    let mut below = [0usize; rules::MAX_NODES + 1];
    stages(net, &mut stage, &mut below);
    let staged = StagedNet {
        net: *net,
        stage: &stage,
        below: &below,
    };
    add_edges(&staged, plan, lengths);
}
