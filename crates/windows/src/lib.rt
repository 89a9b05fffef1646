// The windows of the stages: from when to when each can be reached, whatever the layers. The rows of the work table are cut to them.
#![tactic(auto)]

ghost use Rattle.std.specs.Prelude.{◌≡◌, ◌+◌, ◌*◌, ◌≤◌, ◌<◌, length, pos, ◌+ℤ◌};
ghost use Rattle.rules.specs.Bytes.{max_layers};
ghost use Rattle.oracle.specs.Stages.{StageTree};
ghost use Rattle.slices.specs.Laid.{max_delay};
ghost use Rattle.readoff.specs.Clauses.{Near};
ghost use Rattle.windows.specs.Clauses.{DelayRange, WindowsOf, Opened};

use slices::Tree;

// The least and the greatest delay to a stage.
#[derive(Clone, Copy)]
struct Delays {
    least: u64,
    most: u64,
}

// The delays to stage j over the layers of the stage that drives it.
fn delay_range(delay: &[u64], layers: usize, j: usize) -> Delays
    requires { (0 < layers) × (j * max_layers + layers ≤ length delay.now) }
    ensures { DelayRange delay.now layers j layers result.least result.most }
{
    let at = j * rules::MAX_LAYERS;
    let mut least = delay[at];
    let mut most = least;
    for l in 1..layers {
        least = least.min(delay[at + l]);
        most = most.max(delay[at + l]);
    }
    Delays { least, most }
}

// A time d later.
// Kept: a sum with a clause in whole numbers; `+` alone says so of the machine's integers.
fn after(t: i64, d: u64) -> i64
    requires { (d ≤ max_delay) × Near t }
    ensures { result ≡ t +ℤ pos d }
{
    t + (d as i64)
}

// The earliest and the latest time at which each stage can be reached, whatever the layers.
pub fn windows(tree: &Tree<'_>, early: &mut [i64], late: &mut [i64])
    requires { ((T : StageTree) × WindowsOf T tree.now) × (tree.now.stages ≤ length early.old) × (tree.now.stages ≤ length late.old) }
    ensures { (T : StageTree) → WindowsOf T tree.now → Opened T early.new late.new }
{
    early[0] = tree.arrival;
    late[0] = tree.arrival;
    for j in 1..tree.stages {
        let i = tree.driver[j];
        let range = delay_range(tree.delay, tree.layers, j);
        early[j] = after(early[i], range.least);
        late[j] = after(late[i], range.most);
    }
}
