// The plan read off the finished work table: columns looked up in its rows, and at each stage in number order the first layer that attains the least.
#![tactic(auto)]

ghost use Rattle.std.specs.Prelude.{◌≡◌, ◌+◌, ◌*◌, ◌≤◌, ◌<◌, length};
ghost use Rattle.oracle.specs.Stages.{StageTree};
ghost use Rattle.rules.specs.Bytes.{max_layers};
ghost use Rattle.slices.specs.Laid.{max_delay, on_layer};
ghost use Rattle.readoff.specs.Clauses.{Near, Column, arrive_at, DrivenIn, DrivenNeed, SizedOf, NeedOf, FirstLayerOf, PushOf, PushedOf, ReadOf, PlanReadOf};

use slices::{Bands, Links, Round, Tree};

// The first column of the row at `off` whose entry is no earlier than t, in its band from `start` to before `end`, and `width` if there is none.
// Kept: a number where there is none: needs are added up and compared with the width, and an Option would be unpacked at each sum.
pub fn least_column(
    table: &[i64],
    off: usize,
    start: usize,
    end: usize,
    width: usize,
    t: i64,
) -> usize
    requires { (0 < width) × (start ≤ end) × (end ≤ width) × (off + width ≤ length table.now) }
    ensures { Column table.now off start end width t result }
{
    let c = bands::first_column(table, off, start, end, t);
    if c < end {
        return c;
    }
    width
}

// When stage j is reached, if the stage that drives it is on layer l and is reached at t.
fn reached_at(delay: &[u64], j: usize, l: usize, t: i64) -> i64
    requires { (j * max_layers + l < length delay.now) × (on_layer delay.now j l ≤ max_delay) × Near t }
    ensures { result ≡ arrive_at delay.now j l t }
{
    let d = delay[j * rules::MAX_LAYERS + l];
    t + (d as i64)
}

// What stage j needs, if the stage that drives it is on layer l and is reached at t.
// Kept: what stays for a round is in the structs; what is left differs from call to call.
fn driven_need(
    table: &[i64],
    tree: &Tree<'_>,
    bands: &Bands<'_>,
    width: usize,
    l: usize,
    t: i64,
    j: usize,
) -> usize
    requires { DrivenIn table.now tree.now.delay.now bands.now.starts.now bands.now.ends.now width l t j }
    ensures { DrivenNeed table.now tree.now.delay.now bands.now.starts.now bands.now.ends.now width l t j result }
{
    let reached = reached_at(tree.delay, j, l, t);
    let start = bands.starts[j];
    let end = bands.ends[j];
    least_column(table, j * width, start, end, width, reached)
}

// What stage i on layer l, reached at t, needs with all that it drives; `width` or more if that is above every budget.
// Kept: a number where there is none: needs are added up and compared with the width, and an Option would be unpacked at each sum.
fn need_on(
    table: &[i64],
    tree: &Tree<'_>,
    links: &Links<'_>,
    bands: &Bands<'_>,
    n: Round,
    i: usize,
    l: usize,
    t: i64,
) -> usize
    requires { ((T : StageTree) × SizedOf T table.now tree.now links.now bands.now n × (l < T.layers)) × (i < tree.now.stages) × Near t }
    ensures { NeedOf table.now tree.now links.now bands.now n i l t result }
{
    let at = i * rules::MAX_LAYERS + l;
    let last = tree.limit[at];
    if last < t {
        return n.width;
    }
    let mut need = (tree.cost[at] / n.grain) as usize;
    let mut j = links.first[i];
    // Kept: the stages driven are links by index, as no heap is used; the loop follows them and counts nothing.
    while j < tree.stages {
        need += driven_need(table, tree, bands, n.width, l, t, j);
        j = links.next[j];
    }
    need
}

// The first layer with which stage i, reached at t, needs no more than its least.
// Kept: what stays for a round is in the structs; what is left differs from call to call.
fn layer_for(
    table: &[i64],
    tree: &Tree<'_>,
    links: &Links<'_>,
    bands: &Bands<'_>,
    n: Round,
    i: usize,
    t: i64,
) -> usize
    requires { ((T : StageTree) × SizedOf T table.now tree.now links.now bands.now n × (tree.now.layers ≡ T.layers)) × (i < tree.now.stages) × Near t }
    ensures { FirstLayerOf table.now tree.now links.now bands.now n i t result }
{
    let start = bands.starts[i];
    let end = bands.ends[i];
    let least = least_column(table, i * n.width, start, end, n.width, t);
    let last = tree.layers - 1;
    for l in 0..last {
        if need_on(table, tree, links, bands, n, i, l, t) <= least {
            return l;
        }
    }
    last
}

// Stage i on layer l passes its time on to the stages that it drives.
fn push(tree: &Tree<'_>, links: &Links<'_>, times: &mut [i64], i: usize, l: usize)
    requires { PushOf tree.now links.now times.old i l }
    ensures { PushedOf tree.now times.old i l times.new }
{
    let t = times[i];
    let mut to = links.first[i];
    // Kept: the stages driven are links by index, as no heap is used; the loop follows them and counts nothing.
    while to < tree.stages {
        let reached = reached_at(tree.delay, to, l, t);
        times[to] = reached;
        to = links.next[to];
    }
}

// The plan, into the first bytes of `plan`; `times` is room for the times at which the stages are reached.
// Kept: what stays for a round is in the structs; the two arrays lent are written.
pub fn read_plan(
    table: &[i64],
    tree: &Tree<'_>,
    links: &Links<'_>,
    bands: &Bands<'_>,
    n: Round,
    times: &mut [i64],
    plan: &mut [u8],
)
    requires { ReadOf table.now tree.now links.now bands.now n times.old plan.old }
    ensures { PlanReadOf table.now tree.now links.now bands.now n plan.old plan.new }
{
    times[0] = tree.arrival;
    for i in 0..tree.stages {
        let t = times[i];
        let l = layer_for(table, tree, links, bands, n, i, t);
        plan[i] = l as u8;
        push(tree, links, times, i, l);
    }
}
