// The bands of the stages that a stage drives, merged (source 001, section 4.2.2): what a layer of the stage asks besides its cost. Behind the rows of the
// stages stand two rows for merging.
#![tactic(auto)]

ghost use Rattle.std.specs.Prelude.{◌≡◌};
ghost use Rattle.bands.specs.Clauses.{BranchIn};
ghost use Rattle.branches.specs.Clauses.{Limited, SeenIn, Seen, BranchesOf, JoinedOf};

use bands::{Part, branch, fill, merge};
use rules::MAX_LAYERS;
use slices::{Bands, Links, Tree};

// A band under a limit: the band itself if no time asked is later than the limit, as they are `late` at most, else row `out`. Its columns stay.
fn limited(table: &mut [i64], part: Part, limit: i64, late: i64, out: usize) -> Part
    requires { BranchIn table.old part.row out part.start part.end part.delay limit }
    ensures band { Limited table.old table.new part.row part.start part.end part.delay limit late out
        result.row result.delay }
    ensures start { result.start ≡ part.start }
    ensures end { result.end ≡ part.end }
{
    if late <= limit {
        return part;
    }
    branch(table, part, out, limit);
    Part {
        row: out,
        delay: 0,
        ..part
    }
}

// What its driving stage, on layer `l`, sees of stage `j`, whose row is `row`: its band over the delay, for budgets below `left`.
fn seen(tree: &Tree<'_>, bands: &Bands<'_>, row: usize, left: usize, j: usize, l: usize) -> Part
    requires { SeenIn tree.now.delay.now bands.now.starts.now bands.now.ends.now j l }
    ensures { Seen tree.now.delay.now bands.now.starts.now bands.now.ends.now row left j l
        result.row result.start result.end result.delay }
{
    Part {
        row,
        start: bands.starts[j].min(left),
        end: bands.ends[j].min(left),
        delay: tree.delay[j * MAX_LAYERS + l],
    }
}

// The bands of the stages that stage `i` drives, `i` on layer `l`, merged under its own limit, for budgets below `left` and times up to `late`.
// Kept: what stays for a round is in the structs; what is left differs from call to call.
pub fn branches(
    table: &mut [i64],
    tree: &Tree<'_>,
    links: &Links<'_>,
    bands: &Bands<'_>,
    width: usize,
    left: usize,
    i: usize,
    l: usize,
    late: i64,
) -> Part
    requires { BranchesOf table.old tree.now links.now bands.now width left i l }
    ensures { JoinedOf table.old table.new tree.now bands.now width left i l late result }
{
    let own = tree.limit[i * MAX_LAYERS + l];
    let mut other = tree.stages * width;
    let mut spare = other + width;
    let mut j = links.first[i];
    if tree.stages <= j {
        fill(table, other, 0, 1, own);
        return Part {
            row: other,
            start: 0,
            end: 1,
            delay: 0,
        };
    }
    let begun = seen(tree, bands, j * width, left, j, l);
    let mut part = limited(table, begun, own, late, other);
    j = links.next[j];
    // Kept: the stages driven are links by index, as no heap is used; the loop follows them and counts nothing.
    while j < tree.stages {
        let more = seen(tree, bands, j * width, left, j, l);
        let end = merge(table, part, more, spare, left);
        part.row = spare;
        part.start = (part.start + more.start).min(left);
        part.end = end;
        part.delay = 0;
        spare = other;
        other = part.row;
        j = links.next[j];
    }
    part
}
