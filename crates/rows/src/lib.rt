// The rows of the work table for one grain (source 001, section 4.2), each with the entries of its band only (crate bands). Behind the rows of the stages
// stand two rows for merging.
#![tactic(auto)]

ghost use Rattle.std.specs.Prelude.{◌≤◌, length};
ghost use Rattle.rows.specs.Clauses.{LayerOf, LayeredOf, StageRowInOf, StageRowOf, RowsOf, AllRowsOf};

use bands::{Span, cut, raise, spend, widen};
use branches::branches;
use rules::MAX_LAYERS;
use slices::{Bands, Links, Round, Tree, Windows};

// Row `i`, filled before column `top`, becomes the better of itself and what layer `l` gives at its rounded cost. A layer that costs more than every budget,
// or whose limit is before every time asked, gives nothing. Gives the end of the columns that are filled.
// Kept: what stays for a round is in the structs; what is left differs from call to call.
fn layer(
    table: &mut [i64],
    tree: &Tree<'_>,
    links: &Links<'_>,
    bands: &Bands<'_>,
    n: Round,
    i: usize,
    l: usize,
    early: i64,
    late: i64,
    top: usize,
) -> usize
    requires { LayerOf table.old tree.now links.now bands.now n i l top }
    ensures { LayeredOf table.old table.new tree.now bands.now n i l early late top result }
{
    let at = i * MAX_LAYERS + l;
    let width = n.width;
    let c = (tree.cost[at] / n.grain) as usize;
    if width <= c {
        return top;
    }
    let own = tree.limit[at];
    if own < early {
        return top;
    }
    let part = branches(table, tree, links, bands, width, width - c, i, l, late);
    let row = i * width;
    let wide = widen(table, row, top, c + part.end);
    spend(table, part, row, c);
    wide
}

// The band of stage `i`, which is reached from `early` to `late`: the best of its layers, raised and cut.
// Kept: what stays for a round is in the structs; what is left differs from call to call.
fn stage_row(
    table: &mut [i64],
    tree: &Tree<'_>,
    links: &Links<'_>,
    bands: &Bands<'_>,
    n: Round,
    i: usize,
    early: i64,
    late: i64,
) -> Span
    requires { StageRowInOf table.old tree.now links.now bands.now n i }
    ensures { StageRowOf table.old table.new tree.now bands.now n i early late result }
{
    let mut top = 0;
    for l in 0..tree.layers {
        top = layer(table, tree, links, bands, n, i, l, early, late, top);
    }
    let row = i * n.width;
    raise(table, row, top);
    cut(table, row, top, early, late)
}

// The bands of all stages, from the last stage's to the first: a stage drives stages of higher number. Stage i is reached from early[i] to late[i].
// Kept: what stays for a call is in the structs; three arrays are lent to be written.
pub fn fill_rows(
    table: &mut [i64],
    tree: &Tree<'_>,
    links: &Links<'_>,
    windows: &Windows<'_>,
    starts: &mut [usize],
    ends: &mut [usize],
    n: Round,
)
    requires { RowsOf table.old tree.now links.now starts.old ends.old n
        × (tree.now.stages ≤ length windows.now.early.now) × (tree.now.stages ≤ length windows.now.late.now) }
    ensures { AllRowsOf table.old table.new tree.now windows.now starts.old ends.old starts.new ends.new n }
{
    for i in (0..tree.stages).rev() {
        let bands = Bands { starts, ends };
        let span = stage_row(
            table,
            tree,
            links,
            &bands,
            n,
            i,
            windows.early[i],
            windows.late[i],
        );
        starts[i] = span.start;
        ends[i] = span.end;
    }
}
