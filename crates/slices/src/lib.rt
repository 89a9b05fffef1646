// How tables, and the numbers of a tree of stages, lie in slices: specs/. The sizes that go with them.
#![tactic(auto)]

// A row of numbers, one for each layer, for every stage.
pub const STAGE_ENTRIES: usize = rules::MAX_STAGES * rules::MAX_LAYERS;

// A tree of stages by its numbers, as the search reads them: for each stage the stage that drives it, and in a row for its layers the delay to it, the limit
// of its sinks and its cost; how many stages and layers there are, and when the driver is reached.
#[derive(Clone, Copy)]
pub struct Tree<'a> {
    pub driver: &'a [usize],
    pub delay: &'a [u64],
    pub limit: &'a [i64],
    pub cost: &'a [u64],
    pub stages: usize,
    pub layers: usize,
    pub arrival: i64,
}

// The stages that each stage drives, as links: `first` has the first of them, `next` the next that the same stage drives (crate fanout).
#[derive(Clone, Copy)]
pub struct Links<'a> {
    pub first: &'a [usize],
    pub next: &'a [usize],
}

// From when to when each stage can be reached (crate windows).
#[derive(Clone, Copy)]
pub struct Windows<'a> {
    pub early: &'a [i64],
    pub late: &'a [i64],
}

// The columns of each stage's row that have entries: from `starts` to before `ends` (crate bands).
#[derive(Clone, Copy)]
pub struct Bands<'a> {
    pub starts: &'a [usize],
    pub ends: &'a [usize],
}

// The sizes of one round of the search: the columns of a row of the work table, and the grain.
#[derive(Clone, Copy)]
pub struct Round {
    pub width: usize,
    pub grain: u64,
}
