// The steps on the rows of the work table (source 001, section 4.2). Entry w of a row is the latest time at which its stage may be reached with budget w. A
// row is named by its offset in the table, and has entries in its band only, from `start` to before `end`: with less than `start` no time is met at which the
// stage can be reached, and what is not met before `end` is met with no budget. A row over a delay d is read d earlier.
#![tactic(auto)]

ghost use Rattle.std.specs.Prelude.{◌+◌, ◌≤◌, length};
ghost use Rattle.oracle.specs.Band.{FirstIn};
ghost use Rattle.bands.specs.Entries.{row_at};
ghost use Rattle.bands.specs.Clauses.{Filled, BranchIn, Branched, MergeIn, Merged, SpendIn, Spent, RaiseIn, RaisedRow, Widened, Cut};

// No time at all: it is before every time at which a stage is reached. (specs/Entries.antt has it for the contracts.)
pub const NEVER: i64 = -4_611_686_018_427_387_904;

// The columns of a row from `start` to before `end` become `value`.
pub fn fill(table: &mut [i64], row: usize, start: usize, end: usize, value: i64)
    requires { row + end ≤ length table.old }
    ensures { Filled table.old table.new row start end value }
{
    if start < end {
        table[row + start..row + end].fill(value);
    }
}

// A band over a delay: its row, its columns, and the delay.
#[derive(Clone, Copy)]
pub struct Part {
    pub row: usize,
    pub start: usize,
    pub end: usize,
    pub delay: u64,
}

// The band of a stage that is driven over a delay, under the driving stage's own limit.
pub fn branch(table: &mut [i64], part: Part, out: usize, limit: i64)
    requires { BranchIn table.old part.row out part.start part.end part.delay limit }
    ensures { Branched table.old table.new part.row out part.start part.end part.delay limit }
{
    let row = part.row;
    let end = part.end;
    let delay = part.delay as i64;
    for w in part.start..end {
        let x = table[row + w] - delay;
        table[out + w] = x.min(limit);
    }
}

// Two bands merged: of two pointers the one with the lesser entry steps (source 001, section 4.2.2). The first column is the sum of theirs; gives the end,
// `width` at most.
pub fn merge(table: &mut [i64], a: Part, b: Part, out: usize, width: usize) -> usize
    requires { MergeIn table.old a.row a.start a.end a.delay b.row b.start b.end b.delay out width }
    ensures { Merged table.old table.new a.row a.start a.end a.delay b.row b.start b.end b.delay
        out width result }
{
    let row_a = a.row;
    let end_a = a.end;
    let delay_a = a.delay as i64;
    let row_b = b.row;
    let end_b = b.end;
    let delay_b = b.delay as i64;
    let mut i = a.start;
    let mut j = b.start;
    for w in a.start + b.start..width {
        if i == end_a || j == end_b {
            return w;
        }
        let x = table[row_a + i] - delay_a;
        let y = table[row_b + j] - delay_b;
        if x <= y {
            table[out + w] = x;
            i += 1;
        } else {
            table[out + w] = y;
            j += 1;
        }
    }
    width
}

// Row `out` becomes the better of itself and the columns of a band, at cost `c`. From the last column to the first: in this order the compiler leaves the
// loop scalar, which takes half the instructions.
pub fn spend(table: &mut [i64], part: Part, out: usize, c: usize)
    requires { SpendIn table.old part.row out part.start part.end c part.delay }
    ensures { Spent table.old table.new part.row out part.start part.end c part.delay }
{
    let row = part.row;
    let start = part.start;
    let delay = part.delay as i64;
    for i in (start..part.end).rev() {
        let x = table[row + i] - delay;
        let y = table[out + (c + i)];
        if y <= x {
            table[out + (c + i)] = x;
        }
    }
}

// The columns of a row before `top` raised from left to right: a larger budget is never worse.
pub fn raise(table: &mut [i64], row: usize, top: usize)
    requires { RaiseIn table.old row top }
    ensures { RaisedRow table.old table.new row top }
{
    let mut best = NEVER;
    for w in 0..top {
        let x = table[row + w];
        if best <= x {
            best = x;
        } else {
            table[row + w] = best;
        }
    }
}

// The columns of a row from `top` to before `to` become NEVER, if there are such. Gives the end of the columns that are filled.
pub fn widen(table: &mut [i64], row: usize, top: usize, to: usize) -> usize
    requires { row + to ≤ length table.old }
    ensures { Widened table.old table.new row top to result }
{
    if to <= top {
        return top;
    }
    fill(table, row, top, to, NEVER);
    to
}

// A first column of a row, from `start` to before `end`, whose entry is no earlier than t, and `end` if there is none, by halving.
pub fn first_column(table: &[i64], row: usize, start: usize, end: usize, t: i64) -> usize
    requires { (start ≤ end) × (row + end ≤ length table.now) }
    ensures { FirstIn (row_at table.now row) start end t result }
{
    // Kept: the slice's `partition_point` promises its place only where the entries are sorted, and `FirstIn` is promised of any row.
    let mut low = start;
    let mut high = end;
    while low < high {
        let mid = low + (high - low) / 2;
        let x = table[row + mid];
        if t <= x {
            high = mid;
        } else {
            low = mid + 1;
        }
    }
    low
}

// The columns of a row that are kept: its band.
#[derive(Clone, Copy)]
pub struct Span {
    pub start: usize,
    pub end: usize,
}

// The columns of a raised row that matter for times from `early` to `late`: from the first that meets `early` to the first that meets `late`, or as much as
// the last does.
pub fn cut(table: &[i64], row: usize, top: usize, early: i64, late: i64) -> Span
    requires { row + top ≤ length table.now }
    ensures { Cut table.now row top early late result.start result.end }
{
    let start = first_column(table, row, 0, top, early);
    if top <= start {
        return Span {
            start: top,
            end: top,
        };
    }
    let n = top - 1;
    let last = table[row + n];
    let c = first_column(table, row, start, top, late.min(last));
    Span { start, end: c + 1 }
}
