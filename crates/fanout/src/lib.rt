// What belongs to each of a row of numbers, as links: for the search, the stages that each stage drives. The links are made once for each call, so that no loop
// looks through all of them again and again.
#![tactic(auto)]

ghost use Rattle.std.specs.Prelude.{◌≤◌, length};
ghost use Rattle.fanout.specs.Clauses.{LinkIn, Unlinked, Linked};

// Clears the links: nothing belongs to any number yet, for which `count` stands.
fn unlink(count: usize, first: &mut [usize])
    requires { count ≤ length first.old }
    ensures { Unlinked first.old first.new count count }
{
    first[..count].fill(count);
}

// For each number the first that belongs to it, into `first`, and the next that belongs to the same, into `next`; `owner` says to which each belongs. They are
// put in front of those that the owner has, from the last on, so that the links go up in number.
// Kept: the stages driven are links by index in arrays of fixed size, as no heap is used.
pub fn link(owner: &[usize], count: usize, first: &mut [usize], next: &mut [usize])
    requires { LinkIn owner.now first.old next.old count }
    ensures { Linked owner.now first.new next.new count }
{
    unlink(count, first);
    for j in (1..count).rev() {
        let i = owner[j];
        next[j] = first[i];
        first[i] = j;
    }
}
