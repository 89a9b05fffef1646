// A tree of stages as the rounds of the search take it: its numbers, the links from each stage to those that it drives, and from when to when each can be
// reached. The three always belong together (`Prepared`, specs/Clauses.antt), so that no round asks for it again.

ghost use Rattle.rounds.specs.Clauses.{PreparedOf};

use slices::{Links, Tree, Windows};

// The tree with the links and the windows that `prepare` finds of it.
#[derive(Clone, Copy)]
pub struct Ready<'a> {
    pub tree: Tree<'a>,
    pub links: Links<'a>,
    pub windows: Windows<'a>,
    pub ghost prepared: { PreparedOf tree links windows },
}
