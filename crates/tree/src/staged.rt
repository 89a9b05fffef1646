// A net that was read with its stages, as the functions that time and plan it take it: the net and its two tables, which always belong together (`staged`,
// specs/Staged.antt), so that a function that takes them need not ask for it. A public one that reads a single table takes the net with that alone.

ghost use Rattle.std.specs.Prelude.{List, ℕ};
ghost use Rattle.words.specs.Words.{net_in};
ghost use Rattle.tree.specs.Staged.{Staged};

use words::Net;

// A net that was read, with the stage of the edge above each node and of the wire below it.
#[derive(Clone, Copy)]
pub struct StagedNet<'a> {
    pub net: Net<'a>,
    pub stage: &'a [usize],
    pub below: &'a [usize],
    pub ghost staged: { ∥ Staged (net_in net.words.now) stage.now below.now ∥₁ },
}

// A net that was read, with the stage of the edge above each node.
#[derive(Clone, Copy)]
pub struct EdgeStages<'a> {
    pub net: Net<'a>,
    pub stage: &'a [usize],
    pub ghost staged: { ∥ ((below : List ℕ) × Staged (net_in net.words.now) stage.now below) ∥₁ },
}

// A net that was read, with the stage of the wire below each node.
#[derive(Clone, Copy)]
pub struct WireStages<'a> {
    pub net: Net<'a>,
    pub below: &'a [usize],
    pub ghost staged: { ∥ ((stage : List ℕ) × Staged (net_in net.words.now) stage below.now) ∥₁ },
}
