// A net that was read, as the functions above the reader take it: the array that holds it and its counts, which always belong together (`held`,
// specs/Net.antt), so that a function that takes one need not ask for it. Those of planning that speak of all that is known past the refusals (`Admitted` in
// planning, `RoundsAdmitted` in rounds_planning) ask for it with the rest, as their callers have it.

ghost use Rattle.std.specs.Prelude.{◌≡◌, ℕ, ◌≤◌, ◌<◌, length};
ghost use Rattle.rules.specs.Tree.{layer_count, at};
ghost use Rattle.rules.specs.Timing.{layer, edge_cost};
ghost use Rattle.words.specs.Words.{net_in};
ghost use Rattle.words.specs.Held.{Held, record_of};

use crate::{
    Node, arrival, edge_cost, layer_count, node_at, node_count, unit_cap, unit_res, via_res,
};

// The net in an array, with its nodes after the driver and its layers.
#[derive(Clone, Copy)]
pub struct Net<'a> {
    pub words: &'a [u32],
    pub nodes: usize,
    pub layers: usize,
    pub ghost held: { ∥ Held words.now nodes layers ∥₁ },
}

impl<'a> Net<'a> {
    ghost use Rattle.words.specs.Net.{net_of};

    // The net in an array that holds one. Its counts stand in the array too, so who has the array alone can make it.
    pub fn of(words: &'a [u32]) -> Net<'a>
        requires { (nodes : ℕ) × (layers : ℕ) × Held words.now nodes layers }
        ensures { (result.words.now ≡ words.now) × (result.nodes ≡ length (net_in words.now).nodes) × (result.layers ≡ layer_count (net_in words.now)) }
    {
        Net {
            words,
            nodes: node_count(words),
            layers: layer_count(words),
        }
    }

    // Node j.
    pub fn node(&self, j: usize) -> Node
        requires { (1 ≤ j) × (j ≤ self.now.nodes) }
        ensures { result ≡ record_of (at (net_of self.now) j) }
    {
        node_at(self.words, j)
    }

    // The unit resistance of layer l.
    // Kept: three methods, as callers ask for one number of a layer at a time; a struct of all three would look up the others for nothing.
    #[tactic(auto, using(crate::specs::Net::held))]
    pub fn unit_res(&self, l: usize) -> u64
        requires { l < self.now.layers }
        ensures { result ≡ (layer (net_of self.now) l).unit_res }
    {
        unit_res(self.words, l)
    }

    // The unit capacitance of layer l.
    // Kept: as `unit_res`.
    #[tactic(auto, using(crate::specs::Net::held))]
    pub fn unit_cap(&self, l: usize) -> u64
        requires { l < self.now.layers }
        ensures { result ≡ (layer (net_of self.now) l).unit_cap }
    {
        unit_cap(self.words, l)
    }

    // The via resistance of layer l.
    // Kept: as `unit_res`.
    #[tactic(auto, using(crate::specs::Net::held))]
    pub fn via_res(&self, l: usize) -> u64
        requires { l < self.now.layers }
        ensures { result ≡ (layer (net_of self.now) l).via_res }
    {
        via_res(self.words, l)
    }

    // The cost of edge j on layer l.
    pub fn edge_cost(&self, j: usize, l: usize) -> u64
        requires { (1 ≤ j) × (j ≤ self.now.nodes) × (l < self.now.layers) }
        ensures { result ≡ edge_cost (net_of self.now) l j }
    {
        edge_cost(self.words, j, l)
    }

    // The driver's arrival time.
    pub fn arrival(&self) -> i64
        ensures { result ≡ (net_of self.now).driver.arrival }
    {
        arrival(self.words)
    }
}
