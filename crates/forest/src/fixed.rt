ghost use Rattle.std.specs.Prelude.{refl};
ghost use Rattle.forest.specs.Laws.{fixed_lays};
ghost use Rattle.forest.specs.Plans.{fixed_grove, fixed_layout};

use crate::errand::Errand;
use crate::fixed::laying::WIDTH;
use crate::fixed::leaves::leaf;
use crate::forest::Forest;
use crate::node::Node;
use crate::trees::{TALLIES, Trees};
use banks::{Coin, Side};

pub mod fresh;
mod laying;
mod leaves;

// The fixed bank: a tree of 15 nodes for each of 256 tallies. Place 0 is the root, the parent of place p is
// (p - 1) / 2, and places 7 to 14 are the leaves.
pub type Fixed = Forest<FixedTrees>;

// An array, since no crate of the library uses the heap.
#[derive(Drop)]
pub struct FixedTrees {
    nodes: [Node; 3840],
}

impl Trees for FixedTrees {
    const LONE_LIMIT: u16 = 84;

    ghost LONE_LIMIT = { 84 };

    ghost layout = { fixed_layout };

    ghost grove = { λ t. fixed_grove t.nodes };

    // These four, and `takes`, are as at the flat trees: a type for the arrays of both would be no shorter than its two
    // uses.
    fn tallies(&self) -> u16 {
        TALLIES
    }

    fn nodes(&self) -> &[Node] {
        &self.nodes
    }

    fn put(&mut self, i: u16, node: Node) {
        self.nodes[i as usize] = node;
    }

    // None grows.
    fn grow(&mut self, _i: u16, _coin: Coin) {}

    fn root(tally: u16) -> u16 {
        WIDTH * tally
    }

    fn base(tally: u16) -> u16 {
        WIDTH * tally
    }

    fn has(&self, _tally: u16, place: u16) -> bool {
        place < WIDTH
    }

    fn takes(&self, _tally: u16, place: u16) -> bool {
        place == 0
    }

    // An arrival starts at the leaf of its agent, whatever its side and coin.
    fn start(agent: u16, tally: u16, _place: u16, _side: Side, _coin: Coin) -> Errand {
        Errand::arriving(tally, leaf(agent, tally), (0, 0))
    }

    ghost lays = { fixed_lays };

    ghost limits = { refl };
}
