ghost use Rattle.std.specs.Prelude.{refl};
ghost use Rattle.forest.specs.Laws.{flat_lays};
ghost use Rattle.forest.specs.Plans.{flat_grove, flat_layout};

use crate::errand::Errand;
use crate::forest::Forest;
use crate::node::Node;
use crate::trees::{TALLIES, Trees};
use banks::{Coin, Side};

pub mod fresh;

// The flat bank: a root alone for each of 256 tallies, and 0 for every place.
pub type Flat = Forest<FlatTrees>;

// An array, since no crate of the library uses the heap.
#[derive(Drop)]
pub struct FlatTrees {
    nodes: [Node; 256],
}

impl Trees for FlatTrees {
    const LONE_LIMIT: u16 = 3;

    ghost LONE_LIMIT = { 3 };

    ghost layout = { flat_layout };

    ghost grove = { λ t. flat_grove t.nodes };

    fn tallies(&self) -> u16 {
        TALLIES
    }

    fn nodes(&self) -> &[Node] {
        &self.nodes
    }

    fn put(&mut self, i: u16, node: Node) {
        self.nodes[i as usize] = node;
    }

    // None grows.
    fn grow(&mut self, _i: u16, _coin: Coin) {}

    fn root(tally: u16) -> u16 {
        tally
    }

    fn base(tally: u16) -> u16 {
        tally
    }

    fn has(&self, _tally: u16, place: u16) -> bool {
        place == 0
    }

    fn takes(&self, _tally: u16, place: u16) -> bool {
        place == 0
    }

    // Every arrival starts at the one root, whatever its side and coin.
    fn start(_agent: u16, tally: u16, _place: u16, _side: Side, _coin: Coin) -> Errand {
        Errand::arriving(tally, tally, (0, 0))
    }

    ghost lays = { flat_lays };

    ghost limits = { refl };
}
