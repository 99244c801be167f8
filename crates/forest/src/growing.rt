ghost use Rattle.std.specs.Prelude.{◌≤◌, length, refl};
ghost use Rattle.forest.specs.Laws.{growing_lays};
ghost use Rattle.forest.specs.Plans.{growing_grove, growing_layout};

use crate::errand::Errand;
use crate::forest::Forest;
use crate::growing::growth::link;
use crate::growing::table::Table;
use crate::node::Node;
use crate::trees::Trees;
use banks::{Coin, Side};

pub mod fresh;
mod growth;
mod table;

// The growing bank: trees that grow in a node table which the caller lends. The root of tally t is node t, and every
// node of a tally's tree is a place of it.
pub type Growing<'a> = Forest<GrowingTrees<&'a mut [Node]>>;

#[derive(Drop)]
pub struct GrowingTrees<N: Table> {
    table: N,
    tallies: u16,
    // The nodes below it are in use: a number beside the table, since a slice that the caller lends cannot grow.
    used: u16,
    ghost fits: { used ≤ length (N.list table) },
}

impl<N: Table> Trees for GrowingTrees<N> {
    const LONE_LIMIT: u16 = 1700;

    ghost LONE_LIMIT = { 1700 };

    ghost layout = { growing_layout };

    ghost grove = { λ t. growing_grove (N.list t.table) t.tallies t.used };

    fn tallies(&self) -> u16 {
        self.tallies
    }

    fn nodes(&self) -> &[Node] {
        self.table.nodes()
    }

    fn put(&mut self, i: u16, node: Node) {
        self.table.put(i, node);
    }

    fn grow(&mut self, i: u16, coin: Coin) {
        self.used = link(&mut self.table, i, self.used, coin);
    }

    fn root(tally: u16) -> u16 {
        tally
    }

    fn base(_tally: u16) -> u16 {
        0
    }

    fn has(&self, tally: u16, place: u16) -> bool {
        place == tally
            || (self.tallies <= place
                && place < self.used
                && self.table.nodes()[place as usize].tally == tally)
    }

    fn takes(&self, tally: u16, place: u16) -> bool {
        self.has(tally, place)
    }

    // An arrival begins with the growth turns at its place.
    fn start(_agent: u16, tally: u16, place: u16, side: Side, coin: Coin) -> Errand {
        Errand::growing(tally, place, side, coin)
    }

    ghost lays = { growing_lays };

    ghost limits = { refl };
}
