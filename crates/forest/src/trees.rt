ghost use Rattle.std.specs.Prelude.{◌≡◌, ℕ, ◌<◌, length, slice_set};
ghost use Rattle.forest.specs.declared.errand.Said.TheVariants.{Arrived};
ghost use Rattle.forest.specs.declared.ledger.Ledger.{Ledger};
ghost use Rattle.forest.specs.Groves.{Grove, with_nodes, grown, tables};
ghost use Rattle.forest.specs.Layouts.{Layout, root};
ghost use Rattle.forest.specs.Lays.{Lays};
ghost use Rattle.forest.specs.Tables.{Able, at, noted, taken, turn_at, wrote};

use crate::errand::{After, Errand, Said};
use crate::node::Node;
use banks::{Coin, Side};
use words::Word;

// No bank has more tallies.
pub(crate) const TALLIES: u16 = 256;

// The trees of a bank: how their nodes are kept, and how they are laid.
pub trait Trees: Drop {
    // The bank's limit on lone numbers.
    const LONE_LIMIT: u16;

    ghost LONE_LIMIT: { ℕ };

    ghost layout: { Layout };

    ghost grove: { Self → Grove };

    // How many tallies there are.
    fn tallies(&self) -> u16
        ensures { result ≡ (grove self.now).tallies };

    fn nodes(&self) -> &[Node]
        ensures { result.now ≡ (grove self.now).nodes };

    // Puts a node in the place of another.
    fn put(&mut self, i: u16, node: Node)
        requires { i < length (grove self.old).nodes }
        ensures { grove self.new ≡ with_nodes (slice_set (grove self.old).nodes i node) (grove self.old) };

    // Where trees grow, links the next two unused nodes as children of a node, if it may.
    fn grow(&mut self, i: u16, coin: Coin)
        requires { i < length (grove self.old).nodes }
        ensures grows { layout.growth ≡ 1 → grove self.new ≡ grown (grove self.old) i coin }
        ensures stays { layout.growth ≡ 0 → grove self.new ≡ grove self.old };

    // The root of a tally.
    fn root(tally: u16) -> u16
        requires { tally < 256 }
        ensures { result ≡ root layout tally };

    // The node at the place 0 of a tally, from which its places count.
    fn base(tally: u16) -> u16
        requires { tally < 256 }
        ensures { result ≡ layout.base tally };

    // Whether an open tally has a place.
    fn has(&self, tally: u16, place: u16) -> bool
        ensures { (l : Ledger) → result ≡ layout.has (tables (grove self.now) l) tally place };

    // Whether an arrival may start at a place of an open tally.
    fn takes(&self, tally: u16, place: u16) -> bool
        ensures { (l : Ledger) → result ≡ layout.takes (tables (grove self.now) l) tally place };

    // How an arrival begins.
    fn start(agent: u16, tally: u16, place: u16, side: Side, coin: Coin) -> Errand
        requires { tally < 256 }
        ensures { result ≡ layout.start agent tally place side coin };

    ghost lays: { Lays layout };

    ghost limits: { LONE_LIMIT ≡ layout.limit };

    // That a node is there is a clause of each that reads or writes one, as it is of every index.

    // Writes a word at a node, if there is one to write.
    final fn write(&mut self, i: u16, word: Option<Word>)
        requires { i < length (grove self.old).nodes }
        ensures { grove self.new ≡ with_nodes (wrote word i (grove self.old).nodes) (grove self.old) }
    {
        if let Some(word) = word {
            let node = self.nodes()[i as usize];
            self.put(i, Node { word, ..node });
        }
    }

    // One turn of an errand at its node: its one access.
    final fn advance(&mut self, errand: Errand) -> After
        requires { Able (grove self.old).nodes errand }
        ensures turn { result ≡ turn_at (grove self.old).nodes errand }
        ensures grove { grove self.new ≡ with_nodes (wrote result.write errand.node (grove self.old).nodes) (grove self.old) }
    {
        let i = errand.node;
        let node = self.nodes()[i as usize];
        let after = errand.turn(node.word, node.parent);
        self.write(i, after.write);
        after
    }

    // The receipt of an arrival that has ended is put out.
    final fn note(&mut self, said: Said)
        requires node { (x : ℕ) → said ≡ Arrived x → x < length (grove self.old).nodes }
        requires few { (x : ℕ) → said ≡ Arrived x → (at (grove self.old).nodes x).out < 65535 }
        ensures { grove self.new ≡ with_nodes (noted said (grove self.old).nodes) (grove self.old) }
    {
        if let Said::Arrived { node: i } = said {
            let node = self.nodes()[i as usize];
            let out = node.out + 1;
            self.put(i, Node { out, ..node });
        }
    }

    // A receipt leaves a node.
    final fn take(&mut self, i: u16)
        requires { i < length (grove self.old).nodes }
        ensures { grove self.new ≡ with_nodes (taken i (grove self.old).nodes) (grove self.old) }
    {
        let node = self.nodes()[i as usize];
        let out = node.out.saturating_sub(1);
        self.put(i, Node { out, ..node });
    }
}
