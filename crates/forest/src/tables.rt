ghost use Rattle.std.specs.Prelude.{◌≡◌, ◌<◌, length};
ghost use Rattle.forest.specs.Groves.{Ready, tables_of};
ghost use Rattle.forest.specs.Layouts.{heard_of, leaves, opens, root, turns};
ghost use Rattle.forest.specs.Ledgers.{job, may_open};
ghost use Rattle.forest.specs.Tables.{Able, after_turn, climbs};

use crate::errand::{Errand, Phase, Said};
use crate::ledger::Ledger;
use crate::node::Node;
use crate::trees::Trees;
use banks::{BankFault, Turned};

// What a bank keeps: its trees, and a ledger beside them.
#[derive(Drop)]
pub struct Tables<T> {
    pub(crate) trees: T,
    pub(crate) ledger: Ledger,
}

impl<T: Trees> Tables<T> {
    pub(crate) fn may_open(&self) -> Result<(), BankFault>
        ensures { result ≡ may_open (T.grove self.now.trees).tallies self.now.ledger }
    {
        self.ledger.may_open(self.trees.tallies())
    }

    // The next tally is open at its root. Answers its number.
    pub(crate) fn open(&mut self) -> u16
        requires few { self.old.ledger.opened < 256 }
        requires root { root T.layout self.old.ledger.opened < length (T.grove self.old.trees).nodes }
        ensures value { result ≡ self.old.ledger.opened }
        ensures tables { tables_of T.grove self.new ≡ opens T.layout (tables_of T.grove self.old) }
    {
        let tally = self.ledger.opened;
        self.trees.put(T::root(tally), Node::root(tally));
        self.ledger.open();
        tally
    }

    // A receipt leaves a node, and a departure from there begins.
    pub(crate) fn leave(&mut self, agent: u16, tally: u16, node: u16)
        requires agent { agent < 16 }
        requires tally { tally < 256 }
        requires node { node < length (T.grove self.old.trees).nodes }
        ensures { tables_of T.grove self.new ≡ leaves (tables_of T.grove self.old) agent tally node }
    {
        self.trees.take(node);
        self.ledger
            .take(agent, tally, Errand::departing(tally, node));
    }

    // One turn of an agent that climbs or comes down.
    fn climb(&mut self, agent: u16) -> Said
        requires agent { agent < 16 }
        requires able { Able (T.grove self.old.trees).nodes (job self.old.ledger agent) }
        ensures value { result ≡ (after_turn (tables_of T.grove self.old) agent).said }
        ensures tables { tables_of T.grove self.new ≡ climbs (tables_of T.grove self.old) agent }
    {
        let errand = self.ledger.errands[agent as usize];
        let after = self.trees.advance(errand);
        self.trees.note(after.said);
        self.ledger.put(agent, after.errand);
        after.said
    }

    // One turn of an agent with an errand: its one access.
    pub(crate) fn turn(&mut self, agent: u16) -> Turned
        requires { Ready T.layout (tables_of T.grove self.old) agent }
        ensures value { result ≡ heard_of T.layout (tables_of T.grove self.old) agent }
        ensures tables { tables_of T.grove self.new ≡ turns (tables_of T.grove self.old) agent }
    {
        let errand = self.ledger.errands[agent as usize];
        // A switch, since what an errand does next is kept in the ledger, and it holds data alone.
        match errand.phase {
            Phase::Grow { side, coin } => {
                self.trees.grow(errand.node, coin);
                self.ledger.put(agent, errand.grown(side));
                Turned::Going
            }
            Phase::Fork { side } => {
                let left = self.trees.nodes()[errand.node as usize].left;
                self.ledger.put(agent, errand.forked(left, side));
                Turned::Going
            }
            _ => {
                let said = self.climb(agent);
                said.heard(T::base(errand.tally), errand.later)
            }
        }
    }
}
