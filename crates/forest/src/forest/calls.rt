ghost use Rattle.std.specs.Prelude.{◌≡◌};
ghost use Rattle.std.proofs.Common.{sym};
ghost use Rattle.forest.specs.Forests.{forest_of, forest_means, forest_does};
ghost use Rattle.forest.specs.Tables.{node_at};

use crate::forest::Forest;
use crate::node::Node;
use crate::trees::Trees;
use banks::{Bank, BankFault, Coin, Limited, Reading, Side, Turned};

impl<T: Trees> Forest<T> {
    // One of its nodes, as it stands.
    pub fn node(&self, node: u16) -> Option<Node>
        ensures { result ≡ node_at (forest_of self.now).nodes node }
    {
        self.tables.trees.nodes().get(node as usize).copied()
    }
}

// A forest shows the meaning of a bank. What it does exactly is said of its tables.
impl<T: Trees> Bank for Forest<T> {
    const LONE_LIMIT: u16 = T::LONE_LIMIT;

    ghost LONE_LIMIT = { T.LONE_LIMIT };

    ghost means = { forest_means };

    ghost does = { forest_does };

    fn limit(&self) -> u16 {
        <Forest<T> as Bank>::LONE_LIMIT
    }

    fn open(&mut self) -> Result<(u16, u16), BankFault> {
        self.tables.may_open()?;
        let tally = self.tables.open();
        Ok((tally, T::root(tally) - T::base(tally)))
    }

    fn arrive(
        &mut self,
        agent: u16,
        tally: u16,
        place: u16,
        side: Side,
        coin: Coin,
    ) -> Result<(), BankFault> {
        self.may_arrive(agent, tally, place)?;
        let errand = T::start(agent, tally, place, side, coin);
        self.tables.ledger.send(agent, tally, errand);
        Ok(())
    }

    fn depart(&mut self, agent: u16, tally: u16, place: u16) -> Result<(), BankFault> {
        self.may_depart(agent, tally, place)?;
        self.tables.leave(agent, tally, T::base(tally) + place);
        Ok(())
    }

    fn turn(&mut self, agent: u16) -> Result<Turned, BankFault> {
        self.tables.ledger.may_turn(agent)?;
        Ok(self.tables.turn(agent))
    }

    fn reading(&self, tally: u16) -> Result<Reading, BankFault> {
        self.tables.ledger.shut(tally)?;
        Ok(self.tables.trees.nodes()[T::root(tally) as usize].reading())
    }
}

// Its limit is that of its trees.
impl<T: Trees> Limited for Forest<T> {
    ghost limited = { λ b. sym T.limits };
}
