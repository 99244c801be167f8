ghost use Rattle.std.specs.Prelude.{◌≡◌, ◌<◌};
ghost use Rattle.forest.specs.Forests.{forest_of};
ghost use Rattle.forest.specs.Layouts.{may_arrive, may_depart, out_at};

use crate::forest::Forest;
use crate::trees::Trees;
use banks::BankFault;

// What is tested before a call, apart from what it then does: a refusal touches nothing.
impl<T: Trees> Forest<T> {
    pub(crate) fn may_arrive(&self, agent: u16, tally: u16, place: u16) -> Result<(), BankFault>
        ensures { result ≡ may_arrive T.layout (forest_of self.now) agent tally place }
    {
        let ledger = &self.tables.ledger;
        ledger.free(agent)?;
        ledger.shut(tally)?;
        if !self.tables.trees.takes(tally, place) {
            return Err(BankFault::NoPlace);
        }
        ledger.roomy(tally)
    }

    // The receipts out at a place of an open tally.
    fn out_at(&self, tally: u16, place: u16) -> u16
        requires { tally < self.now.tables.ledger.opened }
        ensures { result ≡ out_at T.layout (forest_of self.now) tally place }
    {
        let trees = &self.tables.trees;
        if trees.has(tally, place) {
            trees.nodes()[(T::base(tally) + place) as usize].out()
        } else {
            0
        }
    }

    pub(crate) fn may_depart(&self, agent: u16, tally: u16, place: u16) -> Result<(), BankFault>
        ensures { result ≡ may_depart T.layout (forest_of self.now) agent tally place }
    {
        let ledger = &self.tables.ledger;
        ledger.free(agent)?;
        ledger.shut(tally)?;
        if self.out_at(tally, place) == 0 {
            return Err(BankFault::NoReceipt);
        }
        Ok(())
    }
}
