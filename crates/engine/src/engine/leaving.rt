ghost use Rattle.engine.specs.declared.task.Work.TheVariants.{Begun, Leaving};
ghost use Rattle.engine.specs.State.{state_of};
ghost use Rattle.engine.specs.Calls.{At, WorkOf};

use crate::call::Moved;
use crate::engine::Engine;
use crate::fault::EngineFault;
use banks::{Bank, Turned};

impl<B: Bank> Engine<B> {
    // The first turn of a signal claims from the task's pair, and begins the departure.
    pub(crate) fn depart(&mut self, agent: u16, n: u16) -> Result<Moved, EngineFault>
        requires { At (state_of self.old) agent n Begun }
        ensures { WorkOf B.means B.does (state_of self.old) agent n Begun result (state_of self.new) }
    {
        let (tally, pair) = self.tables.stake(n);
        let place = self.tables.receipt(pair);
        self.bank.depart(agent, tally, place)?;
        self.tables.claim(agent, n, pair);
        Ok(Moved::Going)
    }

    // The later turns of a signal are the bank's, until the departure ends.
    pub(crate) fn leave(&mut self, agent: u16, n: u16) -> Result<Moved, EngineFault>
        requires { At (state_of self.old) agent n Leaving }
        ensures { WorkOf B.means B.does (state_of self.old) agent n Leaving result (state_of self.new) }
    {
        match self.bank.turn(agent)? {
            // An agent that departs does not arrive, but the bank's word is all that says so.
            Turned::Going | Turned::Arrived { .. } => Ok(Moved::Going),
            Turned::Departed { drained } => Ok(self.tables.end(agent, n, drained)),
        }
    }
}
