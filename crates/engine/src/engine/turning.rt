ghost use Rattle.engine.specs.State.{state_of};
ghost use Rattle.engine.specs.Calls.{TurnOf};

use crate::call::Moved;
use crate::engine::Engine;
use crate::fault::EngineFault;
use crate::task::Work;
use banks::Bank;

impl<B: Bank> Engine<B> {
    // One turn of the agent's errand.
    pub fn turn(&mut self, agent: u16) -> Result<Moved, EngineFault>
        ensures { TurnOf B.means B.does (state_of self.old) agent result (state_of self.new) }
    {
        let (n, work) = self.tables.errand(agent)?;
        // A switch, since how far an errand has come is kept in the tables, and they hold data alone.
        match work {
            Work::Begun => self.depart(agent, n),
            Work::Leaving => self.leave(agent, n),
        }
    }
}
