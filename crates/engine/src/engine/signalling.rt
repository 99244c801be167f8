ghost use Rattle.engine.specs.State.{state_of};
ghost use Rattle.engine.specs.Calls.{SignalOf};

use crate::engine::Engine;
use crate::fault::EngineFault;
use banks::Bank;

impl<B: Bank> Engine<B> {
    // Makes a task in hand busy with the agent, whose turns are to depart for it.
    pub fn signal(&mut self, agent: u16, task: u16) -> Result<(), EngineFault>
        ensures { SignalOf (state_of self.old) agent task result (state_of self.new) }
    {
        self.tables.may_signal(agent, task)?;
        self.tables.begin(agent, task);
        Ok(())
    }
}
