ghost use Rattle.engine.specs.State.{state_of};
ghost use Rattle.engine.specs.Calls.{TakeOf};

use crate::engine::Engine;
use crate::fault::EngineFault;
use banks::Bank;

impl<B: Bank> Engine<B> {
    // Puts a ready task in hand.
    pub fn take(&mut self, task: u16) -> Result<(), EngineFault>
        ensures { TakeOf (state_of self.old) task result (state_of self.new) }
    {
        self.tables.may_take(task)?;
        self.tables.hold(task);
        Ok(())
    }
}
