ghost use Rattle.engine.specs.State.{state_of};
ghost use Rattle.engine.specs.Runs.{Step};

use crate::call::{Answer, Call};
use crate::engine::Engine;
use crate::fault::EngineFault;
use banks::Bank;

impl<B: Bank> Engine<B> {
    // One call of a list, with its answer. Calls are data and no closures, so that a list of them can be read and kept.
    pub fn call(&mut self, call: Call) -> Result<Answer, EngineFault>
        ensures { Step B.means B.does (state_of self.old) call result (state_of self.new) }
    {
        let answer = match call {
            Call::Make => {
                let (finish, root) = self.make()?;
                Answer::Made { finish, root }
            }
            Call::Take(task) => {
                self.take(task)?;
                Answer::Taken
            }
            Call::Signal { agent, task } => {
                self.signal(agent, task)?;
                Answer::Signalling
            }
            Call::Turn(agent) => Answer::Moved(self.turn(agent)?),
        };
        Ok(answer)
    }
}
