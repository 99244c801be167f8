ghost use Rattle.std.specs.Prelude.{◌≡◌};
ghost use Rattle.engine.specs.State.{state_of, fresh};
ghost use Rattle.engine.specs.Calls.{MakeOf};

use crate::engine::Engine;
use crate::fault::EngineFault;
use crate::tables::Tables;
use banks::Bank;

impl<B: Bank> Engine<B> {
    // An engine that has given out no number.
    pub fn new(bank: B) -> Engine<B>
        ensures { state_of result ≡ fresh bank }
    {
        Engine {
            bank,
            tables: Tables::new(),
        }
    }

    // Makes a final task, which waits on a new tally, and a root task under it, which is ready. Answers both.
    pub fn make(&mut self) -> Result<(u16, u16), EngineFault>
        ensures { MakeOf B.means B.does (state_of self.old) result (state_of self.new) }
    {
        self.tables.may_make()?;
        let (tally, place) = self.bank.open()?;
        Ok(self.tables.start(tally, place))
    }
}
