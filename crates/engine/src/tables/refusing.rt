// What the tables refuse to a call.
ghost use Rattle.std.specs.Prelude.{◌≡◌, Some, None, if◌then◌else◌, nat_lt, IfOk};
ghost use Rattle.engine.specs.Refusals.{refusal_of, make_refusal, take_refusal, signal_refusal};
ghost use Rattle.engine.specs.State.{tables_of, hand_at};
ghost use Rattle.engine.specs.Calls.{ErrandOf};

use crate::fault::EngineFault;
use crate::rows::ROUNDS;
use crate::tables::Tables;
use crate::task::{Phase, Work};

impl Tables {
    // The task that an agent is busy with, if any.
    fn hand(&self, agent: u16) -> Result<Option<u16>, EngineFault>
        ensures refusal { refusal_of result ≡ (if nat_lt 15 agent then Some 1 else None) }
        ensures hand { IfOk result (λ h. h ≡ hand_at (tables_of self.now) agent) }
    {
        self.rows
            .hands
            .get(agent as usize)
            .copied()
            .ok_or(EngineFault::NoAgent)
    }

    pub(crate) fn may_make(&self) -> Result<(), EngineFault>
        ensures { refusal_of result ≡ make_refusal (tables_of self.now) }
    {
        if self.rows.rounds as usize >= ROUNDS {
            return Err(EngineFault::NoNumbers);
        }
        Ok(())
    }

    pub(crate) fn may_take(&self, n: u16) -> Result<(), EngineFault>
        ensures { refusal_of result ≡ take_refusal (tables_of self.now) n }
    {
        let task = self.task(n);
        if task.phase != Phase::Ready {
            return Err(EngineFault::NotReady);
        }
        if task.finish.is_none() {
            return Err(EngineFault::NoFinish);
        }
        Ok(())
    }

    pub(crate) fn may_signal(&self, agent: u16, n: u16) -> Result<(), EngineFault>
        ensures { refusal_of result ≡ signal_refusal (tables_of self.now) agent n }
    {
        if self.hand(agent)?.is_some() {
            return Err(EngineFault::HasErrand);
        }
        if self.task(n).phase != Phase::InHand {
            return Err(EngineFault::NotInHand);
        }
        Ok(())
    }

    // The agent's task, and how far its errand has come.
    pub(crate) fn errand(&self, agent: u16) -> Result<(u16, Work), EngineFault>
        ensures { ErrandOf (tables_of self.now) agent result }
    {
        let n = self.hand(agent)?.ok_or(EngineFault::NoErrand)?;
        let Phase::Busy { work, .. } = self.task(n).phase else {
            unreachable!()
        };
        Ok((n, work))
    }
}
