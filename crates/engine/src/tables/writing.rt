// What the calls write into the tables, which stay sound.
ghost use Rattle.std.specs.Prelude.{◌≡◌, ◌+◌, ◌<◌, IsSome};
ghost use Rattle.banks.specs.declared.answer.Turned.TheVariants.{Departed};
ghost use Rattle.engine.specs.declared.task.Phase.TheVariants.{InHand, Ready};
ghost use Rattle.engine.specs.declared.task.Work.TheVariants.{Begun, Leaving};
ghost use Rattle.engine.specs.State.{tables_of, fresh, task_at, next, after_make, after_take, after_signal, after_claim};
ghost use Rattle.engine.specs.Calls.{At, Leaves};

use crate::call::Moved;
use crate::rows::{AGENTS, ROUNDS, Rows};
use crate::tables::Tables;

impl Tables {
    // No number is given out, and each agent is free.
    pub(crate) fn new() -> Tables
        ensures { tables_of result ≡ fresh tt }
    {
        Tables { rows: Rows::new() }
    }

    // The final task waits on the tally, and the root task under it is ready, with the first receipt twice.
    pub(crate) fn start(&mut self, tally: u16, place: u16) -> (u16, u16)
        requires { self.old.rows.rounds < ROUNDS }
        ensures numbers { result ≡ (next (tables_of self.old), next (tables_of self.old) + 1) }
        ensures tables { tables_of self.new ≡ after_make (tables_of self.old) tally place tt }
    {
        self.rows.start(tally, place)
    }

    // The task is in hand.
    pub(crate) fn hold(&mut self, n: u16)
        requires ready { (task_at (tables_of self.old) n).phase ≡ Ready }
        requires finish { IsSome (task_at (tables_of self.old) n).finish }
        ensures { tables_of self.new ≡ after_take (tables_of self.old) n }
    {
        self.rows.hold(n);
    }

    // The agent is busy with the task, and has yet to claim.
    pub(crate) fn begin(&mut self, agent: u16, n: u16)
        requires agent { agent < AGENTS }
        requires task { (task_at (tables_of self.old) n).phase ≡ InHand }
        ensures { tables_of self.new ≡ after_signal (tables_of self.old) agent n }
    {
        self.rows.begin(agent, n);
    }

    // The task has claimed from its pair, and is leaving.
    pub(crate) fn claim(&mut self, agent: u16, n: u16, pair: u16)
        requires at { At (tables_of self.old) agent n Begun }
        requires pair { pair < ROUNDS }
        ensures { tables_of self.new ≡ after_claim (tables_of self.old) agent n pair tt }
    {
        self.rows.claim(agent, n, pair);
    }

    // The task is done and its agent free; a drained tally makes the finish ready.
    pub(crate) fn end(&mut self, agent: u16, n: u16, drained: bool) -> Moved
        requires { At (tables_of self.old) agent n Leaving }
        ensures { Leaves (tables_of self.old) agent n (Departed drained) result (tables_of self.new) }
    {
        let finish = self.task(n).finish.unwrap();
        self.rows.leave(agent, n);
        if !drained {
            return Moved::Signalled;
        }
        self.rows.drain(finish);
        Moved::Ready(finish)
    }
}
