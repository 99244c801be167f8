// What the calls read of the tables.
ghost use Rattle.std.specs.Prelude.{◌≡◌, ◌<◌, IsTrue};
ghost use Rattle.engine.specs.Tasks.{held?, claimed};
ghost use Rattle.engine.specs.State.{tables_of, task_at, pair_at};
ghost use Rattle.engine.specs.Calls.{Stakes};

use crate::rows::ROUNDS;
use crate::tables::Tables;
use crate::task::Task;

impl Tables {
    // The task of any number: past the last one, a blank.
    pub(crate) fn task(&self, n: u16) -> Task
        ensures { result ≡ task_at (tables_of self.now) n }
    {
        self.rows
            .tasks
            .get(n as usize)
            .copied()
            .unwrap_or(Task::BLANK)
    }

    // What a held task departs from: the tally of its finish, and its pair.
    pub(crate) fn stake(&self, n: u16) -> (u16, u16)
        requires { IsTrue (held? (task_at (tables_of self.now) n).phase) }
        ensures { Stakes (tables_of self.now) n result.0 result.1 }
    {
        let task = self.task(n);
        let finish = self.task(task.finish.unwrap());
        (finish.tally.unwrap(), task.pair.unwrap())
    }

    // The receipt that a claim takes from a pair.
    pub(crate) fn receipt(&self, pair: u16) -> u16
        requires { pair < ROUNDS }
        ensures { result ≡ claimed (pair_at (tables_of self.now) pair) }
    {
        self.rows.pairs[pair as usize].receipt()
    }
}
