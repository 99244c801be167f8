// The rows of an engine's tables, and what the calls write into them.
ghost use Rattle.std.specs.Prelude.{◌≡◌, ◌+◌, ◌<◌};
ghost use Rattle.engine.specs.declared.task.Phase.TheVariants.{InHand, Ready as NowReady};
ghost use Rattle.engine.specs.declared.task.Work.TheVariants.{Begun, Leaving};
ghost use Rattle.engine.specs.State.{rows_of, fresh, task_at, next, after_make, after_take, after_signal, after_claim, after_leave, after_ready};
ghost use Rattle.engine.specs.Calls.{At};

use crate::task::{Pair, Phase, Task, Work};

pub(crate) const ROUNDS: usize = 512;

pub(crate) const TASKS: usize = 2 * ROUNDS;

pub(crate) const AGENTS: usize = 16;

// What each call writes is said here exactly, and of any rows: that rows are sound is said of the tables. Arrays, since
// no crate of the library uses the heap.
#[derive(Drop)]
pub(crate) struct Rows {
    pub(crate) tasks: [Task; TASKS],
    pub(crate) pairs: [Pair; ROUNDS],
    // The task that each agent is busy with.
    pub(crate) hands: [Option<u16>; AGENTS],
    // How often numbers were given out: round r gave the tasks 2r and 2r + 1, and the pair r.
    pub(crate) rounds: u16,
}

impl Rows {
    // No number is given out, and each agent is free.
    pub(crate) fn new() -> Rows
        ensures { rows_of result ≡ fresh tt }
    {
        Rows {
            tasks: [Task::BLANK; TASKS],
            pairs: [Pair::BLANK; ROUNDS],
            hands: [None; AGENTS],
            rounds: 0,
        }
    }

    // The final task waits on the tally, and the root task under it is ready, with the first receipt twice.
    pub(crate) fn start(&mut self, tally: u16, place: u16) -> (u16, u16)
        requires { self.old.rounds < ROUNDS }
        ensures numbers { result ≡ (next (rows_of self.old), next (rows_of self.old) + 1) }
        ensures rows { rows_of self.new ≡ after_make (rows_of self.old) tally place tt }
    {
        let round = self.rounds;
        let finish = 2 * round;
        let root = finish + 1;
        self.tasks[finish as usize] = Task {
            phase: Phase::Waiting,
            tally: Some(tally),
            ..Task::BLANK
        };
        self.tasks[root as usize] = Task {
            phase: Phase::Ready,
            finish: Some(finish),
            place,
            pair: Some(round),
            ..Task::BLANK
        };
        self.pairs[round as usize] = Pair {
            first: place,
            second: place,
            mark: false,
        };
        self.rounds += 1;
        (finish, root)
    }

    // The task is in hand.
    pub(crate) fn hold(&mut self, n: u16)
        requires { (task_at (rows_of self.old) n).phase ≡ NowReady }
        ensures { rows_of self.new ≡ after_take (rows_of self.old) n }
    {
        self.tasks[n as usize].phase = Phase::InHand;
    }

    // The agent is busy with the task, and has yet to claim.
    pub(crate) fn begin(&mut self, agent: u16, n: u16)
        requires agent { agent < AGENTS }
        requires task { (task_at (rows_of self.old) n).phase ≡ InHand }
        ensures { rows_of self.new ≡ after_signal (rows_of self.old) agent n }
    {
        self.tasks[n as usize].phase = Phase::Busy {
            agent,
            work: Work::Begun,
        };
        self.hands[agent as usize] = Some(n);
    }

    // The task has claimed from its pair, and is leaving.
    pub(crate) fn claim(&mut self, agent: u16, n: u16, pair: u16)
        requires at { At (rows_of self.old) agent n Begun }
        requires pair { pair < ROUNDS }
        ensures { rows_of self.new ≡ after_claim (rows_of self.old) agent n pair tt }
    {
        self.pairs[pair as usize].mark = true;
        self.tasks[n as usize].phase = Phase::Busy {
            agent,
            work: Work::Leaving,
        };
    }

    // The task is done and its agent free.
    pub(crate) fn leave(&mut self, agent: u16, n: u16)
        requires { At (rows_of self.old) agent n Leaving }
        ensures { rows_of self.new ≡ after_leave (rows_of self.old) agent n tt }
    {
        self.tasks[n as usize].phase = Phase::Done;
        self.hands[agent as usize] = None;
    }

    // The finish is ready.
    pub(crate) fn drain(&mut self, finish: u16)
        requires { finish < TASKS }
        ensures { rows_of self.new ≡ after_ready (rows_of self.old) finish }
    {
        self.tasks[finish as usize].phase = Phase::Ready;
    }
}
