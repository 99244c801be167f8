ghost use Rattle.std.specs.Prelude.{◌≡◌};
ghost use Rattle.engine.specs.Tasks.{claimed};

use banks::Side;

// How far a busy task's errand has come.
#[derive(Clone, Copy, PartialEq, Eq, Debug)]
pub enum Work {
    // A signal that has yet to claim its receipt.
    Begun,
    // The departure is under way.
    Leaving,
}

#[derive(Clone, Copy, PartialEq, Eq, Debug)]
pub enum Phase {
    Unborn,
    // Its tally is not drained yet.
    Waiting,
    Ready,
    InHand,
    Busy { agent: u16, work: Work },
    Done,
}

#[derive(Clone, Copy, PartialEq, Eq, Debug)]
pub struct Task {
    pub phase: Phase,
    // The task that it is under.
    pub finish: Option<u16>,
    // The tally that it waits on.
    pub tally: Option<u16>,
    // Where its arrivals start, and at which side.
    pub place: u16,
    pub side: Side,
    pub pair: Option<u16>,
}

// Two receipts, which two sibling tasks share: the mark says that the first is taken.
#[derive(Clone, Copy, PartialEq, Eq, Debug)]
pub struct Pair {
    pub first: u16,
    pub second: u16,
    pub mark: bool,
}

impl Task {
    // What stands at a number that is not given out.
    pub(crate) const BLANK: Task = Task {
        phase: Phase::Unborn,
        finish: None,
        tally: None,
        place: 0,
        side: Side::Left,
        pair: None,
    };
}

impl Pair {
    // The pair of a round that is not made.
    pub(crate) const BLANK: Pair = Pair {
        first: 0,
        second: 0,
        mark: false,
    };

    // The receipt that a claim takes.
    pub(crate) fn receipt(self) -> u16
        ensures { result ≡ claimed self }
    {
        if self.mark { self.second } else { self.first }
    }
}
