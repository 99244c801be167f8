// What is known of a line after the first.
ghost use Rattle.std.specs.Prelude.{◌≡◌};
ghost use Rattle.script.specs.Settled.{answered, call_of, spelled};

use crate::fault::Fault;
use engine::{Answer, Call, EngineFault};

// An answer takes the place of its call, so that one list serves before the bank has its calls and after.
#[derive(Clone, Copy)]
pub(crate) enum Line {
    // The call that the line spells, which has no answer yet.
    Asks(Call),
    // The answer to its call.
    Answered(Answer),
    // The fault of the line, or of its call.
    Refused(Fault),
}

impl Line {
    // The call that has no answer yet.
    pub(crate) fn asked(self) -> Option<Call>
        ensures { result ≡ call_of self }
    {
        match self {
            Line::Asks(call) => Some(call),
            Line::Answered(_) | Line::Refused(_) => None,
        }
    }
}

impl From<Result<Call, Fault>> for Line {
    ghost from_gives = { λ r l. l ≡ spelled r };

    fn from(read: Result<Call, Fault>) -> Line {
        match read {
            Ok(call) => Line::Asks(call),
            Err(fault) => Line::Refused(fault),
        }
    }
}

impl From<Result<Answer, EngineFault>> for Line {
    ghost from_gives = { λ r l. l ≡ answered r };

    fn from(answer: Result<Answer, EngineFault>) -> Line {
        match answer {
            Ok(answer) => Line::Answered(answer),
            Err(fault) => Line::Refused(Fault::Engine(fault)),
        }
    }
}
