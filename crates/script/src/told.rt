// What is told of a line.
ghost use Rattle.std.specs.Prelude.{Some};
ghost use Rattle.script.specs.Texts.{told_text};

use crate::fault::Fault;
use engine::{Answer, Moved};
use std::fmt;

// What a line comes to; line 0 stands for the whole script.
#[derive(Clone, Copy)]
pub(crate) struct Told {
    pub(crate) line: usize,
    pub(crate) outcome: Result<Answer, Fault>,
}

impl fmt::Display for Told {
    ghost output = { λ t. Some (told_text t.line t.outcome) };

    fn fmt<W: fmt::Write>(&self, f: &mut fmt::Formatter<W>) -> fmt::Result {
        match self.outcome {
            Ok(Answer::Made { finish, root }) => write!(f, "ok {finish} {root}"),
            Ok(Answer::Taken | Answer::Signalling) => write!(f, "ok"),
            Ok(Answer::Moved(Moved::Going)) => write!(f, "going"),
            Ok(Answer::Moved(Moved::Signalled)) => write!(f, "signalled"),
            Ok(Answer::Moved(Moved::Ready(finish))) => write!(f, "ready {finish}"),
            Err(fault) => write!(f, "no {} {fault}", self.line),
        }
    }
}
