// What a script can be refused with.
ghost use Rattle.std.specs.Prelude.{Some};
ghost use Rattle.script.specs.Faults.{fault_text};

use engine::EngineFault;
use std::fmt;

#[derive(Clone, Copy)]
pub(crate) enum Fault {
    // The first byte of a line is no command's letter, or the first line names no bank.
    Unknown,
    // A command's letter is followed by something else than its numbers.
    Malformed,
    // The script has too many bytes.
    TooLong,
    // The engine refused a call.
    Engine(EngineFault),
}

// The layer where the fault arose, and its number there.
impl fmt::Display for Fault {
    ghost output = { λ f. Some (fault_text f) };

    fn fmt<W: fmt::Write>(&self, f: &mut fmt::Formatter<W>) -> fmt::Result {
        match self {
            Fault::Unknown => write!(f, "S 21"),
            Fault::Malformed => write!(f, "S 22"),
            Fault::TooLong => write!(f, "S 23"),
            Fault::Engine(fault) => write!(f, "{} {}", fault.layer(), fault.number()),
        }
    }
}
