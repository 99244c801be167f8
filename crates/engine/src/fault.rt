ghost use Rattle.std.specs.Prelude.{◌≡◌};
ghost use Rattle.engine.specs.Refusals.{layer_of, number_of};
ghost use Rattle.engine.specs.declared.fault.EngineFault.TheVariants.{Bank as FromBank};

use banks::BankFault;

// What an engine refuses.
#[derive(Clone, Copy, PartialEq, Eq, Debug)]
pub enum EngineFault {
    // The agent's number is above 15.
    NoAgent,
    // The agent has an errand already.
    HasErrand,
    // The agent has no errand.
    NoErrand,
    // The task is not ready.
    NotReady,
    // The task has no finish.
    NoFinish,
    // The task is not in hand.
    NotInHand,
    // Fewer than two task numbers are left.
    NoNumbers,
    // What the bank refused, whole.
    Bank(BankFault),
}

impl EngineFault {
    // The layer in which it arose: a method, since the script prints it beside a number.
    pub fn layer(self) -> &'static str
        ensures { result.now ≡ layer_of self }
    {
        match self {
            EngineFault::Bank(_) => "B",
            _ => "E",
        }
    }

    // Its number in that layer: written here, since an enum with a fault in it has no `as u8`.
    pub fn number(self) -> u8
        ensures { result ≡ number_of self }
    {
        match self {
            EngineFault::NoAgent => 1,
            EngineFault::HasErrand => 2,
            EngineFault::NoErrand => 3,
            EngineFault::NotReady => 4,
            EngineFault::NoFinish => 5,
            EngineFault::NotInHand => 6,
            EngineFault::NoNumbers => 7,
            EngineFault::Bank(fault) => fault.number(),
        }
    }
}

// By hand, since the contracts name the fault that `?` makes of the bank's.
impl From<BankFault> for EngineFault {
    ghost from_gives = { λ b e. e ≡ FromBank b };

    fn from(refused: BankFault) -> EngineFault {
        EngineFault::Bank(refused)
    }
}
