ghost use Rattle.std.specs.Prelude.{◌≡◌};
ghost use Rattle.banks.specs.Refusals.{number};

// What a bank refuses, each with its number in layer B.
#[derive(Clone, Copy, PartialEq, Eq, Debug)]
pub enum BankFault {
    // All tallies are open.
    Full = 11,
    // The agent's number is above 15.
    NoAgent = 12,
    // The agent has an errand already.
    HasErrand = 13,
    // The agent has no errand.
    Idle = 14,
    // The tally is not open.
    NotOpen = 15,
    // The place is no arrival place of the tally.
    NoPlace = 16,
    // The tally's receipts out and arriving agents have come to 2,048.
    Crowded = 17,
    // No receipt is out at the place.
    NoReceipt = 18,
}

impl BankFault {
    pub fn number(self) -> u8
        ensures { result ≡ number self }
    {
        self as u8
    }
}
