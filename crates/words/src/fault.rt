ghost use Rattle.std.specs.Prelude.{◌≡◌};
ghost use Rattle.words.specs.Refusals.{number};

// What this layer refuses, each with its number in layer W.
#[derive(Clone, Copy, PartialEq, Eq, Debug)]
pub enum WordFault {
    // A kind and a count that disagree, or bits that no lawful word has.
    Unlawful = 19,
}

impl WordFault {
    pub fn number(self) -> u8
        ensures { result ≡ number self }
    {
        self as u8
    }
}
