ghost use Rattle.std.specs.Prelude.{◌≡◌};
ghost use Rattle.words.specs.Kinds.{bits, Decodes};

use crate::fault::WordFault;

// The three kinds of a node word, each with the two top bits of a packed word.
#[derive(Clone, Copy, PartialEq, Eq, Debug)]
pub enum Kind {
    // Nothing is counted at the node.
    Empty = 0,
    // A first arrival is under way: its agent has yet to arrive at the parent.
    Half = 1,
    // One or more are counted.
    Counted = 2,
}

impl Kind {
    pub fn bits(self) -> u32
        ensures { result ≡ bits self }
    {
        self as u32
    }
}

impl TryFrom<u32> for Kind {
    type Error = WordFault;

    ghost try_from_gives = { Decodes };

    fn try_from(bits: u32) -> Result<Kind, WordFault> {
        match bits {
            0 => Ok(Kind::Empty),
            1 => Ok(Kind::Half),
            2 => Ok(Kind::Counted),
            _ => Err(WordFault::Unlawful),
        }
    }
}
