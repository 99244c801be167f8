ghost use Rattle.std.specs.Prelude.{◌≡◌};
ghost use Rattle.words.specs.Words.{shown, blank};
ghost use Rattle.words.specs.Steps.{higher, opening, settling, lower, raised, opened, settled, lowered};

use crate::kind::Kind;
use crate::word::Word;

// Each step is a whole function of the word: that a count never comes to its limit is a fact about the banks that take
// the steps.
impl Word {
    // The word of a node that nobody has used. By hand and no `Default`, since its contract names the blank.
    pub fn blank() -> Word
        ensures { result ≡ blank }
    {
        Word {
            kind: Kind::Empty,
            count: 0,
            version: 0,
        }
    }

    // One higher; a count stops at its limit.
    pub fn raised(self) -> Word
        ensures value { shown result ≡ higher (shown self) }
        ensures whole { result ≡ raised self }
    {
        Word {
            kind: Kind::Counted,
            count: self.count.min(16382) + 1,
            version: self.version,
        }
    }

    // The first arrival at an empty word: half, at a root counted with count 1. The version goes one higher, and
    // from 65,535 round to 0.
    pub fn opened(self, root: bool) -> Word
        ensures value { shown result ≡ opening root (shown self) }
        ensures whole { result ≡ opened root self }
    {
        let version = self.version.wrapping_add(1);
        let (kind, count) = if root {
            (Kind::Counted, 1)
        } else {
            (Kind::Half, 0)
        };
        Word {
            kind,
            count,
            version,
        }
    }

    // The end of a first arrival: count 1.
    pub fn settled(self) -> Word
        ensures value { shown result ≡ settling (shown self) }
        ensures whole { result ≡ settled self }
    {
        Word {
            kind: Kind::Counted,
            count: 1,
            version: self.version,
        }
    }

    // One lower, or empty where nothing would be left.
    pub fn lowered(self) -> Word
        ensures value { shown result ≡ lower (shown self) }
        ensures whole { result ≡ lowered self }
    {
        let (kind, count) = if self.count <= 1 {
            (Kind::Empty, 0)
        } else {
            (Kind::Counted, self.count - 1)
        };
        Word {
            kind,
            count,
            version: self.version,
        }
    }
}
