ghost use Rattle.std.specs.Prelude.{◌≡◌, ◌+◌, ◌*◌, ◌^◌, ◌<◌};
ghost use Rattle.words.specs.Words.{Packs, Unpacks};

use crate::fault::WordFault;
use crate::kind::Kind;
use crate::word::Word;

// The fields of 32 bits, each under its mask at its place.
fn joined(kind: u32, count: u16, version: u16) -> u32
    requires { (kind < 4) × (count < 16384) }
    ensures { result ≡ kind * 2 ^ 30 + count * 2 ^ 16 + version }
{
    (kind << 30) | ((count as u32 & 0x3fff) << 16) | (version as u32 & 0xffff)
}

// Its 32 bits: kind, count, version, from the top.
impl From<Word> for u32 {
    ghost from_gives = { Packs };

    fn from(word: Word) -> u32 {
        joined(word.kind.bits(), word.count, word.version)
    }
}

// The one word that has these bits. Every number that no lawful word has is refused.
impl TryFrom<u32> for Word {
    type Error = WordFault;

    ghost try_from_gives = { Unpacks };

    fn try_from(bits: u32) -> Result<Word, WordFault> {
        let kind = Kind::try_from(bits >> 30)?;
        let count = ((bits >> 16) & 0x3fff) as u16;
        let version = (bits & 0xffff) as u16;
        Word::new(kind, count, version)
    }
}
