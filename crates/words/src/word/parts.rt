ghost use Rattle.std.specs.Prelude.{◌≡◌};
ghost use Rattle.words.specs.Words.{seen, formed};

use crate::fault::WordFault;
use crate::kind::Kind;
use crate::word::Word;

impl Word {
    // A word of these three parts, refused where kind and count disagree.
    pub fn new(kind: Kind, count: u16, version: u16) -> Result<Word, WordFault>
        ensures { seen result ≡ formed kind count version }
    {
        let counts = match kind {
            Kind::Empty | Kind::Half => 0..=0,
            Kind::Counted => 1..=16383,
        };
        if !counts.contains(&count) {
            return Err(WordFault::Unlawful);
        }
        Ok(Word {
            kind,
            count,
            version,
        })
    }

    pub fn kind(&self) -> Kind
        ensures { result ≡ self.now.kind }
    {
        self.kind
    }

    pub fn count(&self) -> u16
        ensures { result ≡ self.now.count }
    {
        self.count
    }

    pub fn version(&self) -> u16
        ensures { result ≡ self.now.version }
    {
        self.version
    }
}
