// The first line of a script, which names the bank.
ghost use Rattle.std.specs.Prelude.{◌≡◌, ◌≢◌, MatchResult};
ghost use Rattle.script.specs.Spelling.{Names, Decodes};

use crate::fault::Fault;
use crate::number::numbers;

#[derive(Clone, Copy)]
pub(crate) enum Kind {
    Flat,
}

impl TryFrom<u16> for Kind {
    type Error = Fault;

    ghost try_from_gives = { Decodes };

    fn try_from(number: u16) -> Result<Kind, Fault> {
        match number {
            0 => Ok(Kind::Flat),
            _ => Err(Fault::Unknown),
        }
    }
}

// The bank that the line names, if it names one.
pub(crate) fn bank_of(s: &[u8]) -> Result<Kind, Fault>
    ensures { MatchResult result (λ k. Names s.now k) (λ e. (e ≡ Fault.Unknown) × ((k : Kind) → Names s.now k → ⊥)) }
{
    let rest = s.strip_prefix(b"b").ok_or(Fault::Unknown)?;
    let [number] = numbers::<1>(rest).map_err(|_| Fault::Unknown)?;
    Kind::try_from(number)
}
