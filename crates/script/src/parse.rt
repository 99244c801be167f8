// One line of a script.
ghost use Rattle.script.specs.Spelling.{Parsed};

use crate::fault::Fault;
use crate::number::numbers;
use engine::Call;

// The call that a line spells; refused where its first byte is no command's letter, or the rest is not that command's numbers.
pub(crate) fn parse(s: &[u8]) -> Result<Call, Fault>
    ensures { Parsed s.now result }
{
    match s {
        [b'm', rest @ ..] => {
            let [] = numbers::<0>(rest)?;
            Ok(Call::Make)
        }
        [b'k', rest @ ..] => {
            let [task] = numbers::<1>(rest)?;
            Ok(Call::Take(task))
        }
        [b'g', rest @ ..] => {
            let [agent, task] = numbers::<2>(rest)?;
            Ok(Call::Signal { agent, task })
        }
        [b't', rest @ ..] => {
            let [agent] = numbers::<1>(rest)?;
            Ok(Call::Turn(agent))
        }
        _ => Err(Fault::Unknown),
    }
}
