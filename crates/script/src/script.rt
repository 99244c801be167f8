// A whole script, from its bytes to what is printed.
ghost use Rattle.std.specs.Prelude.{◌≡◌, IfOk, MatchResult, string_bytes};
ghost use Rattle.script.specs.Texts.{refusal_text, row};
ghost use Rattle.script.specs.Whole.{NoBank, Opened, Opens, Printed, Tells};

use crate::cut::cut;
use crate::fault::Fault;
use crate::opening::{Kind, bank_of};
use crate::session::session;
use crate::told::Told;
use forest::Flat;
use std::alloc::{AllocError, Global};

// How many bytes a script may have.
pub(crate) const LIMIT: usize = 65536;

// What is printed of a first line that is accepted.
const ACCEPTED: &str = "ok\n";

// What is printed for an input.
pub(crate) fn script(heap: Global, input: &[u8]) -> Result<String, AllocError>
    ensures { IfOk result (λ s. Printed input.now (string_bytes s)) }
{
    if input.len() > LIMIT {
        return refused(heap, 0, Fault::TooLong);
    }
    match begin(input) {
        Ok((kind, rest)) => opened(heap, kind, rest),
        Err(fault) => refused(heap, 1, fault),
    }
}

// The bank that the first line names, and the text after that line.
fn begin(input: &[u8]) -> Result<(Kind, &[u8]), Fault>
    ensures { MatchResult result (λ x. Opens input.now x.0 x.1.now) (λ e. (e ≡ Fault.Unknown) × NoBank input.now) }
{
    let (first, rest) = cut(input).ok_or(Fault::Unknown)?;
    Ok((bank_of(first)?, rest))
}

// The one line that is printed where nothing is run.
fn refused(heap: Global, line: usize, fault: Fault) -> Result<String, AllocError>
    ensures { IfOk result (λ s. string_bytes s ≡ row (refusal_text line fault)) }
{
    let refusal = Told {
        line,
        outcome: Err(fault),
    };
    format!(in heap; "{refusal}\n")
}

// The first line is accepted, and the others are told.
fn opened(heap: Global, kind: Kind, rest: &[u8]) -> Result<String, AllocError>
    ensures { IfOk result (λ s. Opened kind rest.now (string_bytes s)) }
{
    let mut page = tell(heap, kind, rest)?;
    // Room for just these bytes, or the page would double.
    page.reserve_exact(ACCEPTED.len())?;
    page.insert_str(0, ACCEPTED)?;
    Ok(page)
}

// The lines over a new bank of the kind.
fn tell(heap: Global, kind: Kind, text: &[u8]) -> Result<String, AllocError>
    ensures { IfOk result (λ s. Tells kind text.now (string_bytes s)) }
{
    match kind {
        Kind::Flat => session(heap, Flat::new(), text),
    }
}
