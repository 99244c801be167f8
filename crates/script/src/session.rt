// The lines after the first, from their text to what is printed of them.
ghost use Rattle.std.specs.Prelude.{◌≡◌, All, length, IfOk, OnOk, string_bytes};
ghost use Rattle.script.specs.Settled.{calls_of, settled, IsTold, AskedOf, page_of};
ghost use Rattle.script.specs.Told.{Session};

use crate::cut::read_lines;
use crate::line::Line;
use crate::told::Told;
use banks::Bank;
use engine::{Answer, Call, EngineFault, run};
use std::alloc::{AllocError, Global};

// The calls among the lines.
fn calls_in(heap: Global, lines: &[Line]) -> Result<Vec<Call>, AllocError>
    ensures { IfOk result (λ v. v.items ≡ calls_of lines.now) }
{
    lines.iter().filter_map(|line| line.asked()).collect(heap)
}

// Puts each answer in the place of its call.
#[tactic(auto, using(crate::proofs::Settled::call_answered, crate::proofs::Settled::line_kept))]
fn settle(lines: &mut [Line], answers: &[Result<Answer, EngineFault>])
    requires { length answers.now ≡ length (calls_of lines.old) }
    ensures told { All IsTold lines.new }
    ensures lines { lines.new ≡ settled lines.old answers.now }
{
    let mut left = answers.iter();
    for line in lines.iter_mut() {
        if matches!(line, Line::Asks(_)) {
            *line = Line::from(*left.next().unwrap());
        }
    }
}

// The bank takes the calls among the lines, and each answer stands in the place of its call.
//
// The lists of the calls and of the answers are let go here, before the page grows.
fn ask<B: Bank + Drop>(heap: Global, bank: B, lines: &mut [Line]) -> Result<(), AllocError>
    ensures told { OnOk result (All IsTold lines.new) }
    ensures answers { OnOk result (AskedOf B.means B.does bank lines.old lines.new) }
{
    let calls = calls_in(heap, lines)?;
    let answers = run(heap, bank, &calls)?;
    settle(lines, &answers);
    Ok(())
}

// So many lines are put on a page whole. Then it has room for a line, and doubles where it is full, whatever the pieces
// are in which a line comes.
const WHOLE: usize = 8;

// What is printed of the lines, which begin at the second of the script: the answer to a call, or the fault of the call or of the line.
fn page(heap: Global, lines: &[Line]) -> Result<String, AllocError>
    requires { All IsTold lines.now }
    ensures { IfOk result (λ s. string_bytes s ≡ page_of 2 lines.now) }
{
    let mut out = String::new(heap);
    for (index, line) in lines.iter().enumerate() {
        let outcome = match *line {
            Line::Answered(answer) => Ok(answer),
            Line::Refused(fault) => Err(fault),
            // No line is left that asks.
            Line::Asks(_) => unreachable!(),
        };
        let told = Told {
            line: index + 2,
            outcome,
        };
        if index < WHOLE {
            out.push_str(&format!(in heap; "{told}\n")?)?;
        } else {
            writeln!(out, "{told}")?;
        }
    }
    Ok(out)
}

// All lines are read before the bank takes the first call.
pub(crate) fn session<B: Bank + Drop>(
    heap: Global,
    bank: B,
    text: &[u8],
) -> Result<String, AllocError>
    ensures { IfOk result (λ s. Session B.means B.does bank text.now (string_bytes s)) }
{
    let mut lines = read_lines(heap, text)?;
    ask(heap, bank, &mut lines)?;
    page(heap, &lines)
}
