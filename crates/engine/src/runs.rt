ghost use Rattle.std.specs.Prelude.{◌≡◌, ◌+◌, ◌<◌, [], ◌∷◌, ◌++◌, length, IfOk, Result, vec_len, vec_capacity};
ghost use Rattle.engine.specs.State.{state_of};
ghost use Rattle.engine.specs.Runs.{Step, Runs};

use crate::call::{Answer, Call};
use crate::engine::Engine;
use crate::fault::EngineFault;
use crate::tables::Tables;
use banks::Bank;
use std::alloc::{AllocError, Global};

// Performs one call, and appends its answer.
fn perform<B: Bank>(
    engine: &mut Engine<B>,
    call: Call,
    answers: &mut Vec<Result<Answer, EngineFault>>,
)
    requires { vec_len answers.old < vec_capacity answers.old }
    ensures step { (a : Result Answer EngineFault) × Step B.means B.does (state_of engine.old) call a (state_of engine.new) × (answers.new.items ≡ answers.old.items ++ (a ∷ [])) }
    ensures len { vec_len answers.new ≡ vec_len answers.old + 1 }
    ensures capacity { vec_capacity answers.new ≡ vec_capacity answers.old }
{
    answers.push_reserved(engine.call(call));
}

// Makes an engine over the bank, performs each call in order, and gives the answers.
pub fn run<B: Bank + Drop>(
    heap: Global,
    bank: B,
    calls: &[Call],
) -> Result<Vec<Result<Answer, EngineFault>>, AllocError>
    ensures runs { IfOk result (λ v. Runs B.means B.does bank calls.now v.items) }
    ensures len { IfOk result (λ v. length v.items ≡ length calls.now) }
{
    let mut answers = Vec::with_capacity(heap, calls.len())?;
    // Built in its place: the answer of `Engine::new` would be copied, and stand on the stack twice.
    let mut engine = Engine {
        bank,
        tables: Tables::new(),
    };
    // No clause of `map` says what a closure answers that changes the engine, so this is a loop.
    for call in calls {
        perform(&mut engine, *call, &mut answers);
    }
    Ok(answers)
}
