// Runs a script of calls: reads it from standard input, and prints what is told of each line.
#![tactic(auto)]

mod cut;
mod fault;
mod input;
mod line;
mod number;
mod opening;
mod parse;
mod script;
mod session;
#[cfg(test)]
mod tests;
mod told;

use std::io;

// One byte more than a script may have, so that a longer one is seen.
const ROOM: usize = script::LIMIT + 1;

fn main(rt: HostRuntime) -> io::Result<()> {
    let mut input = [0; ROOM];
    let len = input::fill(&mut rt.stdin(), &mut input)?;
    let out = script::script(rt.alloc(), &input[..len])?;
    print!(rt; "{out}")
}
