// Turns of an agent at any bank, up to the one that ends its errand.
use banks::{Bank, Turned};
use std::process::Abort;

// So many turns that do not end the errand.
pub(crate) fn goes(rt: &impl Abort, bank: &mut impl Bank, agent: u16, turns: u16) {
    for _ in 0..turns {
        assert_eq!(rt; bank.turn(agent), Ok(Turned::Going));
    }
}

// The arrival ends in the last of so many turns, with these places: its own, left and right.
pub(crate) fn comes(
    rt: &impl Abort,
    bank: &mut impl Bank,
    agent: u16,
    turns: u16,
    (place, left, right): (u16, u16, u16),
) {
    goes(rt, bank, agent, turns.saturating_sub(1));
    let arrived = Turned::Arrived { place, left, right };
    assert_eq!(rt; bank.turn(agent), Ok(arrived));
}

// The departure ends in the last of so many turns.
pub(crate) fn leaves(rt: &impl Abort, bank: &mut impl Bank, agent: u16, turns: u16, drained: bool) {
    goes(rt, bank, agent, turns.saturating_sub(1));
    assert_eq!(rt; bank.turn(agent), Ok(Turned::Departed { drained }));
}
