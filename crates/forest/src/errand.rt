use crate::errand::frames::Frames;
use banks::{Coin, Side};
use words::Word;

pub mod frames;
pub mod turns;

// What an errand does at its node in its next turn: one access, a read or a compare-and-set.
#[derive(Clone, Copy)]
pub enum Phase {
    // No errand.
    Idle,
    // About to arrive: links two children at its place, if it may.
    Grow { side: Side, coin: Coin },
    // About to arrive: reads the children of its place, and picks where it starts.
    Fork { side: Side },
    // Arriving: reads the word.
    Read,
    // Arriving at a counted word: sets the count one higher.
    Raise,
    // Arriving at an empty word: sets it half, at a root counted with count 1.
    Open,
    // Arrived at the parent: sets the half word counted with count 1.
    Settle,
    // Departing: reads the word.
    Look,
    // Departing: sets the count one lower.
    Lower,
}

// How an agent came to a half word: it opened it, or found it so and helps its owner.
#[derive(Clone, Copy)]
pub enum Role {
    Owner,
    Helper,
}

// A node whose half word waits for an arrival at the parent.
#[derive(Clone, Copy)]
pub struct Frame {
    pub(crate) node: u16,
    pub(crate) role: Role,
    // The half word, as its agent remembers it.
    pub(crate) word: Word,
}

// An agent's errand at a tally: where it is, the word that it remembers, and the nodes below that wait for it, the
// newest last. While it settles the newest, or departs because it lost that, the newest still stands among them.
#[derive(Clone, Copy)]
pub struct Errand {
    pub(crate) phase: Phase,
    pub(crate) tally: u16,
    pub(crate) node: u16,
    pub(crate) word: Word,
    // The left and right places for later arrivals, which the end of an arrival answers.
    pub(crate) later: (u16, u16),
    pub(crate) waiting: Frames,
}

// What a turn answers.
#[derive(Clone, Copy)]
pub enum Said {
    Going,
    // An arrival at this node has ended.
    Arrived { node: u16 },
    Departed { drained: bool },
}

// What a turn leaves: the errand, the word that it writes at its node, if any, and its answer.
#[derive(Clone, Copy)]
pub struct After {
    pub(crate) errand: Errand,
    pub(crate) write: Option<Word>,
    pub(crate) said: Said,
}
