// What a bank's calls take and answer.

// At which of two later places an arrival starts.
#[derive(Clone, Copy, PartialEq, Eq, Debug)]
pub enum Side {
    Left,
    Right,
}

// Whether an arrival may grow the tree: heads, it may.
#[derive(Clone, Copy, PartialEq, Eq, Debug)]
pub enum Coin {
    Heads,
    Tails,
}

// What a turn comes to.
#[derive(Clone, Copy, PartialEq, Eq, Debug)]
pub enum Turned {
    // The errand goes on.
    Going,
    // The arrival has ended: the place of its receipt, and the left and right places for later arrivals.
    Arrived { place: u16, left: u16, right: u16 },
    // The departure has ended.
    Departed { drained: bool },
}

// What a tally reads.
#[derive(Clone, Copy, PartialEq, Eq, Debug)]
pub enum Reading {
    Held,
    Zero,
}
