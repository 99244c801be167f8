// The calls of an engine, and what they answer.

#[derive(Clone, Copy, PartialEq, Eq, Debug)]
pub enum Call {
    Make,
    Take(u16),
    Signal { agent: u16, task: u16 },
    Turn(u16),
}

// What a call answers that is not refused.
#[derive(Clone, Copy, PartialEq, Eq, Debug)]
pub enum Answer {
    // The final task, and the root task under it.
    Made { finish: u16, root: u16 },
    Taken,
    Signalling,
    Moved(Moved),
}

// What a turn comes to.
#[derive(Clone, Copy, PartialEq, Eq, Debug)]
pub enum Moved {
    // The errand goes on.
    Going,
    // The signal has ended, and the finish waits on.
    Signalled,
    // The signal has ended, and the finish is ready.
    Ready(u16),
}
