use crate::errand::Errand;

pub mod entries;

// What a bank keeps beside its nodes. Arrays, since no crate of the library uses the heap.
#[derive(Clone, Copy)]
pub struct Ledger {
    // Of each agent.
    pub(crate) errands: [Errand; 16],
    // Of each tally: its receipts out and its arriving agents.
    pub(crate) load: [u16; 256],
    // The tallies below it are open.
    pub(crate) opened: u16,
}
