use words::Word;

pub mod parts;

// A node of a tally's tree. Nodes name one another by their numbers in one table, since no crate of the library uses the
// heap.
#[derive(Clone, Copy)]
pub struct Node {
    pub(crate) word: Word,
    // None at a root.
    pub(crate) parent: Option<u16>,
    // The left child; the right child is one higher.
    pub(crate) left: Option<u16>,
    // How many links lead up to the root.
    pub(crate) depth: u8,
    pub(crate) tally: u16,
    // The receipts out at this node.
    pub(crate) out: u16,
}
