// Node words: what a node of a tally's tree holds, its 32 bits, and the steps that turns make on it.
#![tactic(auto)]

pub mod fault;
pub mod kind;
pub mod word;

pub use fault::WordFault;
pub use kind::Kind;
pub use word::Word;
