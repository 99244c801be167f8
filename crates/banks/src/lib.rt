// Tally banks: what a bank means, and the calls that every bank has.
#![tactic(auto)]

pub mod answer;
pub mod bank;
pub mod fault;

pub use answer::{Coin, Reading, Side, Turned};
pub use bank::{Bank, Limited};
pub use fault::BankFault;
