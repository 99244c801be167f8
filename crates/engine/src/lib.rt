// The task engine over any bank: tasks, the calls on them, and runs of calls.
#![tactic(auto)]

pub mod call;
pub mod engine;
pub mod fault;
mod rows;
pub mod runs;
mod tables;
pub mod task;

pub use call::{Answer, Call, Moved};
pub use engine::Engine;
pub use fault::EngineFault;
pub use runs::run;
