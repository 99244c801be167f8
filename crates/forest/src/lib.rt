// Trees of counters in one table: the flat, the fixed and the growing bank over one machine.
#![tactic(auto)]

mod errand;
pub mod fixed;
pub mod flat;
pub mod forest;
pub mod growing;
mod ledger;
pub mod node;
mod tables;
mod trees;

pub use fixed::Fixed;
pub use flat::Flat;
pub use forest::Forest;
pub use growing::Growing;
pub use node::Node;
