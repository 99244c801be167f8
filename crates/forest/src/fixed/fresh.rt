ghost use Rattle.forest.specs.Fixed.{FixedNew, fixed_means};
ghost use Rattle.banks.specs.Meaning.{New};

use crate::fixed::laying::lay;
use crate::fixed::{Fixed, FixedTrees};
use crate::forest::Forest;
use crate::ledger::Ledger;
use crate::tables::Tables;

impl Forest<FixedTrees> {
    // A new bank: no tally is open and all agents are idle.
    pub fn new() -> Fixed
        ensures value { FixedNew result }
        ensures new { New (fixed_means result) }
    {
        Forest {
            tables: Tables {
                trees: FixedTrees { nodes: lay() },
                ledger: Ledger::new(),
            },
        }
    }
}
