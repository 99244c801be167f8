ghost use Rattle.std.specs.Prelude.{length};
ghost use Rattle.forest.specs.Growing.{GrowingNew, growing_means};
ghost use Rattle.banks.specs.Meaning.{New};

use crate::forest::Forest;
use crate::growing::growth::blank;
use crate::growing::{Growing, GrowingTrees};
use crate::ledger::Ledger;
use crate::node::Node;
use crate::tables::Tables;
use crate::trees::TALLIES;

impl<'a> Forest<GrowingTrees<&'a mut [Node]>> {
    // A new bank over a table, which it blanks: no tally is open and all agents are idle.
    pub fn new(nodes: &'a mut [Node]) -> Growing<'a>
        ensures value { GrowingNew (length nodes.old) result }
        ensures new { New (growing_means result) }
    {
        blank(nodes);
        let tallies = nodes.len().min(TALLIES as usize) as u16;
        Forest {
            tables: Tables {
                trees: GrowingTrees {
                    table: nodes,
                    tallies,
                    used: tallies,
                },
                ledger: Ledger::new(),
            },
        }
    }
}
