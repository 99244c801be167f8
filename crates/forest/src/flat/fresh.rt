ghost use Rattle.std.specs.Prelude.{◌≡◌, replicate};
ghost use Rattle.forest.specs.Flat.{FlatNew, flat_means};
ghost use Rattle.forest.specs.FlatTables.{FlatLaw};
ghost use Rattle.banks.specs.Meaning.{New};
ghost use Rattle.forest.specs.Tables.{no_node};

use crate::flat::{Flat, FlatTrees};
use crate::forest::Forest;
use crate::ledger::Ledger;
use crate::node::Node;
use crate::tables::Tables;

impl Forest<FlatTrees> {
    // A new bank: no tally is open and all agents are idle.
    pub fn new() -> Flat
        ensures value { FlatNew result }
        ensures new { New (flat_means result) }
        ensures law { FlatLaw }
    {
        Forest {
            tables: Tables {
                trees: FlatTrees { nodes: blanks() },
                ledger: Ledger::new(),
            },
        }
    }
}

// A root for each tally, none of them used.
fn blanks() -> [Node; 256]
    ensures { result ≡ replicate 256 no_node }
{
    [Node::blank(); 256]
}
