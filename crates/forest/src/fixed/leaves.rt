ghost use Rattle.std.specs.Prelude.{◌≡◌, ◌<◌};
ghost use Rattle.forest.specs.Plans.{leaf};

use crate::fixed::laying::WIDTH;

const FIRST_LEAF: u16 = 7;

const LEAVES: u16 = 8;

// The leaf of a tally at which an agent arrives.
pub(crate) fn leaf(agent: u16, tally: u16) -> u16
    requires { tally < 256 }
    ensures { result ≡ leaf agent tally }
{
    WIDTH * tally + (FIRST_LEAF + agent % LEAVES)
}
