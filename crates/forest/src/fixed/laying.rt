ghost use Rattle.std.specs.Prelude.{◌≡◌, ◌<◌};
ghost use Rattle.forest.specs.Plans.{fixed_parent, fixed_depth, fixed_node, Laid};

use crate::node::Node;
use std::array;

// So many nodes has a tally.
pub(crate) const WIDTH: u16 = 15;

fn parent(tally: u16, place: u16) -> Option<u16>
    requires { (tally < 256) × (place < 15) }
    ensures { result ≡ fixed_parent tally place }
{
    if place == 0 {
        None
    } else {
        Some(WIDTH * tally + (place - 1) / 2)
    }
}

fn depth(place: u16) -> u8
    ensures { result ≡ fixed_depth place }
{
    match place {
        0 => 0,
        1..=2 => 1,
        3..=6 => 2,
        _ => 3,
    }
}

// A place of a tally that is not open yet.
fn laid(tally: u16, place: u16) -> Node
    requires { (tally < 256) × (place < 15) }
    ensures { result ≡ fixed_node tally place }
{
    Node {
        parent: parent(tally, place),
        depth: depth(place),
        tally,
        ..Node::blank()
    }
}

// The nodes of all tallies.
pub(crate) fn lay() -> [Node; 3840]
    ensures { Laid result }
{
    array::from_fn(|i| laid(i as u16 / WIDTH, i as u16 % WIDTH))
}
