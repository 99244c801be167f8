ghost use Rattle.std.specs.Prelude.{◌≡◌, ◌<◌, List, length, slice_set};
ghost use Rattle.forest.specs.declared.node.Node.{Node};

use crate::node::Node;

// A table of nodes. The growing trees stand over any, so that their impl of `Trees` names no lifetime.
pub trait Table: Drop {
    ghost list: { Self → List Node };

    fn nodes(&self) -> &[Node]
        ensures { result.now ≡ list self.now };

    // Puts a node in the place of another.
    fn put(&mut self, i: u16, node: Node)
        requires { i < length (list self.old) }
        ensures { list self.new ≡ slice_set (list self.old) i node };
}

impl Table for &mut [Node] {
    ghost list = { λ t. t.now };

    fn nodes(&self) -> &[Node] {
        self
    }

    fn put(&mut self, i: u16, node: Node) {
        self[i as usize] = node;
    }
}
