ghost use Rattle.std.specs.Prelude.{◌≡◌, ◌+◌, ◌<◌, ◌≤◌, true, length, replicate};
ghost use Rattle.forest.specs.Tables.{no_node, at, child, may_link, nodes_by, used_by};

use crate::growing::table::Table;
use crate::node::Node;
use banks::Coin;

// No node is deeper.
const DEPTH: u8 = 16;

// Only the first nodes of a table are used.
const NODES: usize = 8192;

// Blanks every node.
pub(crate) fn blank(nodes: &mut [Node])
    ensures { nodes.new ≡ replicate (length nodes.old) no_node }
{
    nodes.fill(Node::blank());
}

// Whether two children may be linked at a node.
fn may_link(nodes: &[Node], node: u16, used: u16, coin: Coin) -> bool
    requires { node < length nodes.now }
    ensures value { result ≡ may_link nodes.now node used coin }
    ensures shallow { result ≡ true → (at nodes.now node).depth < 16 }
    ensures room { result ≡ true → used + 2 ≤ length nodes.now }
    ensures few { result ≡ true → used + 2 ≤ 8192 }
{
    let parent = nodes[node as usize];
    coin == Coin::Heads
        && parent.left.is_none()
        && parent.depth < DEPTH
        && used as usize + 2 <= nodes.len().min(NODES)
}

// An empty child of a node.
fn child(node: u16, parent: Node) -> Node
    requires { parent.depth < 16 }
    ensures { result ≡ child node parent }
{
    Node {
        parent: Some(node),
        depth: parent.depth + 1,
        tally: parent.tally,
        ..Node::blank()
    }
}

// Links the next two unused nodes as children of a node, if it may. Answers how many nodes are in use then.
pub(crate) fn link<N: Table>(table: &mut N, node: u16, used: u16, coin: Coin) -> u16
    requires { node < length (N.list table.old) }
    ensures nodes { N.list table.new ≡ nodes_by (may_link (N.list table.old) node used coin) (N.list table.old) node used }
    ensures used { result ≡ used_by (may_link (N.list table.old) node used coin) used }
{
    if !may_link(table.nodes(), node, used, coin) {
        return used;
    }
    let parent = table.nodes()[node as usize];
    let child = child(node, parent);
    let linked = Node {
        left: Some(used),
        ..parent
    };
    table.put(node, linked);
    table.put(used, child);
    table.put(used + 1, child);
    used + 2
}
