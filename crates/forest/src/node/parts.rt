ghost use Rattle.std.specs.Prelude.{◌≡◌};
ghost use Rattle.forest.specs.Layouts.{empty?, read_by};
ghost use Rattle.forest.specs.Tables.{no_node, root_node};

use crate::node::Node;
use banks::Reading;
use words::{Kind, Word};

impl Node {
    // A node that nobody has used. By hand and no `Default`, since its contract names the blank.
    pub fn blank() -> Node
        ensures { result ≡ no_node }
    {
        Node {
            word: Word::blank(),
            parent: None,
            left: None,
            depth: 0,
            tally: 0,
            out: 0,
        }
    }

    // The root of a tally that has just opened: counted, count 1, version 0, with one receipt out.
    pub(crate) fn root(tally: u16) -> Node
        ensures { result ≡ root_node tally }
    {
        Node {
            word: Word::blank().settled(),
            tally,
            out: 1,
            ..Node::blank()
        }
    }

    pub fn word(&self) -> Word
        ensures { result ≡ self.now.word }
    {
        self.word
    }

    // The receipts out at it.
    pub fn out(&self) -> u16
        ensures { result ≡ self.now.out }
    {
        self.out
    }

    // What a tally reads, by the word of its root.
    pub(crate) fn reading(&self) -> Reading
        ensures { result ≡ read_by (empty? self.now.word.kind) }
    {
        match self.word.kind() {
            Kind::Empty => Reading::Zero,
            Kind::Half | Kind::Counted => Reading::Held,
        }
    }
}
