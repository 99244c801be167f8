ghost use Rattle.std.specs.Prelude.{◌≡◌, ℕ, ◌<◌, ◌≤◌, true, Some};
ghost use Rattle.forest.specs.declared.errand.Phase.TheVariants.{Fork, Look, Settle};
ghost use Rattle.forest.specs.Errands.{begun, no_errand, comer, grower, goer, idles, mounts, goes, remembers, climbs, arrived, resumed, departed, helps, raises, opens, settles, loses, lowers, still, again, turned, at_node};
ghost use Rattle.forest.specs.Layouts.{heard};
ghost use Rattle.forest.specs.Tables.{twins, forked};

use crate::errand::frames::Frames;
use crate::errand::{After, Errand, Frame, Phase, Role, Said};
use banks::{Coin, Side, Turned};
use words::{Kind, Word};

impl Errand {
    // An errand that has just begun.
    fn begun(phase: Phase, tally: u16, node: u16, later: (u16, u16)) -> Errand
        ensures { result ≡ begun phase tally node later }
    {
        Errand {
            phase,
            tally,
            node,
            word: Word::blank(),
            later,
            waiting: Frames::none(),
        }
    }

    // No errand. By hand and no `Default`, since its contract names it.
    pub(crate) fn idle() -> Errand
        ensures { result ≡ no_errand }
    {
        Errand::begun(Phase::Idle, 0, 0, (0, 0))
    }

    // An arrival that begins at a node.
    pub(crate) fn arriving(tally: u16, node: u16, later: (u16, u16)) -> Errand
        ensures { result ≡ comer tally node later }
    {
        Errand::begun(Phase::Read, tally, node, later)
    }

    // An arrival that begins with the growth turns.
    pub(crate) fn growing(tally: u16, node: u16, side: Side, coin: Coin) -> Errand
        ensures { result ≡ grower tally node side coin }
    {
        Errand::begun(Phase::Grow { side, coin }, tally, node, (0, 0))
    }

    // A departure that begins at a node.
    pub(crate) fn departing(tally: u16, node: u16) -> Errand
        ensures { result ≡ goer tally node }
    {
        Errand::begun(Phase::Look, tally, node, (0, 0))
    }

    pub(crate) fn is_idle(&self) -> bool
        ensures { result ≡ idles self.now.phase }
    {
        matches!(self.phase, Phase::Idle)
    }

    fn goes(self) -> After
        ensures { result ≡ goes self }
    {
        After {
            errand: self,
            write: None,
            said: Said::Going,
        }
    }

    // Goes on with a word remembered.
    fn remembers(self, phase: Phase, word: Word) -> After
        ensures { result ≡ remembers phase word self }
    {
        Errand {
            phase,
            word,
            ..self
        }
        .goes()
    }

    // Whether the word found is still the one remembered.
    fn still(&self, found: Word) -> bool
        ensures { result ≡ still self.now found }
    {
        self.word == found
    }

    // A compare-and-set is lost: the word is read anew.
    fn again(self, phase: Phase) -> After
        ensures { result ≡ again phase self }
    {
        Errand { phase, ..self }.goes()
    }

    // Climbs to the parent, and leaves the node waiting.
    fn climbs(self, role: Role, word: Word, up: u16) -> After
        requires { self.waiting.height < 16 }
        ensures { result ≡ climbs role word up self }
    {
        let frame = Frame {
            node: self.node,
            role,
            word,
        };
        Errand {
            phase: Phase::Read,
            node: up,
            waiting: self.waiting.push(frame),
            ..self
        }
        .goes()
    }

    // The arrival at the node is done: the node below that waits is settled next, if there is one.
    fn arrived(self) -> After
        requires { self.waiting.height ≤ 16 }
        ensures { result ≡ arrived self }
    {
        match self.waiting.top() {
            None => After {
                errand: Errand::idle(),
                write: None,
                said: Said::Arrived { node: self.node },
            },
            Some(top) => Errand {
                phase: Phase::Settle,
                node: top.node,
                word: top.word,
                ..self
            }
            .goes(),
        }
    }

    // The newest frame is over: its owner has arrived there, its helper reads the word anew.
    fn resumed(self) -> After
        requires { (0 < self.waiting.height) × (self.waiting.height ≤ 16) }
        ensures { result ≡ resumed self }
    {
        let (top, waiting) = self.waiting.pop();
        let popped = Errand {
            phase: Phase::Read,
            node: top.node,
            waiting,
            ..self
        };
        match top.role {
            Role::Owner => popped.arrived(),
            Role::Helper => popped.goes(),
        }
    }

    // A departure is done: the errand's own, or that of an agent that lost its settling.
    fn departed(self, drained: bool) -> After
        requires { self.waiting.height ≤ 16 }
        ensures { result ≡ departed drained self }
    {
        match self.waiting.top() {
            None => After {
                errand: Errand::idle(),
                write: None,
                said: Said::Departed { drained },
            },
            Some(_) => self.resumed(),
        }
    }

    // A half word is found: its helper arrives at the parent first. No root is ever half.
    fn helps(self, found: Word, parent: Option<u16>) -> After
        requires { (up : ℕ) → parent ≡ Some up → self.waiting.height < 16 }
        ensures { result ≡ helps found parent self }
    {
        match parent {
            None => self.goes(),
            Some(up) => self.climbs(Role::Helper, found, up),
        }
    }

    // Sets the count one higher.
    fn raises(self, found: Word) -> After
        requires { self.waiting.height ≤ 16 }
        ensures { result ≡ raises found self }
    {
        if !self.still(found) {
            return self.again(Phase::Read);
        }
        After {
            write: Some(found.raised()),
            ..self.arrived()
        }
    }

    // Opens an empty word: its owner arrives at the parent next, at a root it has arrived.
    fn opens(self, found: Word, parent: Option<u16>) -> After
        requires room { (up : ℕ) → parent ≡ Some up → self.waiting.height < 16 }
        requires high { self.waiting.height ≤ 16 }
        ensures { result ≡ opens found parent self }
    {
        if !self.still(found) {
            return self.again(Phase::Read);
        }
        let word = found.opened(parent.is_none());
        let after = match parent {
            None => self.arrived(),
            Some(up) => self.climbs(Role::Owner, word, up),
        };
        After {
            write: Some(word),
            ..after
        }
    }

    // Settles the remembered half word.
    fn settles(self, found: Word, parent: Option<u16>) -> After
        requires { (0 < self.waiting.height) × (self.waiting.height ≤ 16) }
        ensures { result ≡ settles found parent self }
    {
        if !self.still(found) {
            return self.loses(parent);
        }
        After {
            write: Some(found.settled()),
            ..self.resumed()
        }
    }

    // The settling is lost: the arrival at the parent is given back first. A node that waits has a parent.
    fn loses(self, parent: Option<u16>) -> After
        ensures { result ≡ loses parent self }
    {
        match parent {
            None => self.goes(),
            Some(up) => self.gives_back(up),
        }
    }

    // Goes to the parent, where its arrival is given back.
    fn gives_back(self, up: u16) -> After
        ensures { result ≡ goes (at_node Look up self) }
    {
        Errand {
            phase: Phase::Look,
            node: up,
            ..self
        }
        .goes()
    }

    // Sets the count one lower. From 1, the node's own arrival at its parent is given back next.
    fn lowers(self, found: Word, parent: Option<u16>) -> After
        requires { self.waiting.height ≤ 16 }
        ensures { result ≡ lowers found parent self }
    {
        if !self.still(found) {
            return self.again(Phase::Look);
        }
        let last = found.count() <= 1;
        let after = match parent {
            Some(up) if last => self.gives_back(up),
            _ => self.departed(last),
        };
        After {
            write: Some(found.lowered()),
            ..after
        }
    }

    // One turn at a node with this parent, by what the errand is at and by the kind of the word found there together: the
    // match is the table of turns, row by row.
    // A compare-and-set writes only where the word found is still the one remembered.
    pub(crate) fn turn(self, found: Word, parent: Option<u16>) -> After
        requires room { (up : ℕ) → parent ≡ Some up → mounts self.phase ≡ true → self.waiting.height < 16 }
        requires high { self.waiting.height ≤ 16 }
        requires waits { self.phase ≡ Settle → 0 < self.waiting.height }
        ensures { result ≡ turned self.phase found.kind self found parent }
    {
        match (self.phase, found.kind()) {
            (Phase::Idle | Phase::Grow { .. } | Phase::Fork { .. }, _) => self.goes(),
            (Phase::Read, Kind::Empty) => self.remembers(Phase::Open, found),
            (Phase::Read, Kind::Half) => self.helps(found, parent),
            (Phase::Read, Kind::Counted) => self.remembers(Phase::Raise, found),
            (Phase::Raise, Kind::Counted) => self.raises(found),
            (Phase::Open, Kind::Empty) => self.opens(found, parent),
            (Phase::Raise | Phase::Open, _) => self.again(Phase::Read),
            (Phase::Settle, Kind::Half) => self.settles(found, parent),
            (Phase::Settle, _) => self.loses(parent),
            (Phase::Look, _) => self.remembers(Phase::Lower, found),
            (Phase::Lower, Kind::Counted) => self.lowers(found, parent),
            (Phase::Lower, _) => self.again(Phase::Look),
        }
    }

    // The growth turn is over: the children are read next.
    pub(crate) fn grown(self, side: Side) -> Errand
        ensures { result ≡ at_node (Fork side) self.node self }
    {
        Errand {
            phase: Phase::Fork { side },
            ..self
        }
    }

    // The growth is over: the arrival starts at one of the later places, by its side.
    pub(crate) fn forked(self, left: Option<u16>, side: Side) -> Errand
        requires { (l : ℕ) → left ≡ Some l → l < 65535 }
        ensures { result ≡ forked side (twins self.node left) self }
    {
        let later = twins(self.node, left);
        let node = match side {
            Side::Left => later.0,
            Side::Right => later.1,
        };
        Errand {
            phase: Phase::Read,
            node,
            later,
            ..self
        }
    }
}

// The children of a node, or the node twice.
fn twins(node: u16, left: Option<u16>) -> (u16, u16)
    requires { (l : ℕ) → left ≡ Some l → l < 65535 }
    ensures { result ≡ twins node left }
{
    match left {
        None => (node, node),
        Some(left) => (left, left + 1),
    }
}

impl Said {
    // What a turn is heard to say: the place of its node, counted from the base of the tally, and the later places.
    pub(crate) fn heard(self, base: u16, later: (u16, u16)) -> Turned
        ensures { result ≡ heard base later self }
    {
        match self {
            Said::Going => Turned::Going,
            Said::Arrived { node } => Turned::Arrived {
                place: node.saturating_sub(base),
                left: later.0,
                right: later.1,
            },
            Said::Departed { drained } => Turned::Departed { drained },
        }
    }
}
