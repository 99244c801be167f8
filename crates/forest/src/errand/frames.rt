ghost use Rattle.std.specs.Prelude.{◌≡◌, ◌<◌, ◌≤◌};
ghost use Rattle.forest.specs.Waits.{none_waits, newest, top_of, pushed, dropped};

use crate::errand::{Frame, Role};
use words::Word;

// The nodes that wait for an errand: at most 16, the newest last. An array with its height, since an errand is copied and
// the heap is not used. The bound is said by the contracts: with the bound in the
// type, by an `impl Model`, the proof of a caller in another crate did not close.
#[derive(Clone, Copy)]
pub struct Frames {
    pub(crate) height: usize,
    pub(crate) frames: [Frame; 16],
}

impl Frames {
    pub(crate) fn none() -> Frames
        ensures { result ≡ none_waits }
    {
        let frame = Frame {
            node: 0,
            role: Role::Owner,
            word: Word::blank(),
        };
        Frames {
            height: 0,
            frames: [frame; 16],
        }
    }

    // The newest, if there is one.
    pub(crate) fn top(&self) -> Option<Frame>
        requires { self.now.height ≤ 16 }
        ensures { result ≡ top_of self.now }
    {
        if self.height == 0 {
            return None;
        }
        Some(self.frames[self.height - 1])
    }

    pub(crate) fn push(self, frame: Frame) -> Frames
        requires { self.height < 16 }
        ensures { result ≡ pushed frame self }
    {
        let mut frames = self.frames;
        frames[self.height] = frame;
        Frames {
            height: self.height + 1,
            frames,
        }
    }

    // The newest, and the others.
    pub(crate) fn pop(self) -> (Frame, Frames)
        requires { (0 < self.height) × (self.height ≤ 16) }
        ensures { result ≡ (newest self, dropped self) }
    {
        let height = self.height - 1;
        (self.frames[height], Frames { height, ..self })
    }
}
