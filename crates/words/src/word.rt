ghost use Rattle.std.specs.Prelude.{◌<◌, ◌≤◌};
ghost use Rattle.words.specs.Kinds.{least, most};

use crate::kind::Kind;

pub mod packing;
pub mod parts;
pub mod steps;
pub mod worked;

// A node word. No value can exist whose kind and count disagree. Ghost fields and no `impl Model`, since clauses read its
// parts, and these facts are true of each value.
#[derive(Clone, Copy, PartialEq, Eq, Debug)]
pub struct Word {
    kind: Kind,
    count: u16,
    version: u16,
    ghost lawful: { (least kind ≤ count) × (count ≤ most kind) },
    ghost narrow: { version < 65536 },
}
