// The lines of a text.
ghost use Rattle.std.specs.Prelude.{◌≡◌, List, [], length, IfOk, MatchOption};
ghost use Rattle.std.specs.Iterator.{at_most};
ghost use Rattle.script.specs.Lines.{Cut, Cuts};
ghost use Rattle.script.specs.Settled.{Unanswered};

use crate::line::Line;
use crate::parse::parse;
use std::alloc::{AllocError, Global};

// The first line of a text and what comes after its newline, unless the text is empty.
pub(crate) fn cut(s: &[u8]) -> Option<(&[u8], &[u8])>
    ensures { MatchOption result (s.now ≡ []) (λ x. Cut s.now x.0.now x.1.now) }
{
    if s.is_empty() {
        return None;
    }
    match s.iter().position(|b| *b == b'\n') {
        Some(end) => Some((&s[..end], &s[end + 1..])),
        None => Some((s, &[])),
    }
}

// The lines of a text, one after another.
#[derive(Drop)]
struct Lines<'a>(&'a [u8]);

impl<'a> Iterator for Lines<'a> {
    type Item = &'a [u8];

    ghost remaining = { λ s. at_most (length s.0.now) };

    ghost next_gives = { Cuts };

    fn next(&mut self) -> Option<&'a [u8]> {
        let (line, rest) = cut(self.0)?;
        self.0 = rest;
        Some(line)
    }
}

// What each line of the text spells, in their order.
pub(crate) fn read_lines(heap: Global, text: &[u8]) -> Result<Vec<Line>, AllocError>
    ensures reads { IfOk result (λ v. Unanswered text.now v.items) }
    ensures once { IfOk result (λ v. (ls : List Line) → Unanswered text.now ls → ls ≡ v.items) }
{
    Lines(text)
        .map(|line| Line::from(parse(line)))
        .collect(heap)
}
