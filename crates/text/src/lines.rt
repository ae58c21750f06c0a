// The lines of a text, one after another.
ghost use Rattle.std.specs.Prelude.{length};
ghost use Rattle.std.specs.Iterator.{YieldsFirstRef, at_most};
ghost use Rattle.text.specs.Lines.{lines_left, text_left};

use crate::runs::{Separator, first_run};

/// The lines of a text that are still to come.
#[derive(Clone, Drop)]
pub struct Lines<'a> {
    pub(crate) rest: &'a [u8],
}

impl<'a> Iterator for Lines<'a> {
    type Item = &'a [u8];

    ghost next_gives = { YieldsFirstRef lines_left };

    ghost remaining = { λ lines. at_most (length (text_left lines)) };

    fn next(&mut self) -> Option<&'a [u8]> {
        if self.rest.is_empty() {
            return None;
        }
        let (line, rest) = first_run(self.rest, Separator::LineFeed);
        self.rest = rest;
        Some(line)
    }
}
