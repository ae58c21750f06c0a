// A text cut into lines, and a line into pieces.
ghost use Rattle.std.specs.Prelude.{◌≡◌, [], ◌∷◌, not, position, MatchOption};
ghost use Rattle.text.specs.Lines.{text_left};
ghost use Rattle.text.specs.Runs.{separates, FirstRun, pieces};

use crate::lines::Lines;

/// What ends a run of bytes.
// Two separators with names, of which definitions speak; a closure would say at each call what they are.
#[derive(Clone, Copy)]
pub enum Separator {
    /// A line feed ends a line.
    LineFeed,
    /// A space, a tab or a carriage return ends a piece of a line.
    Blank,
}

impl Separator {
    // Whether a byte is this separator.
    fn ends(self, byte: u8) -> bool
        ensures { result ≡ separates self byte }
    {
        match self {
            Separator::LineFeed => byte == b'\n',
            Separator::Blank => matches!(byte, b' ' | b'\t' | b'\r'),
        }
    }

    // Where the first separator stands.
    fn first_in(self, bytes: &[u8]) -> Option<usize>
        ensures { result ≡ position (separates self) bytes.now }
    {
        bytes.iter().position(|byte| self.ends(*byte))
    }

    // Where the first byte stands that is none: the same search by the opposite test.
    fn first_other_in(self, bytes: &[u8]) -> Option<usize>
        ensures { result ≡ position (λ b. not (separates self b)) bytes.now }
    {
        bytes.iter().position(|byte| !self.ends(*byte))
    }
}

/// The first run of bytes, and what follows the separator that ends it.
pub fn first_run(bytes: &[u8], separator: Separator) -> (&[u8], &[u8])
    ensures { FirstRun separator bytes.now result.0.now result.1.now }
{
    match separator.first_in(bytes) {
        Some(end) => (&bytes[..end], &bytes[end + 1..]),
        None => (bytes, &[]),
    }
}

/// The first piece of a line, and the line after it.
// It hands on the line, since who looks at a piece may leave it where it is: an index, a number that is none.
pub fn first_piece(line: &[u8]) -> Option<(&[u8], &[u8])>
    ensures { MatchOption result (pieces line.now ≡ []) (λ p. pieces line.now ≡ p.0.now ∷ pieces p.1.now) }
{
    let start = Separator::Blank.first_other_in(line)?;
    Some(first_run(&line[start..], Separator::Blank))
}

/// The lines of a text, one after another.
pub fn lines(text: &[u8]) -> Lines<'_>
    ensures { text_left result ≡ text.now }
{
    Lines { rest: text }
}
