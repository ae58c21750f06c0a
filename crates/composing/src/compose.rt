// The stream of words that a text asks for, line by line.
ghost use Rattle.std.specs.Prelude.{◌≡◌, ℕ, List, MatchResult};
ghost use Rattle.listing.specs.Listing.{Listed};
ghost use Rattle.words.specs.Words.{Readable};
ghost use Rattle.composing.specs.Composing.{Composed, Refused};
ghost use Rattle.composing.specs.declared.compose.Failure.TheVariants.{Memory};

use crate::expected::Expected;
use crate::line::word_asked;
use std::alloc::{AllocError, Global};
use text::runs::lines;
use words::stream::put;

/// Why no stream was made of a text.
#[derive(Clone, Copy, Debug)]
pub enum Failure {
    /// Memory was wanting for a word.
    Memory,
    /// A line asks for no word and is not skipped: the first such line, counted from 1, and what was expected of it.
    Line { number: usize, expected: Expected },
}

impl From<AllocError> for Failure {
    ghost from_gives = { λ _ r. r ≡ Memory };

    fn from(_error: AllocError) -> Failure {
        Failure::Memory
    }
}

/// The bytes of the words that the lines of a text ask for, in order. The listing of a readable stream gives it back.
pub fn compose(heap: Global, text: &[u8]) -> Result<Vec<u8>, Failure>
    ensures composed { MatchResult result (λ v. Composed text.now v.items) (λ f. Refused text.now f) }
    ensures gives_back { (stream : List ℕ) → Readable stream → Listed stream text.now → MatchResult result (λ v. v.items ≡ stream) (λ f. f ≡ Memory) }
{
    compose_lines(heap, text)
}

// The first promise, from which `compose` has the second.
fn compose_lines(heap: Global, text: &[u8]) -> Result<Vec<u8>, Failure>
    ensures { MatchResult result (λ v. Composed text.now v.items) (λ f. Refused text.now f) }
{
    let mut bytes = Vec::new(heap);
    for (i, line) in lines(text).enumerate() {
        let number = i + 1;
        let asked = word_asked(line).map_err(|expected| Failure::Line { number, expected })?;
        if let Some(word) = asked {
            put(&mut bytes, word)?;
        }
    }
    Ok(bytes)
}
