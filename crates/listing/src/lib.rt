// The text that lists a stream of entry words, a line for each word.
#![tactic(auto)]

ghost use Rattle.std.specs.Prelude.{◌≡◌, IfOk, string_bytes};
ghost use Rattle.listing.specs.Listing.{Line, Lines, Listed, refused_line};

use std::alloc::{AllocError, Global};
use words::entry::Entry;
use words::fault::Fault;
use words::stream::cut;

/// A stream of bytes, listed: a line for each whole word, and one for the bytes that are left over.
pub fn list(heap: Global, bytes: &[u8]) -> Result<String, AllocError>
    ensures { IfOk result (λ s. Listed bytes.now (string_bytes s)) }
{
    let (words, rest) = cut(heap, bytes)?;
    let mut text = lines(heap, words.as_slice())?;
    if rest.is_empty() {
        return Ok(text);
    }
    let index = words.len();
    text.push_str(refused(heap, Fault::Unfinished, index)?.as_str())?;
    Ok(text)
}

// The lines of words, in order.
fn lines(heap: Global, words: &[u32]) -> Result<String, AllocError>
    ensures { IfOk result (λ s. Lines 0 words.now (string_bytes s)) }
{
    let mut text = String::new(heap);
    for (index, word) in words.iter().enumerate() {
        text.push_str(line(heap, index, *word)?.as_str())?;
    }
    Ok(text)
}

// The line of the word at an index: what it asks for, or its refusal.
fn line(heap: Global, index: usize, word: u32) -> Result<String, AllocError>
    ensures { IfOk result (λ s. Line index word (string_bytes s)) }
{
    match Entry::try_from(word) {
        Ok(entry) => format!(in heap; "{index} {entry}\n"),
        Err(fault) => refused(heap, fault, index),
    }
}

// The line of a refusal at an index.
fn refused(heap: Global, fault: Fault, index: usize) -> Result<String, AllocError>
    ensures { IfOk result (λ s. string_bytes s ≡ refused_line fault index) }
{
    format!(in heap; "{fault} at {index}\n")
}
