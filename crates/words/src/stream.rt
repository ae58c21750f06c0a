// A stream of bytes as words, high byte first.
ghost use Rattle.std.specs.Prelude.{◌≡◌, ◌+◌, ◌<◌, ◌≤◌, [], ◌∷◌, ◌++◌, length, vec_len, vec_capacity, MatchResult, OnOk, OnErr};
ghost use Rattle.words.specs.Streams.{Cut, spread};

use std::alloc::{AllocError, Global};

/// The whole words of a stream, in order, and the zero to three bytes that are left over after them. Memory can be wanting
/// only where there is a word.
pub fn cut(heap: Global, bytes: &[u8]) -> Result<(Vec<u32>, &[u8]), AllocError>
    ensures { MatchResult result (λ p. Cut bytes.now p.0.items p.1.now) (λ _. 4 ≤ length bytes.now) }
{
    let mut words = Vec::new(heap);
    let (chunks, rest) = bytes.as_chunks::<4>();
    for chunk in chunks {
        words.push(u32::from_be_bytes(*chunk))?;
    }
    Ok((words, rest))
}

/// Adds the bytes of a word to a stream. Where it has no room for them and memory is wanting, it stays as it was.
pub fn put(bytes: &mut Vec<u8>, word: u32) -> Result<(), AllocError>
    ensures added { OnOk result (bytes.new.items ≡ bytes.old.items ++ spread (word ∷ [])) }
    ensures unchanged { OnErr result (bytes.new.items ≡ bytes.old.items) }
    ensures no_room { OnErr result (vec_capacity bytes.old < vec_len bytes.old + 4) }
{
    bytes.extend_from_slice(&word.to_be_bytes())
}
