// The text that replies to a text, line by line.
ghost use Rattle.std.specs.Prelude.{◌≡◌, ℕ, List, IfOk, string_bytes};
ghost use Rattle.answering.specs.Replies.{Printed, RepliedAll};

use crate::reply::reply_to;
use std::alloc::{AllocError, Global};
use text::runs::lines;

/// The replies to the lines of a text, each on a line of its own. No other bytes reply to the text.
pub fn reply(heap: Global, text: &[u8]) -> Result<String, AllocError>
    ensures replied { IfOk result (λ s. RepliedAll text.now (string_bytes s)) }
    ensures only { IfOk result (λ s. (bytes : List ℕ) → RepliedAll text.now bytes → bytes ≡ string_bytes s) }
{
    let mut replies = String::new(heap);
    for line in lines(text) {
        replies.push_str(printed(heap, line)?.as_str())?;
    }
    Ok(replies)
}

// What is printed for a line.
fn printed(heap: Global, line: &[u8]) -> Result<String, AllocError>
    ensures { IfOk result (λ s. Printed line.now (string_bytes s)) }
{
    match reply_to(heap, line)? {
        Some(said) => format!(in heap; "{said}\n"),
        None => Ok(String::new(heap)),
    }
}
