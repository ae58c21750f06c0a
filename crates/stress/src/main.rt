// Replies to the lines of standard input, each of which asks a law for its stress.
#![tactic(auto)]

use answering::replying::reply;
use std::io::{self, Read, Write};

// Reads, answers and writes: a program is these lines round one call of a library.
fn main(rt: HostRuntime) -> io::Result<()> {
    let heap = rt.alloc();
    let mut text = Vec::new(heap);
    rt.stdin().read_to_end(&mut text)?;
    let replies = reply(heap, text.as_slice())?;
    rt.stdout().write_all(replies.as_bytes())
}
