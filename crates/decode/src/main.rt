// Lists the entry words of standard input, a line for each.
#![tactic(auto)]

use listing::list;
use std::io::{self, Read, Write};

// Reads, answers and writes: a program is these lines round one call of a library.
fn main(rt: HostRuntime) -> io::Result<()> {
    let heap = rt.alloc();
    let mut bytes = Vec::new(heap);
    rt.stdin().read_to_end(&mut bytes)?;
    let text = list(heap, bytes.as_slice())?;
    rt.stdout().write_all(text.as_bytes())
}
