// Writes the entry words that the lines of standard input ask for.
#![tactic(auto)]

use composing::compose::compose;
use std::io::{self, Read, Write};
use std::process::ExitCode;

// Reads, composes and writes: a program is these lines round one call of a library. A refused text ends it with status 1,
// and standard error says no more than why.
fn main(rt: HostRuntime) -> io::Result<ExitCode> {
    let heap = rt.alloc();
    let mut text = Vec::new(heap);
    rt.stdin().read_to_end(&mut text)?;
    match compose(heap, text.as_slice()) {
        Ok(bytes) => {
            rt.stdout().write_all(bytes.as_slice())?;
            Ok(ExitCode::SUCCESS)
        }
        Err(failure) => {
            eprintln!(rt; "encode: {failure}")?;
            Ok(ExitCode::FAILURE)
        }
    }
}
