// Entry words: what a 32-bit word asks of a sheet, read and written, and the stream of bytes that carries words.
#![tactic(auto)]

pub mod entry;
pub mod fault;
pub mod kind;
pub mod limits;
mod shown;
pub mod stream;
mod word;
