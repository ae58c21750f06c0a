// Why a word, an entry or a stream is refused.
ghost use Rattle.std.specs.Prelude.{◌≡◌, Some};
ghost use Rattle.words.specs.Faults.{refusal, refused_text};

use std::fmt;

/// Why a word, an entry or a stream is refused.
#[derive(Clone, Copy, PartialEq, Eq, Debug)]
pub enum Fault {
    /// a word that stands for no entry
    Unreadable,
    /// an entry that fits no word
    Unwritable,
    /// one to three bytes after the last whole word
    Unfinished,
}

/// The number by which the refusal is told.
// Each crate that refuses has faults and numbers of its own; all that they share is the word `refused`.
impl From<Fault> for u32 {
    ghost from_gives = { λ fault number. number ≡ refusal fault };

    fn from(fault: Fault) -> u32 {
        match fault {
            Fault::Unreadable | Fault::Unwritable => 13,
            Fault::Unfinished => 15,
        }
    }
}

impl fmt::Display for Fault {
    ghost output = { λ fault. Some (refused_text fault) };

    fn fmt<W: fmt::Write>(&self, f: &mut fmt::Formatter<W>) -> fmt::Result {
        write!(f, "refused {}", u32::from(*self))
    }
}
