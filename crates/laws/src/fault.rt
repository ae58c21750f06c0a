// Why a law is not made, or does not answer.
ghost use Rattle.std.specs.Prelude.{◌≡◌, Some};
ghost use Rattle.laws.specs.Faults.{refusal, refused_text};

use std::fmt;

/// What is wrong with what was handed in.
#[derive(Clone, Copy, PartialEq, Eq, Debug)]
pub enum Fault {
    /// a strength that is no grade
    Strength,
    /// points of a mill curve that break a rule
    Points,
    /// a ratio for which no law answers
    Ratio,
}

// Each crate that refuses has faults and numbers of its own; all that they share is the word `refused`.
impl From<Fault> for u32 {
    ghost from_gives = { λ fault number. number ≡ refusal fault };

    /// The number by which the refusal is told.
    fn from(fault: Fault) -> u32 {
        match fault {
            Fault::Strength => 1,
            Fault::Points => 2,
            Fault::Ratio => 3,
        }
    }
}

impl fmt::Display for Fault {
    ghost output = { λ fault. Some (refused_text fault) };

    fn fmt<W: fmt::Write>(&self, f: &mut fmt::Formatter<W>) -> fmt::Result {
        write!(f, "refused {}", u32::from(*self))
    }
}
