// The seven kinds of entry, and their codes.
ghost use Rattle.words.specs.Words.{Coded};

use crate::fault::Fault;

/// The seven kinds of entry, each with the code that stands for it in a word.
#[derive(Clone, Copy, PartialEq, Eq, Debug)]
pub enum Kind {
    Open = 1,
    Lay = 2,
    Place = 3,
    Lift = 4,
    Axial = 5,
    Moment = 6,
    Solve = 7,
}

impl TryFrom<u32> for Kind {
    type Error = Fault;

    ghost try_from_gives = { Coded };

    /// The kind with a code. No derive reads the codes of the enum back.
    fn try_from(code: u32) -> Result<Self, Fault> {
        match code {
            1 => Ok(Kind::Open),
            2 => Ok(Kind::Lay),
            3 => Ok(Kind::Place),
            4 => Ok(Kind::Lift),
            5 => Ok(Kind::Axial),
            6 => Ok(Kind::Moment),
            7 => Ok(Kind::Solve),
            _ => Err(Fault::Unreadable),
        }
    }
}
