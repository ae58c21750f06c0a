// An entry, and its kind.
ghost use Rattle.std.specs.Prelude.{◌≡◌};
ghost use Rattle.words.specs.Kinds.{kind_of};

use crate::kind::Kind;

/// What one entry asks of a sheet. It may be formed with any numbers: strengths in psi, lengths in ticks (0.01 inch),
/// the axial load in pounds, the factored moment in kip-inches.
#[derive(Clone, Copy, PartialEq, Eq, Debug)]
pub enum Entry {
    /// opens the sheet with the concrete strength f'c and the steel's yield strength fy
    Open { fc: i64, fy: i64 },
    /// adds a strip of concrete below the others
    Lay { thickness: i64, width: i64 },
    /// adds a layer of bars
    Place { bar: i64, count: i64, depth: i64 },
    /// takes out the layer of a row
    Lift { row: i64 },
    /// sets the axial load
    Axial { pu: i64 },
    /// sets the member and the factored moment
    Moment { member: i64, mu: i64 },
    /// asks for the moment bracket
    Solve,
}

impl Entry {
    /// The kind of the entry.
    pub fn kind(&self) -> Kind
        ensures { result ≡ kind_of self.now }
    {
        match *self {
            Entry::Open { .. } => Kind::Open,
            Entry::Lay { .. } => Kind::Lay,
            Entry::Place { .. } => Kind::Place,
            Entry::Lift { .. } => Kind::Lift,
            Entry::Axial { .. } => Kind::Axial,
            Entry::Moment { .. } => Kind::Moment,
            Entry::Solve => Kind::Solve,
        }
    }
}
