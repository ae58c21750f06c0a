// An entry as a line of words and figures.
ghost use Rattle.std.specs.Prelude.{Some};
ghost use Rattle.words.specs.Lines.{line_of};

use crate::entry::Entry;
use std::fmt;

impl fmt::Display for Entry {
    ghost output = { λ e. Some (line_of e) };

    fn fmt<W: fmt::Write>(&self, f: &mut fmt::Formatter<W>) -> fmt::Result {
        match *self {
            Entry::Open { fc, fy } => write!(f, "open fc {fc} fy {fy}"),
            Entry::Lay { thickness, width } => write!(f, "lay thickness {thickness} width {width}"),
            Entry::Place { bar, count, depth } => write!(
                f,
                "place bar {bar} count {count} depth {depth}"
            ),
            Entry::Lift { row } => write!(f, "lift row {row}"),
            Entry::Axial { pu } => write!(f, "axial pu {pu}"),
            Entry::Moment { member, mu } => write!(f, "moment member {member} mu {mu}"),
            Entry::Solve => write!(f, "solve"),
        }
    }
}
