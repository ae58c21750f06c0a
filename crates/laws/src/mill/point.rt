// A point of a mill curve.
ghost use Rattle.laws.specs.Mills.{PointRead};

use crate::fault::Fault;
use crate::mill::reading::Reading;

// the greatest ratio of a point in thousandths, and its greatest stress in psi
pub(crate) const GREATEST_RATIO: u32 = 100_000;

pub(crate) const GREATEST_STRESS: u32 = 100_000;

/// A strain ratio in thousandths, and a stress in psi.
// a type of its own beside Reading, which may be negative. A point may be past a limit: that it is not is promised where it
// is read, and kept by a curve of the points that are its own
#[derive(Clone, Copy)]
pub struct Point {
    pub ratio: u32,
    pub stress: u32,
}

impl Point {
    /// No stress at no strain.
    pub const ORIGIN: Point = Point {
        ratio: 0,
        stress: 0,
    };
}

impl TryFrom<Reading> for Point {
    type Error = Fault;

    ghost try_from_gives = { PointRead };

    /// The point that was read, which is in its limits, or the fault 2.
    fn try_from(reading: Reading) -> Result<Point, Fault> {
        match (u32::try_from(reading.ratio), u32::try_from(reading.stress)) {
            (Ok(ratio), Ok(stress)) if ratio <= GREATEST_RATIO && stress <= GREATEST_STRESS => {
                Ok(Point { ratio, stress })
            }
            _ => Err(Fault::Points),
        }
    }
}
