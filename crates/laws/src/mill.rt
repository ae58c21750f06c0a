// Steel by the curve of two to eight points that its mill has measured.
ghost use Rattle.std.specs.Prelude.{◌≡◌, ◌*◌, ◌≤◌, true, map, take, pos, neg_ℤ, FitsSigned};
ghost use Rattle.std.specs.Int.{w64};
ghost use Rattle.exact.specs.Rounding.{turned};
ghost use Rattle.laws.specs.Curves.{last_stress, mill_stress};
ghost use Rattle.laws.specs.Meaning.{steps};
ghost use Rattle.laws.specs.Rules.{reading, ruled};
ghost use Rattle.laws.specs.declared.mill.TheConstants.{MOST};
ghost use Rattle.laws.specs.Owed.Milled.{mill_means};

use crate::fault::Fault;
use crate::material::Material;
use crate::mill::curve::{Magnitude, along};
use crate::mill::point::Point;
use crate::mill::reading::Reading;
use crate::mill::rules::keeps_rules;
use crate::ratio::Ratio;
use crate::rounding::in_steps;
use exact::bounds::Bounds;

mod curve;
pub mod point;
pub mod reading;
mod rules;

/// The most points of a curve.
pub const MOST: usize = 8;

/// A mill curve through the first `count` of the points.
#[derive(Clone, Copy)]
pub struct Mill {
    pub points: [Point; MOST],
    // a count beside the array, so that a curve is Copy like every law and asks for no allocator: an ArrayVec is not Copy
    pub count: usize,
    ghost few: { count ≤ MOST },
    ghost lawful: { ruled (map reading (take count points)) ≡ true },
}

impl Mill {
    ghost use Rattle.laws.specs.Mills.{MadeMill, points as points_of};

    /// The curve through two to eight readings, or the fault 2.
    pub fn new(readings: &[Reading]) -> Result<Mill, Fault>
        ensures { MadeMill readings.now result }
    {
        if !keeps_rules(readings) {
            return Err(Fault::Points);
        }
        let mut points = [Point::ORIGIN; MOST];
        // by place: what is written through an `iter_mut` that is zipped with the source is not known afterwards
        for (i, &reading) in readings.iter().enumerate() {
            points[i] = Point::try_from(reading)?;
        }
        Ok(Mill {
            points,
            count: readings.len(),
        })
    }

    // The points of the curve.
    fn measured(&self) -> &[Point]
        ensures { result.now ≡ points_of self.now }
    {
        &self.points[..self.count]
    }

    // The stress of the last point, in psi.
    fn last_stress(&self) -> u32
        ensures { result ≡ last_stress (points_of self.now) }
    {
        self.points[self.count - 1].stress
    }
}

// The floor and the ceiling of a stress with its sign turned.
fn turned(bounds: Bounds) -> Bounds
    requires floor_turns { FitsSigned w64 (neg_ℤ bounds.floor) }
    requires ceiling_turns { FitsSigned w64 (neg_ℤ bounds.ceiling) }
    ensures { result ≡ turned bounds }
{
    let Bounds { floor, ceiling } = bounds;
    Bounds {
        floor: -ceiling,
        ceiling: -floor,
    }
}

impl Material for Mill {
    ghost use Rattle.laws.specs.Mills.{points as points_of};

    ghost stress = { λ m. mill_stress (points_of m) };

    ghost lowest = { λ m. neg_ℤ (pos (steps * last_stress (points_of m))) };

    ghost highest = { λ m. pos (steps * last_stress (points_of m)) };

    ghost means = { λ m. mill_means (points_of m) m.lawful };

    fn stress_at(&self, ratio: Ratio) -> Bounds {
        let bounds = along(self.measured(), Magnitude::from(ratio));
        if ratio.n < 0 { turned(bounds) } else { bounds }
    }

    fn least(&self) -> i64 {
        -in_steps(self.last_stress())
    }

    fn most(&self) -> i64 {
        in_steps(self.last_stress())
    }
}
