// The stress along the points of a mill curve, in compression.
ghost use Rattle.std.specs.Prelude.{◌≡◌, ◌*◌, ◌<◌, ◌≤◌, true, map, pos, unsigned_abs};
ghost use Rattle.exact.specs.Fractions.{over, fraction_le};
ghost use Rattle.exact.specs.Rounding.{Rounded};
ghost use Rattle.laws.specs.Curves.{at, curve, line};
ghost use Rattle.laws.specs.Meaning.{farthest, greatest_axis, greatest_ratio, in_steps};
ghost use Rattle.laws.specs.Rules.{reading, ruled};

use crate::mill::point::Point;
use crate::ratio::Ratio;
use crate::rounding::{rounded, whole};
use exact::bounds::Bounds;
use exact::positive::Positive;

// A ratio n / m of compression, or of tension with its sign turned: that may be above 1, so it is no Ratio.
#[derive(Clone, Copy)]
pub(crate) struct Magnitude {
    pub n: u64,
    pub m: u64,
    ghost high: { n ≤ greatest_axis },
    ghost from: { 1 ≤ m },
    ghost to: { m ≤ greatest_axis },
}

impl From<Ratio> for Magnitude {
    ghost from_gives = { λ ratio magnitude. (magnitude.n ≡ unsigned_abs ratio.n) × (magnitude.m ≡ unsigned_abs ratio.m) };

    /// The ratio without its sign.
    fn from(ratio: Ratio) -> Magnitude {
        Magnitude {
            n: ratio.n.unsigned_abs(),
            m: ratio.m.unsigned_abs(),
        }
    }
}

// The stress along the points; of no points, no stress.
pub(crate) fn along(points: &[Point], ratio: Magnitude) -> Bounds
    requires { ruled (map reading points.now) ≡ true }
    ensures { Rounded (in_steps (curve points.now (over (pos ratio.n) (pos ratio.m)))) result }
{
    let [first, rest @ ..] = points else {
        return whole(0);
    };
    let mut last = *first;
    for &next in rest {
        if reaches(next, ratio) {
            return between(last, next, ratio);
        }
        last = next;
    }
    whole(last.stress)
}

// Whether a point lies at the ratio or past it. (Not `shapes::reaches`, which asks whether a ratio lies at a threshold or past it.)
fn reaches(point: Point, ratio: Magnitude) -> bool
    ensures { result ≡ fraction_le (over (pos ratio.n) (pos ratio.m)) (at point) }
{
    ratio.n * 1_000 <= u64::from(point.ratio) * ratio.m
}

// The stress on the straight line from a to b.
fn between(a: Point, b: Point, ratio: Magnitude) -> Bounds
    requires further { a.ratio < b.ratio }
    requires no_less { a.stress ≤ b.stress }
    requires limits { (b.ratio ≤ greatest_ratio) × (b.stress ≤ farthest) }
    requires past { a.ratio * ratio.m ≤ ratio.n * 1000 }
    ensures { Rounded (in_steps (line a b (over (pos ratio.n) (pos ratio.m)))) result }
{
    let den = u64::from(b.ratio - a.ratio) * ratio.m;
    let past = ratio.n * 1_000 - u64::from(a.ratio) * ratio.m;
    let start = u64::from(a.stress);
    let rise = u64::from(b.stress - a.stress);
    rounded(
        (start * den + past * rise) as i64,
        Positive { value: den as i64 },
    )
}
