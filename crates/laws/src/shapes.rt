// The shapes of which stresses are made: a slope held between limits, and a step.
ghost use Rattle.std.specs.Prelude.{◌≡◌, pos, ◌*ℤ◌, neg_ℤ, if◌then◌else◌};
ghost use Rattle.exact.specs.Fractions.{whole as whole_of, over, fraction_le, ◌*F◌, held};
ghost use Rattle.exact.specs.Ranges.{Within};
ghost use Rattle.exact.specs.Rounding.{Rounded};
ghost use Rattle.laws.specs.Meaning.{countable, greatest_axis, in_steps};

use crate::ratio::Ratio;
use crate::rounding::{in_steps, rounded, whole};
use exact::bounds::Bounds;
use exact::positive::Positive;

// The rise in psi times the ratio, held between -tension and compression.
pub(crate) fn held_slope(rise: u32, tension: u32, compression: u32, ratio: Ratio) -> Bounds
    ensures { Rounded (in_steps (held (whole_of (neg_ℤ (pos tension))) (whole_of (pos compression)) (whole_of (pos rise) *F over ratio.n ratio.m))) result }
{
    let bounds = slope(rise, ratio);
    let least = -in_steps(tension);
    let most = in_steps(compression);
    Bounds {
        floor: bounds.floor.clamp(least, most),
        ceiling: bounds.ceiling.clamp(least, most),
    }
}

// The rise in psi times the ratio.
fn slope(rise: u32, ratio: Ratio) -> Bounds
    ensures { Rounded (in_steps (whole_of (pos rise) *F over ratio.n ratio.m)) result }
{
    rounded(product(rise, ratio.n), Positive { value: ratio.m })
}

// 0 below so many thousandths, and full psi from there on.
pub(crate) fn step(thousandths: u32, full: u32, ratio: Ratio) -> Bounds
    ensures { Rounded (in_steps (if fraction_le (over (pos thousandths) (pos 1000)) (over ratio.n ratio.m) then whole_of (pos full) else whole_of (pos 0))) result }
{
    if reaches(thousandths, ratio) {
        whole(full)
    } else {
        whole(0)
    }
}

// Whether the ratio is at least so many thousandths. (Not `mill::curve::reaches`, which asks whether a point lies at a ratio or past it.)
fn reaches(thousandths: u32, ratio: Ratio) -> bool
    ensures { result ≡ fraction_le (over (pos thousandths) (pos 1000)) (over ratio.n ratio.m) }
{
    product(thousandths, ratio.m) <= product(1_000, ratio.n)
}

// A number on either side of zero, so many times.
fn product(times: u32, number: i64) -> i64
    requires { Within greatest_axis number }
    ensures value { result ≡ pos times *ℤ number }
    ensures small { Within countable result }
{
    i64::from(times) * number
}
