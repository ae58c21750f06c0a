// Whether readings keep the rules of a mill curve.
ghost use Rattle.std.specs.Prelude.{◌≡◌};
ghost use Rattle.laws.specs.Rules.{in_limits, rises as rises_to, ruled};

use crate::mill::MOST;
use crate::mill::point::{GREATEST_RATIO, GREATEST_STRESS};
use crate::mill::reading::Reading;

// the fewest points of a curve
const FEWEST: usize = 2;

// Whether there are two to eight readings that rise from the origin and stay in their limits.
pub(crate) fn keeps_rules(readings: &[Reading]) -> bool
    ensures { result ≡ ruled readings.now }
{
    (FEWEST..=MOST).contains(&readings.len())
        && readings[0] == Reading::ORIGIN
        && readings.is_sorted_by(rises)
        && in_limits(readings[readings.len() - 1])
}

// Whether the ratio rises from one reading to the next, and the stress does not fall.
fn rises(from: &Reading, to: &Reading) -> bool
    ensures { result ≡ rises_to from.now to.now }
{
    from.ratio < to.ratio && from.stress <= to.stress
}

// Whether neither the ratio nor the stress goes past its limit.
fn in_limits(reading: Reading) -> bool
    ensures { result ≡ in_limits reading }
{
    reading.ratio <= i64::from(GREATEST_RATIO) && reading.stress <= i64::from(GREATEST_STRESS)
}
