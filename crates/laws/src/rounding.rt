// Stresses in psi, rounded to steps.
ghost use Rattle.std.specs.Prelude.{◌≡◌, ◌*◌, pos};
ghost use Rattle.exact.specs.Fractions.{over, whole as whole_of};
ghost use Rattle.exact.specs.Ranges.{Within};
ghost use Rattle.exact.specs.Rounding.{Rounded};
ghost use Rattle.laws.specs.Meaning.{countable, in_steps, steps};

use crate::steps::STEPS_PER_PSI;
use exact::bounds::Bounds;
use exact::division::{ceiling, floor};
use exact::positive::Positive;

// A whole number of psi, in steps.
#[tactic(auto, unfolding(crate::specs::Meaning::steps))]
pub(crate) fn in_steps(psi: u32) -> i64
    ensures { result ≡ pos (steps * psi) }
{
    i64::from(psi) * STEPS_PER_PSI
}

// A whole number of psi in steps, which is its own floor and ceiling.
pub(crate) fn whole(psi: u32) -> Bounds
    ensures { Rounded (in_steps (whole_of (pos psi))) result }
{
    let stepped = in_steps(psi);
    Bounds {
        floor: stepped,
        ceiling: stepped,
    }
}

// num / den psi in steps, rounded down and up.
pub(crate) fn rounded(num: i64, den: Positive) -> Bounds
    requires { Within countable num }
    ensures { Rounded (in_steps (over num den.value)) result }
{
    let stepped = STEPS_PER_PSI * num;
    Bounds {
        floor: floor(stepped, den),
        ceiling: ceiling(stepped, den),
    }
}
