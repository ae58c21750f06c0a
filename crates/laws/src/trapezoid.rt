// Concrete whose stress climbs to its peak at half the crushing strain.
ghost use Rattle.laws.specs.Stresses.{trapezoid_stress};
ghost use Rattle.laws.specs.Owed.Peaks.{trapezoid_means};

use crate::concrete::law::ConcreteLaw;
use crate::profile::Profile;
use crate::ratio::Ratio;
use crate::shapes::held_slope;
use crate::strength::ConcreteStrength;
use exact::bounds::Bounds;

/// A straight climb to the peak, which is held from there on.
#[derive(Clone, Copy)]
pub struct Ramp;

impl Profile for Ramp {
    ghost stress = { trapezoid_stress };

    ghost means = { trapezoid_means };

    fn stress_at(strength: ConcreteStrength, ratio: Ratio) -> Bounds {
        let peak = strength.peak();
        held_slope(2 * peak, 0, peak, ratio)
    }
}

/// A trapezoid law, by the strength of its concrete.
pub type Trapezoid = ConcreteLaw<Ramp>;
