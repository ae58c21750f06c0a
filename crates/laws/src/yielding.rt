// Steel that is elastic up to its yield strength, and then yields.
ghost use Rattle.std.specs.Prelude.{◌*◌, pos, neg_ℤ};
ghost use Rattle.laws.specs.Making.{Made};
ghost use Rattle.laws.specs.Meaning.{steps};
ghost use Rattle.laws.specs.Strengths.{YieldGrade};
ghost use Rattle.laws.specs.Stresses.{yield_stress};
ghost use Rattle.laws.specs.Owed.Slopes.{yield_means};

use crate::fault::Fault;
use crate::material::Material;
use crate::ratio::Ratio;
use crate::rounding::in_steps;
use crate::shapes::held_slope;
use crate::strength::YieldStrength;
use exact::bounds::Bounds;

// the elastic stress of steel at the crushing strain of concrete, 29,000,000 times 0.003
const ELASTIC_PSI: u32 = 87_000;

/// A yield law, by the strength of its steel.
#[derive(Clone, Copy)]
pub struct Yield {
    pub strength: YieldStrength,
}

impl Yield {
    /// The yield law of the strength fy, or the fault 1.
    // as short as a concrete law's `new` is: one for both would need a parameter for the strength and one for the law
    pub fn new(fy: i64) -> Result<Yield, Fault>
        ensures { Made YieldGrade (λ y. y.strength.psi) fy result }
    {
        let strength = YieldStrength::new(fy)?;
        Ok(Yield { strength })
    }
}

impl Material for Yield {
    ghost stress = { λ y. yield_stress y.strength.psi };

    ghost lowest = { λ y. neg_ℤ (pos (steps * y.strength.psi)) };

    ghost highest = { λ y. pos (steps * y.strength.psi) };

    ghost means = { λ s. yield_means s.strength.psi s.strength.graded };

    fn stress_at(&self, ratio: Ratio) -> Bounds {
        held_slope(ELASTIC_PSI, self.strength.psi, self.strength.psi, ratio)
    }

    fn least(&self) -> i64 {
        -in_steps(self.strength.psi)
    }

    fn most(&self) -> i64 {
        in_steps(self.strength.psi)
    }
}
