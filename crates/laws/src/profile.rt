// How the stress of concrete follows its strain, whatever its strength.
ghost use Rattle.std.specs.Prelude.{ℕ, ◌*◌, pos};
ghost use Rattle.exact.specs.Fractions.{Fraction, over};
ghost use Rattle.exact.specs.Rounding.{Rounded};
ghost use Rattle.laws.specs.Meaning.{Means, in_steps, steps};
ghost use Rattle.laws.specs.Strengths.{ConcreteGrade, peak_psi};

use crate::ratio::Ratio;
use crate::strength::ConcreteStrength;
use exact::bounds::Bounds;

/// A stress that never falls as the ratio grows, and stays from 0 to the peak of the concrete's strength.
pub trait Profile {
    // the exact stress in psi of concrete of a strength, at each ratio
    ghost stress: { ℕ → Fraction → Fraction };

    /// The floor and the ceiling of the stress at a ratio, in steps.
    fn stress_at(strength: ConcreteStrength, ratio: Ratio) -> Bounds
        ensures { Rounded (in_steps (stress strength.psi (over ratio.n ratio.m))) result };

    // what every profile owes
    ghost means: { (psi : ℕ) → ConcreteGrade psi → Means (stress psi) (pos 0) (pos (steps * peak_psi psi)) };
}
