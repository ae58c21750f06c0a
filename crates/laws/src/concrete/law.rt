// A concrete law by the profile of its stress and the strength of its concrete.
ghost use Rattle.std.specs.Prelude.{◌*◌, pos, refl};
ghost use Rattle.laws.specs.Making.{Made};
ghost use Rattle.laws.specs.Meaning.{steps};
ghost use Rattle.laws.specs.Strengths.{ConcreteGrade, peak_psi};
ghost use Rattle.laws.specs.Owed.Peaks.{peak_limit};

use crate::concrete::Concrete;
use crate::fault::Fault;
use crate::material::Material;
use crate::profile::Profile;
use crate::ratio::Ratio;
use crate::rounding::in_steps;
use crate::strength::ConcreteStrength;
use exact::bounds::Bounds;
use std::marker::PhantomData;

/// The law of concrete of a strength, whose stress has the profile P.
#[derive(Clone, Copy)]
pub struct ConcreteLaw<P> {
    pub strength: ConcreteStrength,
    pub profile: PhantomData<P>,
}

impl<P> ConcreteLaw<P> {
    /// The law of the strength f'c, or the fault 1.
    pub fn new(fc: i64) -> Result<ConcreteLaw<P>, Fault>
        ensures { Made ConcreteGrade (λ law. law.strength.psi) fc result }
    {
        let strength = ConcreteStrength::new(fc)?;
        Ok(ConcreteLaw {
            strength,
            profile: PhantomData,
        })
    }
}

impl<P: Profile> Material for ConcreteLaw<P> {
    ghost stress = { λ law. P.stress law.strength.psi };

    ghost lowest = { λ law. pos 0 };

    ghost highest = { λ law. pos (steps * peak_psi law.strength.psi) };

    ghost means = { λ law. P.means law.strength.psi law.strength.graded };

    fn stress_at(&self, ratio: Ratio) -> Bounds {
        P::stress_at(self.strength, ratio)
    }

    fn least(&self) -> i64 {
        0
    }

    fn most(&self) -> i64 {
        in_steps(self.strength.peak())
    }
}

impl<P: Profile> Concrete for ConcreteLaw<P> {
    ghost limits = { λ law. (refl, peak_limit law.strength.psi law.strength.graded) };
}
