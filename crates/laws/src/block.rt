// Concrete under a rectangular stress block.
ghost use Rattle.laws.specs.Stresses.{block_stress};
ghost use Rattle.laws.specs.Owed.Peaks.{block_means};

use crate::concrete::law::ConcreteLaw;
use crate::profile::Profile;
use crate::ratio::Ratio;
use crate::shapes::step;
use crate::strength::ConcreteStrength;
use exact::bounds::Bounds;

/// The whole peak over the stress block, and no stress below it.
#[derive(Clone, Copy)]
pub struct Rectangle;

impl Profile for Rectangle {
    ghost stress = { block_stress };

    ghost means = { block_means };

    fn stress_at(strength: ConcreteStrength, ratio: Ratio) -> Bounds {
        step(strength.block_edge(), strength.peak(), ratio)
    }
}

/// A block law, by the strength of its concrete.
pub type Block = ConcreteLaw<Rectangle>;
