// Strengths: of concrete in compression, and of steel at its yielding.
ghost use Rattle.std.specs.Prelude.{◌≡◌, ◌-◌};
ghost use Rattle.laws.specs.Making.{Made};
ghost use Rattle.laws.specs.Strengths.{Graded, peak_psi, beta as beta_of};

use crate::fault::Fault;

// strengths rise in steps of so many psi
const GRADE_STEP: u32 = 100;

/// A strength in psi: a multiple of 100 from LEAST to MOST.
#[derive(Clone, Copy)]
pub struct Grade<const LEAST: u32, const MOST: u32> {
    pub psi: u32,
    ghost graded: { Graded LEAST MOST psi },
}

/// f'c of concrete.
pub type ConcreteStrength = Grade<3_000, 10_000>;

/// fy of steel.
pub type YieldStrength = Grade<40_000, 75_000>;

impl<const LEAST: u32, const MOST: u32> Grade<LEAST, MOST> {
    /// The strength of so many psi, or the fault 1.
    // a maker that may refuse, as the library's `NonZero::new` is, and so are the makers of laws
    pub fn new(psi: i64) -> Result<Grade<LEAST, MOST>, Fault>
        ensures { Made (Graded LEAST MOST) (λ s. s.psi) psi result }
    {
        match u32::try_from(psi) {
            Ok(psi) if (LEAST..=MOST).contains(&psi) && psi % GRADE_STEP == 0 => Ok(Grade { psi }),
            _ => Err(Fault::Strength),
        }
    }
}

impl ConcreteStrength {
    /// 0.85 f'c, in psi.
    pub fn peak(self) -> u32
        ensures { result ≡ peak_psi self.psi }
    {
        85 * self.psi / 100
    }

    /// β, in thousandths: how much of the neutral axis depth the stress block takes.
    pub fn beta(self) -> u32
        ensures { result ≡ beta_of self.psi }
    {
        let grades_above = self.psi.saturating_sub(4_000) / GRADE_STEP;
        (850 - 5 * grades_above).max(650)
    }

    /// The ratio from which the stress block stands, in thousandths.
    pub fn block_edge(self) -> u32
        ensures { result ≡ 1000 - beta_of self.psi }
    {
        1_000 - self.beta()
    }
}
