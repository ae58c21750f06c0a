// A material law: one exact stress for each strain ratio.
ghost use Rattle.std.specs.Prelude.{◌≡◌, ℤ};
ghost use Rattle.exact.specs.Fractions.{Fraction, over};
ghost use Rattle.exact.specs.Rounding.{Rounded};
ghost use Rattle.laws.specs.Meaning.{Answers, Means, in_steps};

use crate::fault::Fault;
use crate::ratio::Ratio;
use exact::bounds::Bounds;

/// A law of concrete or steel.
pub trait Material {
    // the exact stress in psi at each ratio
    ghost stress: { Self → Fraction → Fraction };

    // in steps: no stress is under the lowest or over the highest
    ghost lowest: { Self → ℤ };

    ghost highest: { Self → ℤ };

    /// The floor and the ceiling of the stress at a ratio, in steps.
    fn stress_at(&self, ratio: Ratio) -> Bounds
        ensures { Rounded (in_steps (stress self.now (over ratio.n ratio.m))) result };

    /// The same at n / m, or the fault 3.
    // two plain numbers, whatever they are: the `Ratio` is what is made of them
    fn answer(&self, n: i64, m: i64) -> Result<Bounds, Fault>
        ensures { Answers (stress self.now) n m result }
    {
        let ratio = Ratio::new(n, m)?;
        Ok(self.stress_at(ratio))
    }

    /// The lowest stress that there may be, in steps.
    fn least(&self) -> i64
        ensures { result ≡ lowest self.now };

    /// The highest stress that there may be, in steps.
    fn most(&self) -> i64
        ensures { result ≡ highest self.now };

    // what every law owes
    ghost means: { (s : Self) → Means (stress s) (lowest s) (highest s) };
}
