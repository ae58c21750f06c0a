// Strain ratios for which laws answer.
ghost use Rattle.std.specs.Prelude.{◌≡◌, pos, neg_ℤ, ◌≤ℤ◌, MatchResult};
ghost use Rattle.laws.specs.Faults.{refusal};
ghost use Rattle.laws.specs.Meaning.{Answerable, greatest_axis, greatest_depth};

use crate::fault::Fault;

// the greatest neutral axis depth in ticks, which are hundredths of an inch
const GREATEST_AXIS: i64 = 120_000;
// the greatest depth of a section, in ticks
const GREATEST_DEPTH: i64 = 12_000;

/// The strain over the crushing strain, n / m: at a neutral axis depth m, that of a point n above the axis.
#[derive(Clone, Copy)]
pub struct Ratio {
    pub n: i64,
    pub m: i64,
    ghost from: { pos 1 ≤ℤ m },
    ghost to: { m ≤ℤ pos greatest_axis },
    ghost low: { neg_ℤ (pos greatest_depth) ≤ℤ n },
    ghost high: { n ≤ℤ m },
}

impl Ratio {
    /// The ratio n / m, or the fault 3.
    // of any two numbers: from here on they are one value
    pub fn new(n: i64, m: i64) -> Result<Ratio, Fault>
        ensures { MatchResult result (λ q. Answerable n m × (q.n ≡ n) × (q.m ≡ m)) (λ e. (Answerable n m → ⊥) × (refusal e ≡ 3)) }
    {
        if !(1..=GREATEST_AXIS).contains(&m) || !(-GREATEST_DEPTH..=m).contains(&n) {
            return Err(Fault::Ratio);
        }
        Ok(Ratio { n, m })
    }
}
