// Numbers by which something is divided.
ghost use Rattle.std.specs.Prelude.{◌≡◌, pos, ◌≤ℤ◌, ◌<ℤ◌, MatchOption};

/// A whole number from 1 on.
#[derive(Clone, Copy)]
pub struct Positive {
    pub value: i64,
    ghost positive: { pos 1 ≤ℤ value },
}

impl Positive {
    /// The number as a positive one, or none where it is below 1.
    pub fn new(value: i64) -> Option<Positive>
        ensures { MatchOption result (value <ℤ pos 1) (λ p. p.value ≡ value) }
    {
        if value < 1 {
            return None;
        }
        Some(Positive { value })
    }
}
