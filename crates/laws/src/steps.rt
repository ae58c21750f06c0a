// The unit of a law's answers.

/// Stresses are answered in whole steps, of which so many are a psi.
pub const STEPS_PER_PSI: i64 = 1;
