// A quotient rounded down and up.

/// The floor and the ceiling of a quotient.
#[derive(Clone, Copy, PartialEq, Eq, Debug)]
pub struct Bounds {
    pub floor: i64,
    pub ceiling: i64,
}
