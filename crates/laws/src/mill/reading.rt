// What is handed in as a point of a mill curve.

/// A strain ratio in thousandths, and a stress in psi: any numbers.
#[derive(Clone, Copy, PartialEq, Eq)]
pub struct Reading {
    pub ratio: i64,
    pub stress: i64,
}

impl Reading {
    /// No stress at no strain.
    pub const ORIGIN: Reading = Reading {
        ratio: 0,
        stress: 0,
    };
}
