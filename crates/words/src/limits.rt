// How far the numbers of a word reach. Each limit is a power of two, and a number lies below it.

/// the row of a lift: 28 bits
pub const ROW_LIMIT: u32 = 1 << 28;
/// the two numbers of an opening (in hundreds of psi) and of a lay, and the depth of a place: 14 bits
pub const FIELD_LIMIT: u32 = 1 << 14;
/// the count of a place: 6 bits
pub const COUNT_LIMIT: u32 = 1 << 6;
/// the member of a moment: 2 bits
pub const MEMBER_LIMIT: u32 = 1 << 2;
/// the factored moment: 26 bits
pub const MU_LIMIT: u32 = 1 << 26;
/// the axial load: 28 bits with its sign, so from the negative limit on
pub const PU_LIMIT: i64 = 1 << 27;

/// strengths stand in a word in hundreds of psi
pub const STRENGTH_STEP: u32 = 100;
