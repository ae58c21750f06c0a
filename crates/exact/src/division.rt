// A quotient of whole numbers, rounded down and up.
ghost use Rattle.exact.specs.Fractions.{over};
ghost use Rattle.exact.specs.Rounding.{IsFloor, IsCeiling};

use crate::positive::Positive;

/// The greatest whole number that is not above num / den.
pub fn floor(num: i64, den: Positive) -> i64
    ensures { IsFloor (over num den.value) result }
{
    num.div_euclid(den.value)
}

/// The smallest whole number that is not below num / den.
pub fn ceiling(num: i64, den: Positive) -> i64
    ensures { IsCeiling (over num den.value) result }
{
    let whole = num.div_euclid(den.value);
    if num.rem_euclid(den.value) == 0 {
        whole
    } else {
        whole + 1
    }
}
