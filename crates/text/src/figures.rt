// The figures of a number.
ghost use Rattle.std.specs.Prelude.{◌≡◌, ℤ, MatchOption};
ghost use Rattle.std.specs.Str.{all_ascii_digits};
ghost use Rattle.text.specs.Figures.{Figures, NoNumberFirst, NumberFirst};
ghost use Rattle.text.specs.Runs.{pieces};

use crate::runs::first_piece;
use std::str::from_utf8;

/// The number that a piece writes in figures.
pub fn number(piece: &[u8]) -> Option<i64>
    ensures { MatchOption result ((z : ℤ) → Figures piece.now z → ⊥) (λ z. Figures piece.now z) }
{
    from_utf8(piece).ok()?.parse().ok()
}

/// Whether every byte of a piece is a digit.
pub fn all_digits(piece: &[u8]) -> bool
    ensures { result ≡ all_ascii_digits piece.now }
{
    piece.iter().all(u8::is_ascii_digit)
}

/// The number with which a line begins, and the line after it.
pub fn first_number(line: &[u8]) -> Option<(i64, &[u8])>
    ensures { MatchOption result (NoNumberFirst (pieces line.now)) (λ p. NumberFirst (pieces line.now) p.0 (pieces p.1.now)) }
{
    let (piece, rest) = first_piece(line)?;
    Some((number(piece)?, rest))
}
