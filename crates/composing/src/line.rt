// The word that one line asks for.
ghost use Rattle.std.specs.Prelude.{◌≡◌, ◌↔◌, IsTrue, MatchResult};
ghost use Rattle.text.specs.Runs.{pieces};
ghost use Rattle.composing.specs.Asking.{Answered, Lacks, Skipped, after_index};
ghost use Rattle.composing.specs.Spelling.{Spells};

use crate::expected::Expected;
use crate::spelling::{entry_of_kind, kind_named};
use text::figures::all_digits;
use text::runs::first_piece;
use words::entry::Entry;

// The word that a line asks for, or none where the line is skipped.
pub(crate) fn word_asked(line: &[u8]) -> Result<Option<u32>, Expected>
    ensures { Answered line.now result }
{
    if is_skipped(line) {
        return Ok(None);
    }
    let entry = entry_spelt(after_index(line))?;
    match u32::try_from(entry) {
        Ok(word) => Ok(Some(word)),
        Err(_) => Err(Expected::Fit(entry.kind())),
    }
}

// Whether a line is blank or a comment.
fn is_skipped(line: &[u8]) -> bool
    ensures { IsTrue result ↔ Skipped (pieces line.now) }
{
    first_piece(line).is_none_or(|(piece, _)| piece.first() == Some(&b'#'))
}

// The line after the index with which it begins, if it does.
fn after_index(line: &[u8]) -> &[u8]
    ensures { pieces result.now ≡ after_index (pieces line.now) }
{
    match first_piece(line) {
        Some((piece, rest)) if all_digits(piece) => rest,
        _ => line,
    }
}

// The entry that a line spells.
fn entry_spelt(line: &[u8]) -> Result<Entry, Expected>
    ensures { MatchResult result (λ e. Spells (pieces line.now) e) (λ x. Lacks (pieces line.now) x) }
{
    let (name, rest) = first_piece(line).ok_or(Expected::Name)?;
    let kind = kind_named(name).ok_or(Expected::Name)?;
    entry_of_kind(kind, rest).ok_or(Expected::Numbers(kind))
}
