// A word and the entry that it stands for.
ghost use Rattle.std.specs.Prelude.{◌≡◌, ◌+◌, ◌*◌, ◌<◌};
ghost use Rattle.words.specs.Words.{Read, Written, Field, Hundreds, Position, OneEntry, OneWord, code_of};

use crate::entry::Entry;
use crate::fault::Fault;
use crate::kind::Kind;
use crate::limits::{
    COUNT_LIMIT, FIELD_LIMIT, MEMBER_LIMIT, MU_LIMIT, PU_LIMIT, ROW_LIMIT, STRENGTH_STEP,
};
use section::bars::{bar_at, position_of};

// The kind is a word's top four bits.
const KIND: u32 = 1 << 28;

/// The entry that a word stands for.
impl TryFrom<u32> for Entry {
    type Error = Fault;

    ghost try_from_gives = { λ word r. Read word r × OneEntry word r };

    #[tactic(auto, using(crate::proofs::Unique::one_entry_read))]
    fn try_from(word: u32) -> Result<Self, Fault> {
        entry_of(word)
    }
}

/// The word that stands for an entry.
impl TryFrom<Entry> for u32 {
    type Error = Fault;

    ghost try_from_gives = { λ entry r. Written entry r × OneWord entry r };

    #[tactic(auto, using(crate::proofs::Unique::one_word_written))]
    fn try_from(entry: Entry) -> Result<Self, Fault> {
        word_of(entry)
    }
}

// The entry alone; that it is the only one is the conversion's promise.
#[tactic(auto, using(crate::proofs::Unique::kind_stands))]
fn entry_of(word: u32) -> Result<Entry, Fault>
    ensures { Read word result }
{
    let upper = word / FIELD_LIMIT % FIELD_LIMIT;
    let lower = word % FIELD_LIMIT;
    let whole = word % KIND;
    match Kind::try_from(word / KIND)? {
        Kind::Open => Ok(Entry::Open {
            fc: i64::from(STRENGTH_STEP * upper),
            fy: i64::from(STRENGTH_STEP * lower),
        }),
        Kind::Lay => Ok(Entry::Lay {
            thickness: i64::from(upper),
            width: i64::from(lower),
        }),
        Kind::Place => {
            // a stray bit above the position makes it one that no bar has
            let bar = bar_at((upper / COUNT_LIMIT) as usize).ok_or(Fault::Unreadable)?;
            Ok(Entry::Place {
                bar: i64::from(bar.number),
                count: i64::from(upper % COUNT_LIMIT),
                depth: i64::from(lower),
            })
        }
        Kind::Lift => Ok(Entry::Lift {
            row: i64::from(whole),
        }),
        Kind::Axial => {
            let pu = i64::from(whole);
            Ok(Entry::Axial {
                pu: if pu < PU_LIMIT { pu } else { pu - 2 * PU_LIMIT },
            })
        }
        Kind::Moment => Ok(Entry::Moment {
            member: i64::from(whole / MU_LIMIT),
            mu: i64::from(whole % MU_LIMIT),
        }),
        Kind::Solve if whole == 0 => Ok(Entry::Solve),
        Kind::Solve => Err(Fault::Unreadable),
    }
}

// The word alone; that it is the only one is the conversion's promise.
fn word_of(entry: Entry) -> Result<u32, Fault>
    ensures { Written entry result }
{
    match entry {
        Entry::Open { fc, fy } => {
            let upper = hundreds(fc, FIELD_LIMIT)?;
            let lower = hundreds(fy, FIELD_LIMIT)?;
            Ok(of_kind(Kind::Open, pair(upper, lower)))
        }
        Entry::Lay { thickness, width } => {
            let upper = field(thickness, FIELD_LIMIT)?;
            let lower = field(width, FIELD_LIMIT)?;
            Ok(of_kind(Kind::Lay, pair(upper, lower)))
        }
        Entry::Place { bar, count, depth } => {
            let position = bar_field(bar)?;
            let count = field(count, COUNT_LIMIT)?;
            let lower = field(depth, FIELD_LIMIT)?;
            Ok(of_kind(Kind::Place, pair(position * COUNT_LIMIT + count, lower)))
        }
        Entry::Lift { row } => Ok(of_kind(Kind::Lift, field(row, ROW_LIMIT)?)),
        Entry::Axial { pu } => {
            if !(-PU_LIMIT..PU_LIMIT).contains(&pu) {
                return Err(Fault::Unwritable);
            }
            let whole = if pu < 0 { pu + 2 * PU_LIMIT } else { pu };
            Ok(of_kind(Kind::Axial, whole as u32))
        }
        Entry::Moment { member, mu } => {
            let upper = field(member, MEMBER_LIMIT)?;
            let lower = field(mu, MU_LIMIT)?;
            Ok(of_kind(Kind::Moment, upper * MU_LIMIT + lower))
        }
        Entry::Solve => Ok(of_kind(Kind::Solve, 0)),
    }
}

// The word of a kind: its code, and below it the bits of the entry's numbers.
fn of_kind(kind: Kind, numbers: u32) -> u32
    requires { numbers < KIND }
    ensures { result ≡ code_of kind * KIND + numbers }
{
    kind as u32 * KIND + numbers
}

// Two fields of one size side by side.
fn pair(upper: u32, lower: u32) -> u32
    requires upper_fits { upper < FIELD_LIMIT }
    requires lower_fits { lower < FIELD_LIMIT }
    ensures { result ≡ upper * FIELD_LIMIT + lower }
{
    upper * FIELD_LIMIT + lower
}

// A number that a field takes as it is: from 0, and below the field's limit.
fn field(value: i64, limit: u32) -> Result<u32, Fault>
    ensures { Field limit value result }
{
    match u32::try_from(value) {
        Ok(value) if value < limit => Ok(value),
        _ => Err(Fault::Unwritable),
    }
}

// A strength, which a field takes in hundreds.
fn hundreds(value: i64, limit: u32) -> Result<u32, Fault>
    ensures { Hundreds limit value result }
{
    let step = i64::from(STRENGTH_STEP);
    if value % step != 0 {
        return Err(Fault::Unwritable);
    }
    field(value / step, limit)
}

// The field of a bar: its position in the table.
fn bar_field(bar: i64) -> Result<u32, Fault>
    ensures { Position bar result }
{
    position_of(bar)
        .map(|position| position as u32)
        .ok_or(Fault::Unwritable)
}
