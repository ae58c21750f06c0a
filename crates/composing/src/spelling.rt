// The entry that the pieces of a line spell: the name of its kind, then each number after its label.
ghost use Rattle.std.specs.Prelude.{◌≡◌, ℕ, List, ℤ, length, map, MatchOption, ◌≢◌};
ghost use Rattle.text.specs.Runs.{pieces};
ghost use Rattle.words.specs.Kinds.{kind_of, name_of};
ghost use Rattle.words.specs.Lines.{numbers_of};
ghost use Rattle.words.specs.declared.kind.Kind.{Kind};
ghost use Rattle.composing.specs.Spelling.{NoNumbers, NumberFirst, Numbers, labelled_all};

use text::figures::first_number;
use text::runs::first_piece;
use words::entry::Entry;
use words::kind::Kind;

// The kind of entry with a name. An Option and no TryFrom, since an error would tell no more than that there is none.
pub(crate) fn kind_named(name: &[u8]) -> Option<Kind>
    ensures { MatchOption result ((k : Kind) → name.now ≢ name_of k) (λ k. name.now ≡ name_of k) }
{
    match name {
        b"open" => Some(Kind::Open),
        b"lay" => Some(Kind::Lay),
        b"place" => Some(Kind::Place),
        b"lift" => Some(Kind::Lift),
        b"axial" => Some(Kind::Axial),
        b"moment" => Some(Kind::Moment),
        b"solve" => Some(Kind::Solve),
        _ => None,
    }
}

// The entry of a kind whose numbers a line writes. Each kind has an arm, since each entry has fields of its own.
pub(crate) fn entry_of_kind(kind: Kind, line: &[u8]) -> Option<Entry>
    ensures { MatchOption result (NoNumbers kind (pieces line.now)) (λ e. (kind_of e ≡ kind) × Numbers (numbers_of e) (pieces line.now)) }
{
    match kind {
        Kind::Open => {
            let [fc, fy] = numbers::<2>(line, &["fc", "fy"])?;
            Some(Entry::Open { fc, fy })
        }
        Kind::Lay => {
            let [thickness, width] = numbers::<2>(line, &["thickness", "width"])?;
            Some(Entry::Lay { thickness, width })
        }
        Kind::Place => {
            let [bar, count, depth] = numbers::<3>(line, &["bar", "count", "depth"])?;
            Some(Entry::Place { bar, count, depth })
        }
        Kind::Lift => {
            let [row] = numbers::<1>(line, &["row"])?;
            Some(Entry::Lift { row })
        }
        Kind::Axial => {
            let [pu] = numbers::<1>(line, &["pu"])?;
            Some(Entry::Axial { pu })
        }
        Kind::Moment => {
            let [member, mu] = numbers::<2>(line, &["member", "mu"])?;
            Some(Entry::Moment { member, mu })
        }
        Kind::Solve => {
            let [] = numbers::<0>(line, &[])?;
            Some(Entry::Solve)
        }
    }
}

// The numbers of a line that has each after its label, and nothing else. The labels are a slice: an array of references
// whose length is a parameter gets no proof.
fn numbers<const N: usize>(line: &[u8], labels: &[&str]) -> Option<[i64; N]>
    requires { length labels.now ≡ N }
    ensures { MatchOption result ((zs : List ℤ) → length zs ≡ N → Numbers (labelled_all (map (λ l. l.now) labels.now) zs) (pieces line.now) → ⊥) (λ zs. Numbers (labelled_all (map (λ l. l.now) labels.now) zs) (pieces line.now)) }
{
    let mut numbers = [0; N];
    let mut rest = line;
    // by place: what is written through an `iter_mut` that is zipped with the labels is not known afterwards
    for (i, label) in labels.iter().enumerate() {
        let (number, more) = number_first(rest, label.as_bytes())?;
        numbers[i] = number;
        rest = more;
    }
    if first_piece(rest).is_some() {
        return None;
    }
    Some(numbers)
}

// The number with which a line begins, after its label, and the line after it.
fn number_first<'a>(line: &'a [u8], label: &[u8]) -> Option<(i64, &'a [u8])>
    ensures { MatchOption result ((z : ℤ) (rest : List (List ℕ)) → NumberFirst label.now (pieces line.now) z rest → ⊥) (λ p. NumberFirst label.now (pieces line.now) p.0 (pieces p.1.now)) }
{
    let (first, rest) = first_piece(line)?;
    if first != label {
        return None;
    }
    first_number(rest)
}
