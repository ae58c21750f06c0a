// The question that a line asks: a law, its numbers, and the two numbers at which it is asked.
ghost use Rattle.std.specs.Prelude.{ℤ, IfOk, MatchOption};
ghost use Rattle.text.specs.Figures.{NoNumberFirst};
ghost use Rattle.text.specs.Runs.{pieces};
ghost use Rattle.questions.specs.Asked.{law_of, numbers_of};
ghost use Rattle.questions.specs.Questions.{Asks, AsksNothing, At, Leading, Two};

use crate::law::asked::{Asked, asked_of};
use crate::law::law_named;
use std::alloc::{AllocError, Global};
use text::figures::first_number;
use text::runs::first_piece;

/// A law, and the two numbers at which it is asked.
#[derive(Drop)]
pub struct Question {
    pub law: Asked,
    /// the first number after `at`
    pub n: i64,
    /// the second number after `at`
    pub m: i64,
}

/// The question that a line asks, if it asks one.
pub fn question_asked(heap: Global, line: &[u8]) -> Result<Option<Question>, AllocError>
    ensures { IfOk result (λ o. MatchOption o (AsksNothing (pieces line.now)) (λ q. Asks (pieces line.now) (law_of q.law) (numbers_of q.law) q.n q.m)) }
{
    let Some((name, rest)) = first_piece(line) else {
        return Ok(None);
    };
    let Some(law) = law_named(name) else {
        return Ok(None);
    };
    let (numbers, rest) = leading_numbers(heap, rest)?;
    // before the rest is read: a line of another count asks nothing, whatever follows
    if !law.takes(numbers.as_slice()) {
        return Ok(None);
    }
    let Some((n, m)) = two_at(rest) else {
        return Ok(None);
    };
    let Some(law) = asked_of(heap, law, numbers.as_slice())? else {
        return Ok(None);
    };
    Ok(Some(Question { law, n, m }))
}

// The numbers with which a line begins, and the line after them.
#[tactic(auto, using(crate::proofs::Asked::leading_none, crate::proofs::Asked::leading_more))]
fn leading_numbers(heap: Global, line: &[u8]) -> Result<(Vec<i64>, &[u8]), AllocError>
    ensures { IfOk result (λ p. Leading (pieces line.now) p.0.items (pieces p.1.now) × NoNumberFirst (pieces p.1.now)) }
{
    let mut numbers = Vec::new(heap);
    let mut rest = line;
    // each number is read from where the one before it ended, and the first piece that is none is left
    while let Some((z, more)) = first_number(rest) {
        numbers.push(z)?;
        rest = more;
    }
    Ok((numbers, rest))
}

// The two numbers of a line that is `at`, these numbers, and nothing else.
fn two_at(line: &[u8]) -> Option<(i64, i64)>
    ensures { MatchOption result ((n m : ℤ) → At (pieces line.now) n m → ⊥) (λ p. At (pieces line.now) p.0 p.1) }
{
    match first_piece(line)? {
        (b"at", rest) => two(rest),
        _ => None,
    }
}

// The two numbers of a line that has nothing else: n and m, any two, as a law is handed them.
fn two(line: &[u8]) -> Option<(i64, i64)>
    ensures { MatchOption result ((n m : ℤ) → Two (pieces line.now) n m → ⊥) (λ p. Two (pieces line.now) p.0 p.1) }
{
    let (n, rest) = first_number(line)?;
    let (m, rest) = first_number(rest)?;
    if first_piece(rest).is_some() {
        return None;
    }
    Some((n, m))
}
