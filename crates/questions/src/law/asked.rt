// The law that is asked, with what it is made of.
ghost use Rattle.std.specs.Prelude.{◌≡◌, IfOk, MatchOption, map};
ghost use Rattle.questions.specs.Questions.{Takes};
ghost use Rattle.questions.specs.Asked.{IsAskedOf, reading_of};

use crate::law::Law;
use laws::mill::reading::Reading;
use std::alloc::{AllocError, Global};

/// A law, with the numbers of which it is made: any numbers.
#[derive(Drop)]
pub enum Asked {
    /// the block of a strength f'c
    Block { fc: i64 },
    /// the trapezoid of a strength f'c
    Trapezoid { fc: i64 },
    /// the yield law of a strength fy
    Yield { fy: i64 },
    /// the mill curve through readings
    Mill { readings: Vec<Reading> },
}

// The law with its numbers, if it takes as many.
pub(crate) fn asked_of(heap: Global, law: Law, numbers: &[i64]) -> Result<Option<Asked>, AllocError>
    ensures { IfOk result (λ o. MatchOption o (¬ Takes law numbers.now) (IsAskedOf law numbers.now)) }
{
    match (law, numbers) {
        (Law::Block, &[fc]) => Ok(Some(Asked::Block { fc })),
        (Law::Trapezoid, &[fc]) => Ok(Some(Asked::Trapezoid { fc })),
        (Law::Yield, &[fy]) => Ok(Some(Asked::Yield { fy })),
        (Law::Mill, _) => mill_of(heap, numbers),
        _ => Ok(None),
    }
}

// The mill curve of numbers, if they are in pairs.
#[tactic(auto, using(crate::proofs::Pairs::numbers_of_pairs))]
fn mill_of(heap: Global, numbers: &[i64]) -> Result<Option<Asked>, AllocError>
    ensures { IfOk result (λ o. MatchOption o (¬ Takes Law.Mill numbers.now) (IsAskedOf Law.Mill numbers.now)) }
{
    let (pairs, []) = numbers.as_chunks() else {
        return Ok(None);
    };
    let readings = readings_of(heap, pairs)?;
    Ok(Some(Asked::Mill { readings }))
}

// The readings that are pairs of a ratio and a stress.
fn readings_of(heap: Global, pairs: &[[i64; 2]]) -> Result<Vec<Reading>, AllocError>
    ensures { IfOk result (λ v. v.items ≡ map reading_of pairs.now) }
{
    pairs
        .iter()
        .map(|&[ratio, stress]| Reading { ratio, stress })
        .collect(heap)
}
