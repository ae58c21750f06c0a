// The laws by which stress follows strain, by their names.
ghost use Rattle.std.specs.Prelude.{◌≡◌, Decides, MatchOption, ◌≢◌};
ghost use Rattle.questions.specs.declared.law.Law.{Law};
ghost use Rattle.questions.specs.Questions.{Takes, name_of};

pub mod asked;

/// The name of a law, without what it is made of.
#[derive(Clone, Copy)]
pub enum Law {
    /// concrete, by its strength
    Block,
    /// concrete, by its strength
    Trapezoid,
    /// steel, by its yield strength
    Yield,
    /// steel, by the points of its mill curve, a ratio and a stress each
    Mill,
}

impl Law {
    // Whether the law takes as many numbers as these.
    pub(crate) fn takes(self, numbers: &[i64]) -> bool
        ensures { Decides result (Takes self numbers.now) }
    {
        match self {
            Law::Block | Law::Trapezoid | Law::Yield => numbers.len() == 1,
            Law::Mill => numbers.len() % 2 == 0,
        }
    }
}

/// The law with a name.
// No error tells more than `None` does: a name is a law's or it is not.
pub fn law_named(name: &[u8]) -> Option<Law>
    ensures { MatchOption result ((l : Law) → name.now ≢ name_of l) (λ l. name.now ≡ name_of l) }
{
    match name {
        b"block" => Some(Law::Block),
        b"trapezoid" => Some(Law::Trapezoid),
        b"yield" => Some(Law::Yield),
        b"mill" => Some(Law::Mill),
        _ => None,
    }
}
