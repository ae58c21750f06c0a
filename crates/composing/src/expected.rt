// What was expected of a line that asks for no word.
use words::kind::Kind;

/// What was expected of a line that asks for no word.
#[derive(Clone, Copy, Debug)]
pub enum Expected {
    /// the name of a kind of entry
    Name,
    /// the numbers of an entry of this kind, each after its label
    Numbers(Kind),
    /// numbers that fit the word of an entry of this kind
    Fit(Kind),
}
