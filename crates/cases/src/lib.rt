// Examples of bars, curves, entry words, listings and lines, run against what the formats and the laws say.
#![tactic(auto)]

#[cfg(test)]
mod bars;
#[cfg(test)]
mod curves;
#[cfg(test)]
mod lines;
#[cfg(test)]
mod listings;
#[cfg(test)]
mod readings;
#[cfg(test)]
mod writings;
