// What is told of a refused text: the line, and what was expected of it.
ghost use Rattle.std.specs.Prelude.{Some};
ghost use Rattle.section.specs.Bars.{bars};
ghost use Rattle.composing.specs.Messages.{bar_numbers, expected_text, failure_text, form_text, ranges_text};

use crate::compose::Failure;
use crate::expected::Expected;
use section::bars::table;
use std::fmt;
use words::kind::Kind;
use words::limits::{
    COUNT_LIMIT, FIELD_LIMIT, MEMBER_LIMIT, MU_LIMIT, PU_LIMIT, ROW_LIMIT, STRENGTH_STEP,
};

impl fmt::Display for Failure {
    ghost output = { λ x. Some (failure_text x) };

    fn fmt<W: fmt::Write>(&self, f: &mut fmt::Formatter<W>) -> fmt::Result {
        match *self {
            Failure::Memory => write!(f, "out of memory"),
            Failure::Line { number, expected } => write!(f, "line {number}: expected {expected}"),
        }
    }
}

impl fmt::Display for Expected {
    ghost output = { λ x. Some (expected_text x) };

    fn fmt<W: fmt::Write>(&self, f: &mut fmt::Formatter<W>) -> fmt::Result {
        match *self {
            Expected::Name => write!(f, "open, lay, place, lift, axial, moment or solve"),
            Expected::Numbers(kind) => write!(f, "{}", Form(kind)),
            Expected::Fit(kind) => write!(f, "{}", Ranges(kind)),
        }
    }
}

// The form of a line, with N for each number.
#[derive(Clone, Copy)]
struct Form(Kind);

impl fmt::Display for Form {
    ghost output = { λ x. Some (form_text x.0) };

    fn fmt<W: fmt::Write>(&self, f: &mut fmt::Formatter<W>) -> fmt::Result {
        match self.0 {
            Kind::Open => write!(f, "open fc N fy N"),
            Kind::Lay => write!(f, "lay thickness N width N"),
            Kind::Place => write!(f, "place bar N count N depth N"),
            Kind::Lift => write!(f, "lift row N"),
            Kind::Axial => write!(f, "axial pu N"),
            Kind::Moment => write!(f, "moment member N mu N"),
            Kind::Solve => write!(f, "solve alone"),
        }
    }
}

// What the numbers of a line may be: another text of a kind, with which the form shares its wrapper alone.
#[derive(Clone, Copy)]
struct Ranges(Kind);

impl fmt::Display for Ranges {
    ghost output = { λ x. Some (ranges_text x.0) };

    fn fmt<W: fmt::Write>(&self, f: &mut fmt::Formatter<W>) -> fmt::Result {
        let field = FIELD_LIMIT - 1;
        match self.0 {
            Kind::Open => {
                let most = STRENGTH_STEP * field;
                write!(f, "fc and fy multiples of {STRENGTH_STEP} from 0 to {most}")
            }
            Kind::Lay => write!(f, "thickness and width from 0 to {field}"),
            Kind::Place => {
                let count = COUNT_LIMIT - 1;
                let numbers = BarNumbers;
                write!(
                    f,
                    "count from 0 to {count}, depth from 0 to {field}, bar one of{numbers}"
                )
            }
            Kind::Lift => {
                let row = ROW_LIMIT - 1;
                write!(f, "row from 0 to {row}")
            }
            Kind::Axial => {
                let least = -PU_LIMIT;
                let most = PU_LIMIT - 1;
                write!(f, "pu from {least} to {most}")
            }
            Kind::Moment => {
                let member = MEMBER_LIMIT - 1;
                let mu = MU_LIMIT - 1;
                write!(f, "member from 0 to {member}, mu from 0 to {mu}")
            }
            Kind::Solve => write!(f, "solve alone"),
        }
    }
}

// The numbers of the bars, a space before each.
#[derive(Clone, Copy)]
struct BarNumbers;

impl fmt::Display for BarNumbers {
    ghost output = { λ _. Some (bar_numbers bars) };

    fn fmt<W: fmt::Write>(&self, f: &mut fmt::Formatter<W>) -> fmt::Result {
        for bar in table() {
            write!(f, " {}", bar.number)?;
        }
        Ok(())
    }
}
