// The end of a trial's line: the answer. A refusal is printed as C gets it, by its number, and one of the check or of the build with its
// place too.
use basics::{Place, Refusal};
use complement::Size;
use patterns::Checked;
use std::fmt;

#[derive(Clone, Copy)]
struct Refused(Refusal);

impl fmt::Display for Refused {
    fn fmt<W: fmt::Write>(&self, f: &mut fmt::Formatter<W>) -> fmt::Result {
        write!(f, "refused {}", self.0.number())
    }
}

// A refusal's number, and its place as a state and a letter.
#[derive(Clone, Copy)]
struct RefusedAt(u32, Place);

impl fmt::Display for RefusedAt {
    fn fmt<W: fmt::Write>(&self, f: &mut fmt::Formatter<W>) -> fmt::Result {
        let RefusedAt(number, place) = *self;
        write!(f, "refused {number} ({}, {})", place.state, place.letter)
    }
}

// What the check answers.
#[derive(Clone, Copy)]
pub(crate) struct Check(pub Checked);

impl fmt::Display for Check {
    fn fmt<W: fmt::Write>(&self, f: &mut fmt::Formatter<W>) -> fmt::Result {
        match self.0 {
            Checked::Passed => f.write_str("passed"),
            Checked::Refused(number, place) => write!(f, "{}", RefusedAt(number, place)),
        }
    }
}

// What a decision of a lasso answers.
#[derive(Clone, Copy)]
pub(crate) struct Decided(pub Result<bool, Refusal>);

impl fmt::Display for Decided {
    fn fmt<W: fmt::Write>(&self, f: &mut fmt::Formatter<W>) -> fmt::Result {
        match self.0 {
            Ok(true) => f.write_str("taken"),
            Ok(false) => f.write_str("not taken"),
            Err(refusal) => write!(f, "{}", Refused(refusal)),
        }
    }
}

// What the build answers.
#[derive(Clone, Copy)]
pub(crate) struct Built(pub Result<Size, Refusal>);

impl fmt::Display for Built {
    fn fmt<W: fmt::Write>(&self, f: &mut fmt::Formatter<W>) -> fmt::Result {
        match self.0 {
            Ok(size) => write!(f, "states {} edges {}", size.states, size.edges),
            Err(refusal) => write!(f, "{}", RefusedAt(refusal.number(), refusal.place())),
        }
    }
}

// How many of these a call wrote.
#[derive(Clone, Copy)]
pub(crate) struct Amount<'a>(pub Result<usize, Refusal>, pub &'a str);

impl fmt::Display for Amount<'_> {
    fn fmt<W: fmt::Write>(&self, f: &mut fmt::Formatter<W>) -> fmt::Result {
        match self.0 {
            Ok(count) => write!(f, "{count} {}", self.1),
            Err(refusal) => write!(f, "{}", Refused(refusal)),
        }
    }
}

// Numbers, each behind a blank.
#[derive(Clone, Copy)]
pub(crate) struct Row<'a, T>(pub &'a [T]);

impl<T: fmt::Display> fmt::Display for Row<'_, T> {
    fn fmt<W: fmt::Write>(&self, f: &mut fmt::Formatter<W>) -> fmt::Result {
        for number in self.0 {
            write!(f, " {number}")?;
        }
        Ok(())
    }
}
