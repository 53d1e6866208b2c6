// What is counted over all patterns and lassos.
use std::fmt;

#[derive(Default, Drop)]
pub(crate) struct Tally {
    patterns: u64,
    states: u64,
    edges: u64,
    lassos: u64,
    by_pattern: u64,
    by_complement: u64,
    disagreements: u64,
}

impl Tally {
    // A pattern that passed, with its complement's counts.
    pub(crate) fn built(&mut self, states: u32, edges: u32) {
        self.patterns = self.patterns.wrapping_add(1);
        self.states = self.states.wrapping_add(u64::from(states));
        self.edges = self.edges.wrapping_add(u64::from(edges));
    }

    // Two functions, whose second lines add to different counts: which of these rises would be no plainer as an argument.

    // A lasso that only the pattern takes.
    pub(crate) fn pattern_only(&mut self) {
        self.lassos = self.lassos.wrapping_add(1);
        self.by_pattern = self.by_pattern.wrapping_add(1);
    }

    // A lasso that only the complement takes.
    pub(crate) fn complement_only(&mut self) {
        self.lassos = self.lassos.wrapping_add(1);
        self.by_complement = self.by_complement.wrapping_add(1);
    }

    // A refusal, or a lasso that both take or neither.
    pub(crate) fn disagreed(&mut self) {
        self.disagreements = self.disagreements.wrapping_add(1);
    }
}

impl fmt::Display for Tally {
    fn fmt<W: fmt::Write>(&self, f: &mut fmt::Formatter<W>) -> fmt::Result {
        writeln!(f, "patterns {}", self.patterns)?;
        writeln!(f, "states {}", self.states)?;
        writeln!(f, "edges {}", self.edges)?;
        writeln!(f, "lassos {}", self.lassos)?;
        writeln!(f, "taken by the pattern {}", self.by_pattern)?;
        writeln!(f, "taken by the complement {}", self.by_complement)?;
        write!(f, "disagreements {}", self.disagreements)
    }
}
