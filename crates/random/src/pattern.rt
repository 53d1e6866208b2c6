// Random semi-deterministic patterns, laid out as chained tables.
ghost use Rattle.std.specs.Prelude.{◌≤◌};
ghost use Rattle.random.specs.Plans.{SmallPlan};

use crate::draw::Draw;
use tables::table_words;

// What a pattern is drawn by. Only states from `inner` on may accept; their edges stay among them, with one target for each letter.
#[derive(Clone, Copy)]
pub(crate) struct Plan {
    pub states: usize,
    pub letters: usize,
    pub records: usize,
    pub inner: usize,
    ghost small: { SmallPlan states records inner },
}

// For each of six states its target on each of three letters.
type Targets = [[usize; 3]; 6];

fn put(table: &mut [u16], at: usize, word: usize) {
    if let Some(place) = table.get_mut(at) {
        *place = (word % 65536) as u16;
    }
}

impl Plan {
    // One to six states, one to three letters, and up to six records for each state.
    pub(crate) fn drawn(draw: &mut Draw) -> Plan {
        let states = 1 + draw.below(6);
        Plan {
            states,
            letters: 1 + draw.below(3),
            records: draw.below(6 * states + 1),
            inner: draw.below(states),
        }
    }

    // How many words the table has.
    pub(crate) fn table_length(self) -> usize
        ensures { result ≤ 146 }
    {
        table_words(self.states, self.records)
    }

    // How many flags a state can have: initial or not, and for an inner state accepting or not.
    fn flags_count(self, state: usize) -> usize {
        if state < self.inner { 2 } else { 4 }
    }

    // Draws the states' flags.
    fn put_flags(self, table: &mut [u16], draw: &mut Draw) {
        for state in 0..self.states {
            put(table, 3 + 2 * state, draw.below(self.flags_count(state)));
        }
    }

    // Draws the targets of the inner states among themselves.
    fn inner_targets(self, draw: &mut Draw) -> Targets {
        let mut targets = [[0; 3]; 6];
        for target in targets.iter_mut().flatten() {
            *target = self.inner + draw.below(self.states - self.inner);
        }
        targets
    }

    // Draws the records one after the other: the edge of an inner state goes to its target for the letter, that of another to any state.
    // `ends` has for each state the word that names the next record of its chain.
    fn put_records(self, table: &mut [u16], targets: Targets, draw: &mut Draw) {
        let mut ends = [4, 6, 8, 10, 12, 14];
        for number in 1..=self.records {
            let source = draw.below(self.states) % 6;
            let letter = draw.below(self.letters);
            let any = draw.below(self.states);
            let target = if source < self.inner {
                any
            } else {
                targets[source][letter % 3]
            };
            let at = 2 * self.states + 3 * number;
            put(table, at, letter);
            put(table, at + 1, target);
            put(table, ends[source], number);
            ends[source] = at + 2;
        }
    }

    // Draws a pattern into words that are all zero.
    pub(crate) fn put_pattern(self, table: &mut [u16], draw: &mut Draw) {
        put(table, 0, self.states);
        put(table, 1, self.letters);
        put(table, 2, self.records);
        *draw = draw.apart();
        self.put_flags(table, draw);
        let mut ahead = *draw;
        let targets = self.inner_targets(&mut ahead);
        *draw = draw.apart();
        self.put_records(table, targets, draw);
    }
}
