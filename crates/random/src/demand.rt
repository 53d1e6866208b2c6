// The third demand on one pattern: it passes, its complement is built, and over each lasso exactly one of the two answers taken.
use crate::draw::Draw;
use crate::pattern::Plan;
use crate::tally::Tally;
use complement::build_complement;
use lassos::decide_lasso;
use patterns::{Checked, check_pattern};
use tables::table_words;

// Whether a table takes a lasso, or nothing where that is refused. Room for 256 states and nine letters.
fn taken(table: &[u16], prefix: &[u8], cycle: &[u8]) -> Option<bool> {
    let mut work = [0u32; 9216];
    decide_lasso(table, prefix, cycle, &mut work).ok()
}

fn compare(tally: &mut Tally, by_pattern: Option<bool>, by_complement: Option<bool>) {
    match (by_pattern, by_complement) {
        (Some(true), Some(false)) => tally.pattern_only(),
        (Some(false), Some(true)) => tally.complement_only(),
        _ => tally.disagreed(),
    }
}

fn put_letters(part: &mut [u8], letters: usize, draw: &mut Draw) {
    for letter in part {
        *letter = (draw.below(letters) % 256) as u8;
    }
}

// A pattern and its complement, of so many letters.
#[derive(Clone, Copy)]
struct Sides<'a> {
    pattern: &'a [u16],
    complement: &'a [u16],
    letters: usize,
}

impl Sides<'_> {
    // Draws a prefix of up to four letters and a loop of one to five, and asks both sides.
    fn try_lasso(self, tally: &mut Tally, mut draw: Draw) {
        let mut prefix = [0u8; 5];
        let mut cycle = [0u8; 6];
        put_letters(&mut prefix, self.letters, &mut draw);
        put_letters(&mut cycle, self.letters, &mut draw);
        let u = &prefix[..draw.below(5)];
        let v = &cycle[..1 + draw.below(5)];
        compare(
            tally,
            taken(self.pattern, u, v),
            taken(self.complement, u, v),
        )
    }

    fn try_lassos(self, tally: &mut Tally, mut draw: Draw) {
        for _ in 0..6 {
            self.try_lasso(tally, draw);
            draw = draw.apart();
        }
    }
}

// Room for 256 records and 4,096 words.
fn try_complement(tally: &mut Tally, table: &[u16], letters: usize, draw: Draw) {
    let mut words = [0u16; 4096];
    let mut sets = [0u32; 1024];
    let Ok(size) = build_complement(table, &mut words, &mut sets) else {
        return tally.disagreed();
    };
    let used = table_words(size.states as usize, size.edges as usize);
    let Some(complement) = words.get(..used) else {
        return tally.disagreed();
    };
    tally.built(size.states, size.edges);
    let sides = Sides {
        pattern: table,
        complement,
        letters,
    };
    sides.try_lassos(tally, draw)
}

pub(crate) fn try_pattern(tally: &mut Tally, mut draw: Draw) {
    let mut later = draw.next();
    let plan = Plan::drawn(&mut draw);
    let mut words = [0u16; 146];
    plan.put_pattern(&mut words, &mut later);
    let table = &words[..plan.table_length()];
    match check_pattern(table) {
        Checked::Passed => try_complement(tally, table, plan.letters, later),
        Checked::Refused(_, _) => tally.disagreed(),
    }
}
