// The pattern check: refusals 2 to 10, and what the construction reads of a pattern, spread out by state and by letter.
#![tactic(auto)]

ghost use Rattle.std.specs.Prelude.{◌≡◌, ◌<◌, IfOk};
ghost use Rattle.basics.specs.Refusals.{refused};
ghost use Rattle.tables.specs.Table.{pattern_range, table_refusal, meaning};
ghost use Rattle.patterns.specs.Check.{checked, reading, masks_read};
ghost use Rattle.patterns.specs.Masks.{row_of, masks_of, joined, joined_in};
ghost use Rattle.patterns.specs.Pattern.{initial_states, accepting_states, moves};
ghost use Rattle.patterns.specs.Reading.{read_as};
ghost use Rattle.patterns.specs.Shape.{shape_of, two_targets, masks_place, SmallShape};

use basics::{Place, Refusal};
use ncsb::Shape;
use sets::{ROW_LETTERS, SET_STATES, TargetSets, targets};
use tables::{PATTERN_RECORDS, PATTERN_STATES, Table};

// What the check answers: it passed, or the number of the refusal and its place, a state and a letter together (docs/DECISIONS.md, "Forms").
#[derive(Clone, Copy, PartialEq, Eq)]
pub enum Checked {
    Passed,
    Refused(u32, Place),
}

// A PATTERN whose table has passed refusals 2 to 9.
#[derive(Clone, Copy)]
struct Pattern<'a> {
    table: Table<'a>,
    ghost passed: { table_refusal pattern_range table.words.now ≡ 0 },
}

// I, the states whose flags are 1 or 3, and F, those whose flags are 2 or 3.
#[derive(Clone, Copy)]
struct Flagged {
    initial: u32,
    accepting: u32,
}

impl<'a> Pattern<'a> {
    // The pattern of these words, or the first of refusals 2 to 9 that they meet.
    #[tactic(auto, unfolding(tables::specs::Table::pattern_range))]
    fn checked(words: &'a [u16]) -> Result<Pattern<'a>, Refusal>
        ensures refusal { refused result ≡ table_refusal pattern_range words.now }
        ensures pattern { IfOk result (λ p. p.table.words ≡ words.entry) }
    {
        let table = Table::checked(words, PATTERN_STATES, PATTERN_RECORDS)?;
        Ok(Pattern { table })
    }

    // The targets of one state, by letter: one walk along its chain. A record that repeats an edge adds nothing.
    fn row(self, state: usize) -> [u32; ROW_LETTERS]
        requires { state < self.table.states }
        ensures { result ≡ row_of (moves (meaning self.entry.table.words.now)) state }
    {
        let mut row = [0u32; ROW_LETTERS];
        let mut at = self.table.head(state);
        while at != 0 {
            // The next record is read before the set is stored: the walk need not wait for that.
            let letter = self.table.letter(at);
            let target = self.table.target(at);
            at = self.table.next(at);
            row[letter] |= 1 << target;
        }
        row
    }

    // THE TABLE BY STATE AND BY LETTER OF TARGET SETS: lays out the rows of all states. Each chain is walked once; every later test and step
    // reads these sets alone.
    #[tactic(auto, using(crate::proofs::Masks::pattern_few))]
    fn spread_out(self, masks: &mut TargetSets)
        ensures { masks.new ≡ masks_of (moves (meaning self.entry.table.words.now)) }
    {
        *masks = [[0u32; ROW_LETTERS]; SET_STATES];
        for state in 0..self.table.states {
            masks[state] = self.row(state);
        }
    }

    // I and F, in one walk over the states: each flag is the bit of its state.
    #[tactic(auto, using(crate::proofs::Masks::pattern_few))]
    fn flagged(self) -> Flagged
        ensures initial { result.initial ≡ initial_states (meaning self.entry.table.words.now) }
        ensures accepting { result.accepting ≡ accepting_states (meaning self.entry.table.words.now) }
    {
        let mut initial: u32 = 0;
        let mut accepting: u32 = 0;
        for state in 0..self.table.states {
            let flags = self.table.flags(state) as u32;
            initial |= (flags % 2) << state;
            accepting |= (flags / 2) << state;
        }
        Flagged { initial, accepting }
    }

    // All that the step reads beside the masks. Q2 is what the accepting states reach in n rounds.
    fn shape(self, masks: &TargetSets) -> Shape
        requires { masks.now ≡ masks_of (moves (meaning self.table.words.now)) }
        ensures { result ≡ shape_of (moves (meaning self.entry.table.words.now)) }
    {
        let states = self.table.states;
        let letters = self.table.letters();
        let flagged = self.flagged();
        let inner = closure(*masks, letters, states, flagged.accepting);
        Shape {
            states,
            letters,
            starts: flagged.initial,
            marks: flagged.accepting & inner,
            inner,
        }
    }
}

// Q2

// One round of the closure: the set joined with its targets on each letter.
#[tactic(auto, unfolding(crate::specs::Masks::joined))]
fn grown(masks: &TargetSets, letters: usize, set: u32) -> u32
    ensures { result ≡ joined letters masks.now set }
{
    let mut all = set;
    for letter in 0..letters {
        all |= targets(masks, letter, set);
    }
    all
}

// All that a set reaches in so many rounds. Once a round adds nothing, no later one does. The masks come by value (docs/DECISIONS.md,
// "Forms") and are lent on.
#[tactic(auto, unfolding(crate::specs::Masks::joined_in))]
fn closure(masks: TargetSets, letters: usize, rounds: usize, set: u32) -> u32
    ensures { result ≡ joined_in rounds letters masks set }
{
    let mut reached = set;
    for _ in 0..rounds {
        let next = grown(&masks, letters, reached);
        if next == reached {
            return reached;
        }
        reached = next;
    }
    reached
}

// SEMI-DETERMINISM

// A set of targets has more than one.
fn two_targets(set: u32) -> bool
    ensures { result ≡ two_targets set }
{
    u32::count_ones(set) > 1
}

// Where the pattern forks first: the smallest state of Q2 that has two targets on one letter, and the smallest such letter. The search
// ends at the first such pair.
fn first_fork(masks: &TargetSets, shape: Shape) -> Option<Place>
    requires { SmallShape shape }
    ensures { result ≡ masks_place masks.now shape }
{
    'search: {
        for state in 0..shape.states as u32 {
            if (shape.inner >> state) % 2 == 1 {
                for letter in 0..shape.letters as u32 {
                    if two_targets(masks[state as usize][letter as usize]) {
                        break 'search Some(Place { state, letter });
                    }
                }
            }
        }
        None
    }
}

// THE CHECK

// Reads a pattern once, for the check and for the build: the first of refusals 2 to 10 that the table meets, or the shape. Where 2 to 9
// have passed the masks become the pattern's, also where it forks; where one of them is met the masks are left as they are.
#[tactic(auto, using(crate::proofs::Answers::reading_steps))]
pub fn read_pattern(table: &[u16], masks: &mut TargetSets) -> Result<Shape, Refusal>
    ensures told { read_as result ≡ reading table.now }
    ensures spread { masks.new ≡ masks_read table.now masks.old }
{
    let pattern = Pattern::checked(table)?;
    pattern.spread_out(masks);
    let shape = pattern.shape(masks);
    match first_fork(masks, shape) {
        Some(place) => Err(Refusal::Forks(place)),
        None => Ok(shape),
    }
}

// Whether the table is a pattern that can be complemented: it passes, or the first of refusals 2 to 10 that it meets, and where it forks.
#[tactic(auto, using(crate::proofs::Answers::answer_refused, crate::proofs::Answers::answer_passed))]
pub fn check_pattern(table: &[u16]) -> Checked
    ensures { result ≡ checked table.now }
{
    let mut masks = [[0u32; ROW_LETTERS]; SET_STATES];
    match read_pattern(table, &mut masks) {
        Ok(_) => Checked::Passed,
        Err(refusal) => Checked::Refused(refusal.number(), refusal.place()),
    }
}
