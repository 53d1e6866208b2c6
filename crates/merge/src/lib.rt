// Two patterns made into one: the second's states and records are numbered on from the first's.
#![tactic(auto)]

ghost use Rattle.std.specs.Prelude.{◌≡◌, IfOk, ◌+◌, ◌*◌, ◌≤◌, length};
ghost use Rattle.std.proofs.lemmas.List.Edits.{sets};
ghost use Rattle.basics.specs.Buffers.{overwritten};
ghost use Rattle.basics.specs.Refusals.{refused, written};
ghost use Rattle.basics.specs.Rows.{rows};
ghost use Rattle.basics.specs.Words.{word_bits, largest_word};
ghost use Rattle.tables.specs.Table.{pattern_range, m_of, table_refusal};
ghost use Rattle.patterns.specs.Check.{check_refusal};
ghost use Rattle.merge.specs.Merge.{pair_refusal, merge_refusal, MergeSays};
ghost use Rattle.merge.specs.Merged.{link_on, state_row, record_row, merged_words};

use basics::{Refusal, fill};
use layout::write_counts;
use patterns::read_pattern;
use sets::{ROW_LETTERS, SET_STATES};
use tables::{PATTERN_RECORDS, PATTERN_STATES, Table, states_of, table_words};

// Merges two patterns into the lent words, and answers how many words the merged pattern has. Each table is checked once and then read once.
// A merge answers no place: of a fork, refusal 10, the number alone is promised.
pub fn merge_patterns(first: &[u16], second: &[u16], words: &mut [u16]) -> Result<usize, Refusal>
    ensures { MergeSays first.now second.now (written result) words.old words.new }
{
    match Pair::mergeable(first, second, words.len()) {
        Ok(pair) => {
            let end = pair.lay_merged(words);
            fill(&mut words[end..], 0);
            Ok(end)
        }
        Err(refusal) => {
            fill(words, 0);
            Err(refusal)
        }
    }
}

// TWO PATTERNS

// The table of a pattern, or the first of refusals 2 to 10 that the words meet.
#[tactic(auto, using(patterns::proofs::Answers::reading_refused, patterns::proofs::Answers::reading_passed))]
fn pattern<'a>(words: &'a [u16]) -> Result<Table<'a>, Refusal>
    ensures refusal { refused result ≡ check_refusal words.now }
    ensures table { IfOk result (λ t. t.words.now ≡ words.now) }
{
    // A reading spreads out the edges for a build; here they are not asked for.
    let mut masks = [[0u32; ROW_LETTERS]; SET_STATES];
    read_pattern(words, &mut masks)?;
    Ok(Table {
        words,
        states: states_of(words),
    })
}

// Two tables that have passed the check.
#[derive(Clone, Copy)]
struct Pair<'a> {
    first: Table<'a>,
    second: Table<'a>,
    ghost first_passed: { check_refusal first.words.now ≡ 0 },
    ghost second_passed: { check_refusal second.words.now ≡ 0 },
}

impl<'a> Pair<'a> {
    // Two patterns that can be merged into so many words; or the first table is refused by 2 to 10, then the second by 2 to 10, then both
    // together by 19 to 22.
    #[tactic(auto, unfolding(crate::specs::Merge::merge_refusal, basics::specs::Buffers::or_else))]
    fn mergeable(first: &'a [u16], second: &'a [u16], room: usize) -> Result<Pair<'a>, Refusal>
        ensures refusal { refused result ≡ merge_refusal first.now second.now room }
        ensures pair { IfOk result (λ p. (p.first.words.now ≡ first.now) × (p.second.words.now ≡ second.now)) }
    {
        let pair = Pair {
            first: pattern(first)?,
            second: pattern(second)?,
        };
        pair.refusal(room)?;
        Ok(pair)
    }

    // 19 to 22, by the counts of both tables and the room for the merged one.
    #[tactic(auto, unfolding(crate::specs::Merge::pair_refusal, tables::specs::Table::pattern_range))]
    fn refusal(self, room: usize) -> Result<(), Refusal>
        ensures { refused result ≡ pair_refusal pattern_range self.entry.first.words.now self.entry.second.words.now room }
    {
        if self.first.letters() != self.second.letters() {
            return Err(Refusal::OtherLetters);
        }
        let states = self.first.states + self.second.states;
        if states > PATTERN_STATES {
            return Err(Refusal::MergedStates);
        }
        let records = self.first.records() + self.second.records();
        if records > PATTERN_RECORDS {
            return Err(Refusal::MergedRecords);
        }
        if room < table_words(states, records) {
            return Err(Refusal::MergedRoom);
        }
        Ok(())
    }

    // Lays out the merged table from the first word on, and answers where it ends; what lies behind it is left as it was.
    fn lay_merged(self, words: &mut [u16]) -> usize
        requires { pair_refusal pattern_range self.first.words.now self.second.words.now (length words.old) ≡ 0 }
        ensures end { result ≡ length (merged_words self.entry.first.words.now self.entry.second.words.now) }
        ensures inside { result ≤ length words.old }
        ensures laid { words.new ≡ overwritten (merged_words self.entry.first.words.now self.entry.second.words.now) words.old }
    {
        let records = self.first.records();
        write_counts(
            words,
            self.first.states + self.second.states,
            self.first.letters(),
            records + self.second.records(),
        );
        let before = Part {
            table: self.first,
            states_before: 0,
            records_before: 0,
        };
        let behind = Part {
            table: self.second,
            states_before: self.first.states,
            records_before: records,
        };
        // Each part begins where the one before it ends.
        let end = before.lay_states(words, 3);
        let end = behind.lay_states(words, end);
        let end = before.lay_records(words, end);
        behind.lay_records(words, end)
    }
}

// ONE OF THE TWO

// A pattern's table as a part of the merged one, behind so many states and records: its own are numbered on from those.
#[derive(Clone, Copy)]
struct Part<'a> {
    table: Table<'a>,
    states_before: usize,
    records_before: usize,
    ghost valid: { table_refusal pattern_range table.words.now ≡ 0 },
    ghost targets_fit: { states_before + table.states ≤ largest_word word_bits },
    ghost links_fit: { records_before + m_of table.words.now ≤ largest_word word_bits },
}

impl<'a> Part<'a> {
    // A link to one of its records, numbered on; zero ends a chain as before.
    #[tactic(auto, unfolding(crate::specs::Merged::link_on))]
    fn link_on(self, link: usize) -> u16
        requires { link ≤ m_of self.table.words.now }
        ensures { result ≡ link_on self.entry.records_before link }
    {
        if link == 0 {
            return 0;
        }
        (self.records_before + link) as u16
    }

    // States and records have a loop each: a bound on a closure that gives a row can't name how many words it has.

    // Lays out flags and head of each state from a place on, and answers where they end.
    fn lay_states(self, words: &mut [u16], at: usize) -> usize
        requires { at + 2 * self.table.states ≤ length words.old }
        ensures end { result ≡ at + 2 * self.entry.table.states }
        ensures laid { words.new ≡ sets words.old at
            (rows self.entry.table.states (state_row self.entry.records_before self.entry.table.words.now)) }
    {
        for state in 0..self.table.states {
            let place = at + 2 * state;
            words[place] = self.table.flags(state) as u16;
            words[place + 1] = self.link_on(self.table.head(state));
        }
        at + 2 * self.table.states
    }

    // Lays out letter, target and next of each record from a place on, and answers where they end.
    fn lay_records(self, words: &mut [u16], at: usize) -> usize
        requires { at + 3 * m_of self.table.words.now ≤ length words.old }
        ensures end { result ≡ at + 3 * m_of self.entry.table.words.now }
        ensures laid { words.new ≡ sets words.old at
            (rows (m_of self.entry.table.words.now)
            (record_row self.entry.states_before self.entry.records_before self.entry.table.words.now)) }
    {
        let records = self.table.records();
        for i in 0..records {
            let place = at + 3 * i;
            words[place] = self.table.letter(i + 1) as u16;
            words[place + 1] = (self.states_before + self.table.target(i + 1)) as u16;
            words[place + 2] = self.link_on(self.table.next(i + 1));
        }
        at + 3 * records
    }
}
