// A small reader laid over a chained table: the caller's words and the number of a record (docs/RULES.md, "The chained table").
// Every function answers on every slice: damaged links lead to the end.
#![tactic(auto)]

ghost use Rattle.std.specs.Prelude.{◌≡◌, ◌*◌, ◌≤◌, IfSome};
ghost use Rattle.basics.specs.Words.{word_bits, largest_word};
ghost use Rattle.reader.specs.Chain.{record_place, item_at, record_after, head_record, records_in_chain};

use tables::{records_of, states_of, word};

// An edge as its record gives it; its source is the state in whose chain the record stands.
#[derive(Clone, Copy, PartialEq, Eq)]
pub struct Edge {
    pub letter: usize,
    pub target: usize,
}

// A place in a state's chain. The number is a link of the table: zero, and any number past the last record, is the end.
#[derive(Clone, Copy)]
pub struct Reader<'a> {
    pub table: &'a [u16],
    pub number: usize,
}

impl<'a> Reader<'a> {
    // A reader at the head of a state's chain; at the end where the state has no edge, or where there is no such state.
    #[tactic(auto, unfolding(crate::specs::Chain::head_record, tables::specs::Table::head_of))]
    pub fn new(table: &'a [u16], state: usize) -> Reader<'a>
        ensures { (result.table ≡ table.entry) × (result.number ≡ head_record table.now state) }
    {
        let number = if state < states_of(table) {
            word(table, 4 + 2 * state)
        } else {
            0
        };
        Reader { table, number }
    }

    // Where the words of the record begin. They may lie past the end of the slice: so they are read as words, which are zero there.
    #[tactic(auto, unfolding(crate::specs::Chain::is_record, tables::specs::Table::record_at))]
    fn place(self) -> Option<usize>
        ensures at { result ≡ record_place self.entry.table.now self.entry.number }
        ensures small { IfSome result (λ p. p ≤ 5 * largest_word word_bits) }
    {
        if self.number < 1 || self.number > records_of(self.table) {
            return None;
        }
        Some(3 + 2 * states_of(self.table) + 3 * (self.number - 1))
    }

    // The edge at which the reader stands; none at the end.
    #[tactic(auto, unfolding(crate::specs::Chain::item_at, tables::specs::Table::letter_of, tables::specs::Table::target_of))]
    pub fn edge(self) -> Option<Edge>
        ensures { result ≡ item_at self.entry.table.now self.entry.number }
    {
        let place = self.place()?;
        Some(Edge {
            letter: word(self.table, place),
            target: word(self.table, place + 1),
        })
    }

    // The step to the next edge: the same words, and the record that follows. It is asked to be one thin step, so it is no `Iterator`, which
    // on damaged links would need a bound on its turns besides.
    #[tactic(auto, unfolding(crate::specs::Chain::record_after, tables::specs::Table::next_of))]
    pub fn next(self) -> Reader<'a>
        ensures { (result.table ≡ self.entry.table)
            × (result.number ≡ record_after self.entry.table.now self.entry.number) }
    {
        let number = match self.place() {
            Some(place) => word(self.table, place + 2),
            None => 0,
        };
        Reader {
            table: self.table,
            number,
        }
    }
}

// How many records stand in a state's chain: an edge that records repeat is counted as often as they do. Where damaged links lead
// round, the count is that of all records.
pub fn count_records(table: &[u16], state: usize) -> usize
    ensures { result ≡ records_in_chain table.now state }
{
    let turns = records_of(table);
    let mut reader = Reader::new(table, state);
    for count in 0..turns {
        if reader.edge().is_none() {
            return count;
        }
        reader = reader.next();
    }
    turns
}
