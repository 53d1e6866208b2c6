// The chained table of docs/RULES.md, "The chained table": a lent slice of 16-bit words.
#![tactic(auto)]

ghost use Rattle.std.specs.Prelude.{◌≡◌, ◌+◌, IfOk, ◌^◌, ◌≤◌, ◌<◌, get_or, length};
ghost use Rattle.basics.specs.Refusals.{refused};
ghost use Rattle.basics.specs.Words.{word_bits};
ghost use Rattle.tables.specs.Access.{Word, Sized, Numbered, limits};
ghost use Rattle.tables.specs.Marks.{mark_words, MarkAsks, Mark, HeadsNamed, NextsNamed};
ghost use Rattle.tables.specs.Table.{table_words, n_of, k_of, m_of, flags_of, head_of, letter_of, target_of, next_of, record_at, sizes_refusal, flags_good, records_good, leads_on, chains_good, table_refusal};

use basics::Refusal;

// THE LIMITS of tables (docs/RULES.md, "The chained table").

// The largest 16-bit word.
const WORD_MOST: usize = u16::MAX as usize;

// The letters that any table may have.
const LETTERS: usize = 16;

// A pattern's states and records.
pub const PATTERN_STATES: usize = 32;

pub const PATTERN_RECORDS: usize = 4096;

// A wide table's states and records.
pub const WIDE_STATES: usize = WORD_MOST;

pub const WIDE_RECORDS: usize = WORD_MOST;

// The bits of a word of marks, and the words that hold a bit for each record.
const MARK_BITS: usize = 32;

const MARK_WORDS: usize = (WORD_MOST + 1) / MARK_BITS;

// How many words a table of so many states and records has.
pub fn table_words(states: usize, records: usize) -> usize
    requires { (states < 2 ^ 32) × (records < 2 ^ 32) }
    ensures { result ≡ table_words states records }
{
    3 + 2 * states + 3 * records
}

// READING WORDS. Every reading answers a number wide enough to index with.

// A word of the table; zero past its end.
pub fn word(table: &[u16], i: usize) -> usize
    ensures { Word word_bits result (get_or table.now i 0) }
{
    if i < table.len() {
        table[i] as usize
    } else {
        0
    }
}

// A word that is there.
fn word_at(words: &[u16], i: usize) -> usize
    requires { i < length words.now }
    ensures { Word word_bits result (get_or words.now i 0) }
{
    words[i] as usize
}

// The first three words differ only in their place, and so do the words of a state and of a record below: each has a function of its own
// all the same, since the rules give each its name and its meaning, and a place as a parameter would say less.

// n: how many states the table has.
pub fn states_of(table: &[u16]) -> usize
    ensures { Word word_bits result (n_of table.now) }
{
    word(table, 0)
}

// k: how many letters.
pub fn letters_of(table: &[u16]) -> usize
    ensures { Word word_bits result (k_of table.now) }
{
    word(table, 1)
}

// m: how many records.
pub fn records_of(table: &[u16]) -> usize
    ensures { Word word_bits result (m_of table.now) }
{
    word(table, 2)
}

// A TABLE whose words are all there: as many as its counts ask for. Its states are counted once, and whoever reads it need not
// ask again where its words end.
#[derive(Clone, Copy)]
pub struct Table<'a> {
    pub words: &'a [u16],
    pub states: usize,
    ghost counted: { states ≡ n_of words.now },
    ghost sized: { Sized words.now },
}

impl<'a> Table<'a> {
    // k: how many letters.
    pub fn letters(self) -> usize
        ensures { Word word_bits result (k_of self.entry.words.now) }
    {
        letters_of(self.words)
    }

    // m: how many records.
    pub fn records(self) -> usize
        ensures { Word word_bits result (m_of self.entry.words.now) }
    {
        records_of(self.words)
    }

    // The flags of a state: 1 initial, 2 accepting, 3 both.
    pub fn flags(self, state: usize) -> usize
        requires { state < self.states }
        ensures { Word word_bits result (flags_of self.entry.words.now state) }
    {
        word_at(self.words, 3 + 2 * state)
    }

    // The first record of a state's chain; zero where it has none.
    pub fn head(self, state: usize) -> usize
        requires { state < self.states }
        ensures { Word word_bits result (head_of self.entry.words.now state) }
    {
        word_at(self.words, 4 + 2 * state)
    }

    // Where the three words of a record begin.
    fn place(self, number: usize) -> usize
        requires { Numbered self.words.now number }
        ensures { (result ≡ record_at self.entry.words.now number) × (result + 2 < length self.entry.words.now) }
    {
        3 + 2 * self.states + 3 * (number - 1)
    }

    // The letter of a record.
    pub fn letter(self, number: usize) -> usize
        requires { Numbered self.words.now number }
        ensures { Word word_bits result (letter_of self.entry.words.now number) }
    {
        word_at(self.words, self.place(number))
    }

    // The state that a record's edge leads to.
    pub fn target(self, number: usize) -> usize
        requires { Numbered self.words.now number }
        ensures { Word word_bits result (target_of self.entry.words.now number) }
    {
        word_at(self.words, self.place(number) + 1)
    }

    // The record after this one in its chain; zero ends the chain.
    pub fn next(self, number: usize) -> usize
        requires { Numbered self.words.now number }
        ensures { Word word_bits result (next_of self.entry.words.now number) }
    {
        word_at(self.words, self.place(number) + 2)
    }
}

// REFUSALS 2 TO 9. Each check is one pass over the table.

// A next of record `number`, with m records in all: zero ends the chain, and a link leads forward.
fn next_good(next: usize, number: usize, m: usize) -> bool
    ensures { result ≡ leads_on m number next }
{
    next <= m && (next == 0 || number < next)
}

// Marks the record that a link names, and answers how many that are: one, and none for zero; or nothing where it was marked already.
// Records that follow each other have their bits in different words, so that no store waits for the one before it.
fn mark(seen: &mut [u32], link: usize) -> Option<usize>
    requires { MarkAsks mark_words link seen.old }
    ensures { Mark mark_words link seen.old seen.new result }
{
    if link == 0 {
        return Some(0);
    }
    let word = seen[link % MARK_WORDS];
    if (word >> (link / MARK_WORDS)) % 2 != 0 {
        return None;
    }
    seen[link % MARK_WORDS] = word + (1 << (link / MARK_WORDS));
    Some(1)
}

impl<'a> Table<'a> {
    // 7: every flags word is at most 3.
    fn flags_good(self) -> bool
        ensures { result ≡ flags_good self.entry.words.now }
    {
        for q in 0..self.states {
            if self.flags(q) > 3 {
                return false;
            }
        }
        true
    }

    // 8: every record's letter and target are in range.
    fn records_good(self) -> bool
        ensures { result ≡ records_good self.entry.words.now }
    {
        let k = self.letters();
        for i in 0..self.records() {
            if self.letter(i + 1) >= k || self.target(i + 1) >= self.states {
                return false;
            }
        }
        true
    }

    // 9, heads: each is zero or the number of a record. Answers how many records they name, or nothing where one is past the last record
    // or names a record a second time.
    fn name_heads(self, seen: &mut [u32]) -> Option<usize>
        requires { mark_words ≤ length seen.old }
        ensures { HeadsNamed mark_words self.entry.words.now seen.old seen.new result }
    {
        let m = self.records();
        let mut names = 0;
        for q in 0..self.states {
            let head = self.head(q);
            if head > m {
                return None;
            }
            names += mark(seen, head)?;
        }
        Some(names)
    }

    // 9, nexts: each is zero or the number of a later record. Answers as for the heads.
    fn name_nexts(self, seen: &mut [u32]) -> Option<usize>
        requires { mark_words ≤ length seen.old }
        ensures { NextsNamed mark_words self.entry.words.now seen.old seen.new result }
    {
        let m = self.records();
        let mut names = 0;
        for i in 0..m {
            let next = self.next(i + 1);
            if !next_good(next, i + 1, m) {
                return None;
            }
            names += mark(seen, next)?;
        }
        Some(names)
    }

    // 9: links in range and forward, each record named exactly once. A bit for each record says whether it was named already: where none
    // is named twice and m are named, all are. So one pass over the links is enough.
    fn chains_good(self) -> bool
        ensures { result ≡ chains_good self.entry.words.now }
    {
        let mut seen = [0u32; MARK_WORDS];
        let Some(heads) = self.name_heads(&mut seen) else {
            return false;
        };
        let Some(nexts) = self.name_nexts(&mut seen) else {
            return false;
        };
        heads + nexts == self.records()
    }

    // The table of these words, or the first of refusals 2 to 6 that they meet: those look at the length and the first three words.
    fn sized(words: &'a [u16], states: usize, records: usize) -> Result<Table<'a>, Refusal>
        ensures refusal { refused result ≡ sizes_refusal (limits states records) words.now }
        ensures table { IfOk result (λ t. t.words ≡ words.entry) }
    {
        if words.len() < 3 {
            return Err(Refusal::Short);
        }
        let n = states_of(words);
        if n < 1 || n > states {
            return Err(Refusal::States);
        }
        let k = letters_of(words);
        if k < 1 || k > LETTERS {
            return Err(Refusal::Letters);
        }
        let m = records_of(words);
        if m > records {
            return Err(Refusal::Records);
        }
        if words.len() != table_words(n, m) {
            return Err(Refusal::Length);
        }
        Ok(Table { words, states: n })
    }

    // The table of these words, or the first of refusals 2 to 9 that they meet in the range of 1 to `states` states and 0 to `records`
    // records.
    #[tactic(auto, using(basics::proofs::Refusals::first_met), unfolding(crate::specs::Table::table_refusal, basics::specs::Buffers::or_else))]
    pub fn checked(words: &'a [u16], states: usize, records: usize) -> Result<Table<'a>, Refusal>
        ensures refusal { refused result ≡ table_refusal (limits states records) words.now }
        ensures table { IfOk result (λ t. t.words ≡ words.entry) }
    {
        let table = Table::sized(words, states, records)?;
        if !table.flags_good() {
            return Err(Refusal::Flags);
        }
        if !table.records_good() {
            return Err(Refusal::Edges);
        }
        if !table.chains_good() {
            return Err(Refusal::Chains);
        }
        Ok(table)
    }
}

// The first of refusals 2 to 9 that the words meet, if any, in the range of 1 to `states` states and 0 to `records` records.
pub fn table_refusal(table: &[u16], states: usize, records: usize) -> Result<(), Refusal>
    ensures { refused result ≡ table_refusal (limits states records) table.now }
{
    Table::checked(table, states, records)?;
    Ok(())
}
