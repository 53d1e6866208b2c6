// A lent run of records, a quadruple each, and thin functions over it (docs/RULES.md, "Numbering and result"). Over plain words the same
// stands in `record_words`: both are asked for (docs/DECISIONS.md, "Forms").
#![tactic(auto)]

ghost use Rattle.std.specs.Prelude.{◌≡◌, ◌<◌, length, get_or, set, take};
ghost use Rattle.automata.specs.System.{number_of};
ghost use Rattle.ncsb.specs.Successors.{same};
ghost use Rattle.records.specs.Records.{blank, records_in, fitted};

use ncsb::Quadruple;
use record_words::full_records;

// What stands where no record is: four empty sets.
const BLANK: Quadruple = Quadruple {
    N: 0,
    C: 0,
    S: 0,
    B: 0,
};

// How many records are lent.
pub fn count(records: &[Quadruple]) -> usize
    ensures { result ≡ length records.now }
{
    records.len()
}

// The record with a number.
pub fn load(records: &[Quadruple], number: usize) -> Quadruple
    requires { number < length records.now }
    ensures { result ≡ get_or records.now number blank }
{
    records[number]
}

// Lays a quadruple down as the record with a number.
pub fn store(records: &mut [Quadruple], number: usize, x: Quadruple)
    requires { number < length records.old }
    ensures { records.new ≡ set records.old number x }
{
    records[number] = x;
}

// The record with a number of a run of words, and four empty sets where the words make no full record.
#[tactic(auto, using(crate::proofs::Words::record_read, crate::proofs::Words::record_blank))]
fn record_in(sets: &[u32], number: usize) -> Quadruple
    ensures { result ≡ get_or (records_in sets.now) number blank }
{
    if number < full_records(sets) {
        record_words::load(sets, number)
    } else {
        BLANK
    }
}

// Fills the lent records from the sets words of a build, and clears the rest.
#[tactic(auto, using(crate::proofs::Laid::laid_all))]
pub fn fill(records: &mut [Quadruple], sets: &[u32])
    ensures { records.new ≡ fitted (length records.old) (records_in sets.now) }
{
    for number in 0..records.len() {
        records[number] = record_in(sets, number);
    }
}

// The place of the first record that holds a quadruple, or their count, as states are numbered: one not met before gets the next number.
// So it is no `Option`: its callers would only put the count back.
pub fn find(records: &[Quadruple], x: Quadruple) -> usize
    ensures { result ≡ number_of same x records.now }
{
    records
        .iter()
        .position(|&y| x == y)
        .unwrap_or(records.len())
}

// Looks a quadruple up among the first four records of words: its place, or how many of them there are. What the words do not make is
// no record, so it is not searched. No `Option`, likewise.
pub fn find_in_words(sets: &[u32], x: Quadruple) -> usize
    ensures { result ≡ number_of same x (take 4 (records_in sets.now)) }
{
    let mut records = [BLANK; 4];
    fill(&mut records, sets);
    let held = full_records(sets).min(4);
    find(&records[..held], x)
}

// The call for C as a function (the crate `records_c` exports it): fills the lent records from the sets words of a build, and clears the rest.
pub fn tubochre_records(records: &mut [Quadruple], words: &[u32])
    ensures { records.new ≡ fitted (length records.old) (records_in words.now) }
{
    fill(records, words);
}
