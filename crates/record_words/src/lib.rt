// What is stored for a state of the complement: a record of words in a lent run of them (docs/RULES.md, "Numbering and result").
#![tactic(auto)]

ghost use Rattle.std.specs.Prelude.{◌≡◌, ◌<◌};
ghost use Rattle.record_words.specs.Record.{full_records, quadruple_at, with_quadruple};

use ncsb::Quadruple;

// How many words a record has: N, C, S and B.
pub const RECORD_WORDS: usize = 4;

// How many full records a run of words holds.
#[tactic(auto, unfolding(crate::specs::Record::full_records, crate::specs::Record::record_words))]
pub fn full_records(words: &[u32]) -> usize
    ensures { result ≡ full_records words.now }
{
    words.len() / RECORD_WORDS
}

// The quadruple of the record with a number.
#[tactic(auto, unfolding(crate::specs::Record::full_records, crate::specs::Record::record_words, crate::specs::Record::quadruple_at, ncsb::specs::Successors::quadruple))]
pub fn load(words: &[u32], number: usize) -> Quadruple
    requires { number < full_records words.now }
    ensures { result ≡ quadruple_at words.now number }
{
    let at = RECORD_WORDS * number;
    Quadruple {
        N: words[at],
        C: words[at + 1],
        S: words[at + 2],
        B: words[at + 3],
    }
}

// Lays a quadruple down as the record with a number.
#[tactic(auto, using(crate::proofs::Laws::stored), unfolding(crate::specs::Record::full_records, crate::specs::Record::record_words))]
pub fn store(words: &mut [u32], number: usize, x: Quadruple)
    requires { number < full_records words.old }
    ensures { words.new ≡ with_quadruple words.old number x }
{
    let at = RECORD_WORDS * number;
    words[at] = x.N;
    words[at + 1] = x.C;
    words[at + 2] = x.S;
    words[at + 3] = x.B;
}
