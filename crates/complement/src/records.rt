// The records of the states found so far: the room for them, and looking a quadruple up among them.
ghost use Rattle.std.specs.Prelude.{◌≡◌, ◌≤◌, ◌<◌, unwrap_or, IfSome};
ghost use Rattle.tables.specs.Table.{wide_range};
ghost use Rattle.record_words.specs.Record.{full_records};
ghost use Rattle.complement.specs.Records.{capacity, looked_up};

use ncsb::Quadruple;
use tables::WIDE_STATES;

// How many states there is room for: the full records, but no more than a wide table can have.
#[tactic(auto, unfolding(crate::specs::Records::capacity, tables::specs::Table::wide_range))]
pub(crate) fn room(sets: &[u32]) -> usize
    ensures { result ≡ capacity wide_range sets.now }
{
    record_words::full_records(sets).min(WIDE_STATES)
}

// Looks a quadruple up among the first records: its place, if it is one of them.
#[tactic(auto, using(ncsb::proofs::Same::equals_same, automata::proofs::Members::number_missed), unfolding(crate::specs::Records::looked_up, record_words::specs::Record::records_of))]
pub(crate) fn find(sets: &[u32], count: usize, x: Quadruple) -> Option<usize>
    requires { count ≤ full_records sets.now }
    ensures number { unwrap_or result count ≡ looked_up sets.now count x }
    ensures inside { IfSome result (λ number. number < count) }
{
    for number in 0..count {
        if x == record_words::load(sets, number) {
            return Some(number);
        }
    }
    None
}
