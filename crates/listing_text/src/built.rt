// Lines of what an accepted build left: a table's words, and its states' sets.
ghost use Rattle.std.specs.Prelude.{◌*◌, ◌<◌};
ghost use Rattle.basics.specs.Rows.{rows};
ghost use Rattle.tables.specs.Access.{Numbered};
ghost use Rattle.tables.specs.Table.{n_of, m_of};
ghost use Rattle.complement.specs.Build.{counted};
ghost use Rattle.decimal.specs.Lines.{HasRoom, Appended};
ghost use Rattle.listing_text.specs.Built.{IsSource, Stated, Sourced, Printable, PrintableAnswer, first_source, source_behind, built_state, built_edge, built_edges, built_text, printed};
ghost use Rattle.listing_text.specs.Listing.{most_states};
ghost use Rattle.listing_text.specs.Output.{state_bytes, edge_bytes, output_bytes};

use crate::lines::{put_counts, put_refused};
use basics::Refusal;
use complement::Size;
use decimal::Output;
use record_words::load;
use tables::Table;

// STATES

// A state: its number, N, C, S, B and flags.
fn put_state(table: Table, sets: &[u32], state: usize, output: &mut Output)
    requires stated { Stated sets.now table.states }
    requires state_lt_states { state < table.states }
    requires room { HasRoom output.old state_bytes }
    ensures { Appended output.old state_bytes (built_state table.entry.words.now sets.now state) output.new }
{
    let x = load(sets, state);
    let flags = table.flags(state);
    output.line(&[state as u32, x.N, x.C, x.S, x.B, flags as u32]);
}

fn put_states(table: Table, sets: &[u32], output: &mut Output)
    requires stated { Stated sets.now table.states }
    requires room { HasRoom output.old (state_bytes * table.states) }
    ensures { Appended output.old (state_bytes * table.entry.states)
        (rows table.entry.states (built_state table.entry.words.now sets.now)) output.new }
{
    for state in 0..table.states {
        put_state(table, sets, state, output);
    }
}

// EDGES

// The first state from one on that has a chain.
fn first_source(table: Table, from: usize) -> Option<usize>
    ensures { IsSource table.entry.words.now result (first_source table.entry.words.now from) }
{
    for state in from..table.states {
        if table.head(state) != 0 {
            return Some(state);
        }
    }
    None
}

// The source of the record behind one with this source: chains run through consecutive records.
fn source_behind(table: Table, source: usize, number: usize) -> Option<usize>
    requires numbered { Numbered table.words.now number }
    requires source_lt_states { source < table.states }
    ensures { IsSource table.entry.words.now result (source_behind table.entry.words.now source number) }
{
    if table.next(number) != 0 {
        return Some(source);
    }
    first_source(table, source + 1)
}

// An edge: its source, letter and target.
fn put_edge(table: Table, source: usize, number: usize, output: &mut Output)
    requires numbered { Numbered table.words.now number }
    requires source_lt_most_states { source < most_states }
    requires room { HasRoom output.old edge_bytes }
    ensures { Appended output.old edge_bytes (built_edge table.entry.words.now source number) output.new }
{
    let letter = table.letter(number);
    let target = table.target(number);
    output.line(&[source as u32, letter as u32, target as u32]);
}

// In record order: from record to record the source stays, or moves on to the next state that has edges. Each record has one.
fn put_edges(table: Table, output: &mut Output)
    requires sourced { Sourced table.words.now }
    requires room { HasRoom output.old (edge_bytes * m_of table.words.now) }
    ensures { let w = table.entry.words.now in
        Appended output.old (edge_bytes * m_of w) (built_edges w (m_of w)) output.new }
{
    let mut next = first_source(table, 0);
    for number in 1..=table.records() {
        let source = next.unwrap();
        put_edge(table, source, number, output);
        next = source_behind(table, source, number);
    }
}

// THE WHOLE TEXT

// Both counts, the states, and the edges.
fn put_accepted(table: Table, sets: &[u32], output: &mut Output)
    requires printable { Printable table.words.now sets.now }
    requires room { HasRoom output.old output_bytes }
    ensures { let w = table.entry.words.now in
        Appended output.old output_bytes (built_text (n_of w) (m_of w) w sets.now) output.new }
{
    put_counts(table.states as u32, table.records() as u32, output);
    put_states(table, sets, output);
    put_edges(table, output);
}

// A build's answer and what it left, or the refusal.
pub(crate) fn put_answer(
    answer: Result<Size, Refusal>,
    words: &[u16],
    sets: &[u32],
    output: &mut Output,
)
    requires printable_answer { PrintableAnswer (counted answer) words.now sets.now }
    requires room { HasRoom output.old output_bytes }
    ensures { Appended output.old output_bytes (printed (counted answer) words.now sets.now) output.new }
{
    match answer {
        Err(refusal) => put_refused(refusal, output),
        Ok(size) => {
            let table = Table {
                words,
                states: size.states as usize,
            };
            put_accepted(table, sets, output);
        }
    }
}
