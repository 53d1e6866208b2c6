// The whole output of the listing program, from what was read of its input.
#![tactic(auto)]

ghost use Rattle.std.specs.Prelude.{◌≡◌};
ghost use Rattle.tables.specs.Table.{wide_range};
ghost use Rattle.complement.specs.Build.{build_refusal};
ghost use Rattle.decimal.specs.Lines.{HasRoom, Appended};
ghost use Rattle.decimal.specs.Reading.{Ready, ended, scan_of, stored};
ghost use Rattle.listing_text.specs.Listing.{listing_room, answered};
ghost use Rattle.listing_text.specs.Output.{output_bytes, text_of, Lists};

use basics::Refusal;
use complement::build_complement;
use decimal::{Output, Reading, State};
use record_words::RECORD_WORDS;
use tables::{PATTERN_RECORDS, PATTERN_STATES};

mod built;
mod lines;

// The listing's room: 1,024 states, each with a record, and 16,384 table words.
const STATES: usize = 1024;

const SETS_WORDS: usize = RECORD_WORDS * STATES;

const TABLE_WORDS: usize = 16384;

// The words of the largest pattern, which are the most numbers that are read.
pub const PATTERN_WORDS: usize = 3 + 2 * PATTERN_STATES + 3 * PATTERN_RECORDS;

// Enough for every listing.
pub const OUTPUT_BYTES: usize = 262144;

// The listing of a table: its complement, or the refusal.
fn list_table(table: &[u16], output: &mut Output)
    requires { HasRoom output.old output_bytes }
    ensures { Appended output.old output_bytes (answered (build_refusal wide_range table.now listing_room) table.now) output.new }
{
    let mut words = [0u16; TABLE_WORDS];
    let mut sets = [0u32; SETS_WORDS];
    let answer = build_complement(table, &mut words, &mut sets);
    built::put_answer(answer, &words, &sets, output);
}

// The listing of what was read. The input's end ends the last number.
fn list_read(reading: Reading, table: &mut [u16], output: &mut Output)
    requires ready { Ready reading table.old }
    requires room { HasRoom output.old output_bytes }
    ensures ended_table { table.new ≡ stored (ended (scan_of reading table.old)) table.old }
    ensures text { Appended output.old output_bytes (text_of (scan_of reading table.old)) output.new }
{
    let read = reading.ended(table);
    if read.state == State::Failed {
        return lines::put_refused(Refusal::Input, output);
    }
    list_table(&table[..read.count], output);
}

// Writes the listing of the input that was read into the table, and answers its length.
pub fn list(
    reading: Reading,
    table: &mut [u16; PATTERN_WORDS],
    output: &mut [u8; OUTPUT_BYTES],
) -> usize
    requires { Ready reading table.old }
    ensures { Lists reading table.old table.new output.old output.new result }
{
    let mut listing = Output::new(output);
    list_read(reading, table, &mut listing);
    listing.at
}
