// Tables filled from lines of text. A word is written in decimal, or by the number of its row, from 0 on: `+` and a number is so many
// more than it, and `%` is 0 or 1, as it is even or odd.
use crate::buffer::Buffer;
use crate::scan::{behind, decimal};

// The words of the table that trials are about.
pub(crate) type Table = Buffer<u16, 327680>;

// The word that a part of a line stands for.
fn word_of(part: &[u8], row: usize) -> u16 {
    let word = match part {
        [b'+', more @ ..] => decimal(more) % 65536 + row % 65536,
        [b'%', ..] => row % 2,
        _ => decimal(part),
    };
    (word % 65536) as u16
}

// Adds a row: the words of a line, which blanks divide, without so many parts at its start.
pub(crate) fn put_row<const N: usize>(
    words: &mut Buffer<u16, N>,
    line: &[u8],
    before: usize,
    row: usize,
) {
    for part in line.split(|byte| *byte == b' ').skip(before) {
        words.push(word_of(part, row));
    }
}

// Adds rows: how many stands behind the first blank of a line, and their words behind the second.
pub(crate) fn put_rows(table: &mut Table, line: &[u8]) {
    for row in 0..decimal(behind(line, b' ')) {
        put_row(table, line, 2, row);
    }
}
