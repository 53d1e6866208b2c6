// Trays of lassos: a list of words, in which each lasso is its prefix length, its loop length and its letters.
use crate::answers::{Amount, Row};
use crate::buffer::Buffer;
use crate::filling::put_row;
use crate::scan::{divided, numbers};
use std::io;
use trays::decide_tray;

// A number of work words, of answer bytes and of the list's words, then these words; zeros follow the last of them.
pub(crate) fn decide_many(rt: &impl Print, table: &[u16], text: &[u8]) -> io::Result<()> {
    let [work, bytes, count] = numbers::<3>(text);
    let mut list = Buffer::<u16, 4200>::new(0);
    put_row(&mut list, divided(text, b'\n').0, 3, 0);
    let mut answers = [7u8; 16];
    let mut words = [7u32; 512];
    let (Some(list), Some(bytes), Some(work)) = (
        list.first(count),
        answers.get_mut(..bytes),
        words.get_mut(..work),
    ) else {
        return Ok(());
    };
    let written = decide_tray(table, list, bytes, work);
    println!(rt; ": {}, bytes{}", Amount(written, "lassos"), Row(bytes))
}
