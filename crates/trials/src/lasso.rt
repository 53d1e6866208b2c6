// Lassos written as text: the letters of the prefix, then those of the loop in brackets, each a digit to base 16. `+`, a number and
// a point stand for so many more of the letter before.
use crate::answers::Decided;
use crate::buffer::Buffer;
use crate::scan::{behind, decimal};
use lassos::decide_lasso;
use std::io;

// The letters that a text begins with.
fn letters_of(text: &[u8]) -> Buffer<u8, 4100> {
    let mut letters = Buffer::new(0);
    let mut letter = 0;
    let mut left = text;
    while let [byte, more @ ..] = left {
        match *byte {
            b'+' => {
                letters.push_times(letter, decimal(more));
                left = behind(more, b'.');
            }
            b'0'.. => {
                // The bytes of the digits `a` to `f` are 1 to 6 above 6 * 16.
                letter = *byte % 16 + *byte / 64 % 2 * 9;
                letters.push(letter);
                left = more;
            }
            _ => break,
        }
    }
    letters
}

// A number of work words, then a lasso.
pub(crate) fn decide(rt: &impl Print, table: &[u16], text: &[u8]) -> io::Result<()> {
    let lasso = behind(text, b' ');
    let prefix = letters_of(lasso);
    let cycle = letters_of(behind(lasso, b'('));
    let mut work = [7u32; 524280];
    let Some(work) = work.get_mut(..decimal(text)) else {
        return Ok(());
    };
    let decision = decide_lasso(table, prefix.as_slice(), cycle.as_slice(), work);
    println!(rt; ": {}", Decided(decision))
}
