// Parts and numbers of a text.
ghost use Rattle.std.specs.Prelude.{◌-◌, ◌≤◌, length};

// A text divided behind the next such byte; without one, all of the text and nothing.
pub(crate) fn divided(text: &[u8], byte: u8) -> (&[u8], &[u8])
    ensures front { length result.0.now ≤ length text.now }
    ensures back { length result.1.now ≤ length text.now - 1 }
{
    match text.iter().position(|other| *other == byte) {
        Some(place) => text.split_at(place + 1),
        None => (text, &[]),
    }
}

// What stands behind the next such byte, or nothing.
pub(crate) fn behind(text: &[u8], byte: u8) -> &[u8]
    ensures { length result.now ≤ length text.now - 1 }
{
    divided(text, byte).1
}

// The decimal number that a text begins with, of at most six digits. No byte that may follow it is as large as a digit.
pub(crate) fn decimal(text: &[u8]) -> usize {
    let digits = text.iter().take_while(|byte| **byte >= b'0');
    digits.fold(0, |value, digit| {
        value % 100000 * 10 + (*digit % 16) as usize
    })
}

// The first numbers of a text, between which blanks stand. One that is not there is zero.
pub(crate) fn numbers<const N: usize>(text: &[u8]) -> [usize; N] {
    let mut numbers = [0; N];
    for (number, part) in numbers.iter_mut().zip(text.split(|byte| *byte == b' ')) {
        *number = decimal(part);
    }
    numbers
}
