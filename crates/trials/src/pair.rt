// Two patterns made into one: they stand in one table of words, the second behind the first.
use crate::answers::{Amount, Row};
use crate::filling::Table;
use crate::scan::numbers;
use merge::merge_patterns;
use std::io;

// The number of the first pattern's words, that of the words lent, and the place from which on these are printed. Goes on with the
// merged pattern, or with the table as it was where that is refused.
pub(crate) fn join(rt: &impl Print, table: &mut Table, text: &[u8]) -> io::Result<()> {
    let [size, room, from] = numbers::<3>(text);
    let mut words = [7u16; 12300];
    let Some(words) = words.get_mut(..room) else {
        return Ok(());
    };
    let Some((first, second)) = table.as_slice().split_at_checked(size) else {
        return Ok(());
    };
    let written = merge_patterns(first, second, words);
    if let Some(lent) = words.get(from..) {
        println!(rt; ": {}, lent{}", Amount(written, "words"), Row(lent))?;
    }
    if let Ok(count) = written
        && let Some(merged) = words.get(..count)
    {
        table.clear();
        for word in merged {
            table.push(*word);
        }
    }
    Ok(())
}
