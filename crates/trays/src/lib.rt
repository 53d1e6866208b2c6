// A tray of lassos: one table is asked for each lasso of a list of words.
#![tactic(auto)]

ghost use Rattle.std.specs.Prelude.{◌≡◌, cond, map, ◌^◌, ◌<◌, ◌≤◌, length, IfOk};
ghost use Rattle.basics.specs.Buffers.{zeros};
ghost use Rattle.basics.specs.Words.{byte_bits};
ghost use Rattle.basics.specs.Refusals.{refused, written};
ghost use Rattle.automata.specs.Lasso.{all_below};
ghost use Rattle.tables.specs.Table.{wide_range};
ghost use Rattle.lassos.specs.Decision.{decided, decision};
ghost use Rattle.trays.specs.Answers.{list_refusal, as_byte, byte_of, TraySays};
ghost use Rattle.trays.specs.Tray.{tray};

use crate::list::{Lasso, Lassos};
use basics::{Refusal, fill};
use lassos::{PART_LETTERS, WideTable, decide_checked, lengths_refusal};

mod list;

// Decides on a table for each lasso of a list, and fills a byte for each: 1 taken, 0 not, or the refusal's number. Answers how many. The
// table is checked once, and the work words are cleared once, behind the last lasso: nothing is asked of them at entry, and they are all zero
// afterwards.
#[tactic(auto, unfolding(basics::specs::Buffers::zeros))]
pub fn decide_tray(
    table: &[u16],
    list: &[u16],
    answers: &mut [u8],
    work: &mut [u32],
) -> Result<usize, Refusal>
    ensures { TraySays wide_range table.now list.now (written result) answers.old answers.new work.old work.new }
{
    let written = fill_answers(table, list, answers, work);
    fill(work, 0);
    written
}

// Refuses by 17 and 18, then by 2 to 9, or decides each lasso. The work words are left as the searches leave them: it says what the call
// will say that clears them.
fn fill_answers(
    table: &[u16],
    list: &[u16],
    answers: &mut [u8],
    work: &mut [u32],
) -> Result<usize, Refusal>
    ensures { TraySays wide_range table.now list.now (written result) answers.old answers.new work.old (zeros work.old) }
{
    if let Err(of_list) = list_refusal(list, answers.len()) {
        fill(answers, 0);
        return Err(of_list);
    }
    let wide = match WideTable::check(table) {
        Ok(wide) => wide,
        Err(of_table) => {
            fill(answers, in_byte(Err(of_table)));
            return Err(of_table);
        }
    };
    decide_each(wide, list, answers, work);
    Ok(answers.len())
}

// Refusal 17 or 18 of a list and so many answer bytes.
fn list_refusal(list: &[u16], bytes: usize) -> Result<(), Refusal>
    ensures { refused result ≡ list_refusal list.now bytes }
{
    let mut lassos = Lassos { list };
    // Counted by hand: behind `by_ref().count()` no proof knows what is left of the list.
    let mut count = 0;
    while let Some(_) = lassos.next() {
        count += 1;
    }
    if !lassos.list.is_empty() {
        return Err(Refusal::List);
    }
    if count != bytes {
        return Err(Refusal::Answers);
    }
    Ok(())
}

// Decides each lasso of a list, where the list is not refused.
fn decide_each(wide: WideTable, list: &[u16], answers: &mut [u8], work: &mut [u32])
    requires { list_refusal list.now (length answers.old) ≡ 0 }
    ensures { answers.new ≡ map (byte_of wide_range wide.entry.table.words.now (length work.old)) (tray list.now).lassos }
{
    let mut room = Room {
        prefix: [0; PART_LETTERS],
        cycle: [0; PART_LETTERS],
    };
    let lassos = Lassos { list };
    for (i, lasso) in lassos.enumerate() {
        answers[i] = in_byte(decide_listed(wide, lasso, &mut room, work));
    }
}

// Room for the letters of one lasso as bytes, which the search reads.
#[derive(Drop)]
struct Room {
    prefix: [u8; PART_LETTERS],
    cycle: [u8; PART_LETTERS],
}

// Decides for one lasso of a list.
fn decide_listed(
    wide: WideTable,
    lasso: Lasso,
    room: &mut Room,
    work: &mut [u32],
) -> Result<bool, Refusal>
    ensures { decided result ≡ decision wide_range wide.entry.table.words.now lasso.entry.prefix.now lasso.entry.cycle.now (length work.old) }
{
    lengths_refusal(lasso.prefix.len(), lasso.cycle.len())?;
    let k = wide.table.letters();
    let prefix = copy_letters(lasso.prefix, k, &mut room.prefix)?;
    let cycle = copy_letters(lasso.cycle, k, &mut room.cycle)?;
    decide_checked(wide, prefix, cycle, work)
}

// Words as bytes, where all are letters below k; refuses by 15 a word that is none.
fn copy_letters<'a>(words: &[u16], k: usize, room: &'a mut [u8]) -> Result<&'a [u8], Refusal>
    requires long { length words.now ≤ length room.old }
    requires narrow { k < 2 ^ byte_bits }
    ensures refusal { refused result ≡ cond (all_below k words.now) 0 15 }
    ensures copied { IfOk result (λ letters. letters.now ≡ words.now) }
{
    for (i, word) in words.iter().enumerate() {
        let letter = *word as usize;
        if letter >= k {
            return Err(Refusal::WrongLetter);
        }
        room[i] = letter as u8;
    }
    Ok(&room[..words.len()])
}

// A decision as a byte: 1 taken, 0 not, or the refusal's number. No `From`, since neither type is of this crate.
#[tactic(auto, unfolding(crate::specs::Answers::as_byte))]
fn in_byte(decision: Result<bool, Refusal>) -> u8
    ensures { result ≡ as_byte (decided decision) }
{
    match decision {
        Ok(taken) => u8::from(taken),
        Err(refusal) => refusal.number() as u8,
    }
}
