// The lasso decision: whether a table takes the word of a prefix and a loop.
#![tactic(auto)]

ghost use Rattle.std.specs.Prelude.{◌≡◌, length};
ghost use Rattle.basics.specs.Refusals.{refused};
ghost use Rattle.automata.specs.Decision.{takes?};
ghost use Rattle.automata.specs.Lasso.{all_below};
ghost use Rattle.tables.specs.Table.{wide_range, n_of, k_of, meaning};
ghost use Rattle.lassos.specs.Decision.{decided, decision, LassoSays, TakesAsks};
ghost use Rattle.lassos.specs.Refusals.{lengths_refusal, parts_refusal};

use basics::{Refusal, fill};
use lasso_search::{Product, WORD_COLOURS};

mod wide_table;

pub use wide_table::WideTable;

// The letters that a prefix may have, and a loop.
pub const PART_LETTERS: usize = 4096;

// Whether all letters of a part are below k.
fn letters_below(part: &[u8], k: usize) -> bool
    ensures { result ≡ all_below k part.now }
{
    part.iter().all(|letter| (*letter as usize) < k)
}

// Refusal 13 or 14, by how many letters the prefix and the loop have. No letter is looked at.
#[tactic(auto, unfolding(crate::specs::Refusals::lengths_refusal))]
pub fn lengths_refusal(prefix: usize, cycle: usize) -> Result<(), Refusal>
    ensures { refused result ≡ lengths_refusal prefix cycle }
{
    if cycle == 0 {
        return Err(Refusal::EmptyLoop);
    }
    if prefix > PART_LETTERS || cycle > PART_LETTERS {
        return Err(Refusal::LongPart);
    }
    Ok(())
}

// The first of refusals 13 to 16 that a lasso meets for a table and so many work words.
#[tactic(auto, using(basics::proofs::Refusals::first_met), unfolding(crate::specs::Refusals::parts_refusal, basics::specs::Buffers::or_else))]
fn parts_refusal(wide: WideTable, prefix: &[u8], cycle: &[u8], work: usize) -> Result<(), Refusal>
    ensures { refused result ≡ parts_refusal (n_of wide.entry.table.words.now) (k_of wide.entry.table.words.now) prefix.now cycle.now work }
{
    lengths_refusal(prefix.len(), cycle.len())?;
    let k = wide.table.letters();
    if !letters_below(prefix, k) || !letters_below(cycle, k) {
        return Err(Refusal::WrongLetter);
    }
    if work < 4 * wide.table.states * (prefix.len() + cycle.len()) {
        return Err(Refusal::Work);
    }
    Ok(())
}

// Whether a table takes a lasso, none of which is refused. The search asks for white nodes only, so nothing but their colours is cleared.
fn takes(wide: WideTable, prefix: &[u8], cycle: &[u8], work: &mut [u32]) -> bool
    requires { TakesAsks wide_range wide.table.words.now prefix.now cycle.now work.old }
    ensures { result ≡ takes? (meaning wide.entry.table.words.now) prefix.now cycle.now }
{
    let product = Product::new(wide.table.words, prefix, cycle);
    fill(&mut work[..product.size / WORD_COLOURS + 1], 0);
    product.search(work)
}

// Decides whether a table takes a lasso, where the table has passed its check already. A caller with many lassos for one table gets each
// answer from it after one check: nothing is asked of the work words, and nothing is said of what is left in them, so that one clearing behind the
// last lasso is enough.
pub fn decide_checked(
    wide: WideTable,
    prefix: &[u8],
    cycle: &[u8],
    work: &mut [u32],
) -> Result<bool, Refusal>
    ensures { decided result ≡ decision wide_range wide.entry.table.words.now prefix.now cycle.now (length work.old) }
{
    parts_refusal(wide, prefix, cycle, work.len())?;
    Ok(takes(wide, prefix, cycle, work))
}

// Decides whether a table takes a lasso. Nothing is asked of the work words at entry, and they are all zero afterwards.
#[tactic(auto, unfolding(basics::specs::Buffers::zeros))]
pub fn decide_lasso(
    table: &[u16],
    prefix: &[u8],
    cycle: &[u8],
    work: &mut [u32],
) -> Result<bool, Refusal>
    ensures { LassoSays wide_range table.now prefix.now cycle.now (decided result) work.old work.new }
{
    let decision = decide(table, prefix, cycle, work);
    fill(work, 0);
    decision
}

// Refuses the table by 2 to 9, or decides. The work words are left as the search leaves them.
fn decide(table: &[u16], prefix: &[u8], cycle: &[u8], work: &mut [u32]) -> Result<bool, Refusal>
    ensures { decided result ≡ decision wide_range table.now prefix.now cycle.now (length work.old) }
{
    decide_checked(WideTable::check(table)?, prefix, cycle, work)
}
