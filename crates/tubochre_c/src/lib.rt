// The calls for C, by the names and with the contracts of the library's own.
#![tactic(auto)]

ghost use Rattle.std.specs.Prelude.{◌≡◌};
ghost use Rattle.patterns.specs.Check.{checked};
ghost use Rattle.tables.specs.Table.{wide_range};
ghost use Rattle.complement.specs.Build.{lent, BuildSays};
ghost use Rattle.trays.specs.Answers.{TraySays};
ghost use Rattle.merge.specs.Merge.{MergeSays};
ghost use Rattle.tubochre.specs.Calls.{as_check_answer, LassoAnswers};

use basics::Written;
use complement::Counts;
use tubochre::{Answer, CheckAnswer};

// The pattern passes, or which of 2 to 10 refuses it, and where it forks.
#[unsafe(no_mangle)]
pub extern "C" fn tubochre_check(table: &[u16]) -> CheckAnswer
    ensures { result ≡ as_check_answer (checked table.now) }
{
    tubochre::tubochre_check(table)
}

// The complement of a pattern, in the lent words and sets.
#[unsafe(no_mangle)]
pub extern "C" fn tubochre_build(table: &[u16], words: &mut [u16], sets: &mut [u32]) -> Counts
    ensures { BuildSays wide_range table.now result (lent words.old sets.old) (lent words.new sets.new) }
{
    tubochre::tubochre_build(table, words, sets)
}

// Whether a table takes the word of a prefix and a loop.
#[unsafe(no_mangle)]
pub extern "C" fn tubochre_lasso(
    table: &[u16],
    prefix: &[u8],
    cycle: &[u8],
    work: &mut [u32],
) -> Answer
    ensures { LassoAnswers wide_range table.now prefix.now cycle.now result work.old work.new }
{
    tubochre::tubochre_lasso(table, prefix, cycle, work)
}

// A byte for each lasso of a list: whether a table takes it.
#[unsafe(no_mangle)]
pub extern "C" fn tubochre_tray(
    table: &[u16],
    list: &[u16],
    answers: &mut [u8],
    work: &mut [u32],
) -> Written
    ensures { TraySays wide_range table.now list.now result answers.old answers.new work.old work.new }
{
    tubochre::tubochre_tray(table, list, answers, work)
}

// Two patterns made into one, in the lent words.
#[unsafe(no_mangle)]
pub extern "C" fn tubochre_merge(first: &[u16], second: &[u16], words: &mut [u16]) -> Written
    ensures { MergeSays first.now second.now result words.old words.new }
{
    tubochre::tubochre_merge(first, second, words)
}
