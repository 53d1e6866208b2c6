// The calls for C as functions (the crate `tubochre_c` exports them), and one call that tries a lasso on a pattern and on its complement.
#![tactic(auto)]

ghost use Rattle.std.specs.Prelude.{◌≡◌};
ghost use Rattle.patterns.specs.Check.{checked};
ghost use Rattle.tables.specs.Table.{wide_range};
ghost use Rattle.complement.specs.Build.{lent, counted, BuildSays};
ghost use Rattle.lassos.specs.Decision.{decided};
ghost use Rattle.trays.specs.Answers.{TraySays};
ghost use Rattle.merge.specs.Merge.{MergeSays};
ghost use Rattle.tubochre.specs.Calls.{as_check_answer, as_answer, LassoAnswers};
ghost use Rattle.tubochre.specs.Trying.{UsedInside, DecidedBuilt, TrialSays};

use basics::{NO_PLACE, Place, Refusal, Written};
use complement::{Counts, Size};
use patterns::Checked;
use tables::table_words;

// What the check answers in numbers: 0 and no place where the pattern passes, or the refusal's number and its place.
#[repr(C)]
#[derive(Clone, Copy, PartialEq, Eq)]
pub struct CheckAnswer {
    pub number: u32,
    pub place: Place,
}

impl From<Checked> for CheckAnswer {
    ghost from_gives = { λ told answer. answer ≡ as_check_answer told };

    #[tactic(auto, unfolding(crate::specs::Calls::as_check_answer))]
    fn from(told: Checked) -> CheckAnswer {
        match told {
            Checked::Passed => CheckAnswer {
                number: 0,
                place: NO_PLACE,
            },
            Checked::Refused(number, place) => CheckAnswer { number, place },
        }
    }
}

// A lasso decision in numbers: 0 and 1 taken, 0 and 0 not taken, or the refusal's number and 0. Only `number` tells a refusal.
#[repr(C)]
#[derive(Clone, Copy, PartialEq, Eq)]
pub struct Answer {
    pub number: u32,
    pub taken: u32,
}

impl From<Result<bool, Refusal>> for Answer {
    ghost from_gives = { λ told answer. answer ≡ as_answer (decided told) };

    #[tactic(auto, unfolding(crate::specs::Calls::as_answer))]
    fn from(told: Result<bool, Refusal>) -> Answer {
        match told {
            Ok(taken) => Answer {
                number: 0,
                taken: u32::from(taken),
            },
            Err(refusal) => Answer {
                number: refusal.number(),
                taken: 0,
            },
        }
    }
}

// THE CALLS FOR C

// The pattern passes, or which of 2 to 10 refuses it, and where it forks.
pub fn tubochre_check(table: &[u16]) -> CheckAnswer
    ensures { result ≡ as_check_answer (checked table.now) }
{
    patterns::check_pattern(table).into()
}

// The complement of a pattern, in the lent words and sets.
pub fn tubochre_build(table: &[u16], words: &mut [u16], sets: &mut [u32]) -> Counts
    ensures { BuildSays wide_range table.now result (lent words.old sets.old) (lent words.new sets.new) }
{
    complement::build_complement(table, words, sets).into()
}

// Whether a table takes the word of a prefix and a loop.
pub fn tubochre_lasso(table: &[u16], prefix: &[u8], cycle: &[u8], work: &mut [u32]) -> Answer
    ensures { LassoAnswers wide_range table.now prefix.now cycle.now result work.old work.new }
{
    lassos::decide_lasso(table, prefix, cycle, work).into()
}

// A byte for each lasso of a list: whether a table takes it.
pub fn tubochre_tray(table: &[u16], list: &[u16], answers: &mut [u8], work: &mut [u32]) -> Written
    ensures { TraySays wide_range table.now list.now result answers.old answers.new work.old work.new }
{
    trays::decide_tray(table, list, answers, work).into()
}

// Two patterns made into one, in the lent words.
pub fn tubochre_merge(first: &[u16], second: &[u16], words: &mut [u16]) -> Written
    ensures { MergeSays first.now second.now result words.old words.new }
{
    merge::merge_patterns(first, second, words).into()
}

// A TRIAL

// What a trial answers: each call's own answer.
#[derive(Clone, Copy)]
pub struct Trial {
    pub checked: Checked,
    pub built: Result<Size, Refusal>,
    pub pattern: Result<bool, Refusal>,
    pub complement: Result<bool, Refusal>,
}

// Checks a pattern, builds its complement, and asks both for one lasso: the third demand in one call.
pub fn try_lasso(
    table: &[u16],
    words: &mut [u16],
    sets: &mut [u32],
    prefix: &[u8],
    cycle: &[u8],
    work: &mut [u32],
) -> Trial
    ensures { TrialSays table.now prefix.now cycle.now result (lent words.old sets.old) (lent words.new sets.new) work.old work.new }
{
    let checked = patterns::check_pattern(table);
    let built = complement::build_complement(table, words, sets);
    let pattern = lassos::decide_lasso(table, prefix, cycle, work);
    let complement = decide_built(words, built, prefix, cycle, work);
    Trial {
        checked,
        built,
        pattern,
        complement,
    }
}

// Decides on the used part of the words of a build; where it was refused there is no complement, and its refusal is handed on.
fn decide_built(
    words: &[u16],
    built: Result<Size, Refusal>,
    prefix: &[u8],
    cycle: &[u8],
    work: &mut [u32],
) -> Result<bool, Refusal>
    requires { UsedInside (counted built) words.now }
    ensures { DecidedBuilt (counted built) words.now prefix.now cycle.now (decided result) work.old work.new }
{
    let size = built?;
    let end = table_words(size.states as usize, size.edges as usize);
    lassos::decide_lasso(&words[..end], prefix, cycle, work)
}
