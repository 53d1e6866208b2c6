// The complement build: the reachable NCSB complement of a pattern, in lent buffers.
#![tactic(auto)]

ghost use Rattle.std.specs.Prelude.{◌≤◌, ◌≡◌};
ghost use Rattle.tables.specs.Table.{wide_range};
ghost use Rattle.complement.specs.Build.{lent, counted, too_long, BuildSays};
ghost use Rattle.complement.specs.Found.{OfPattern, BuiltFrom, Tried};

use basics::{NO_PLACE, Place, Refusal, fill};
use explore::Progress;
use layout::lay_out;
use ncsb::Shape;
use patterns::read_pattern;
use sets::{ROW_LETTERS, SET_STATES, TargetSets};
use tables::{WIDE_RECORDS, table_words};

mod explore;
mod flags;
mod records;

// How many states and edges the complement has.
#[derive(Clone, Copy, PartialEq, Eq)]
pub struct Size {
    pub states: u32,
    pub edges: u32,
}

// What the build answers C: the number of a refusal with its place, or zero with both counts.
#[repr(C)]
#[derive(Clone, Copy, PartialEq, Eq)]
pub struct Counts {
    pub number: u32,
    pub states: u32,
    pub edges: u32,
    pub place: Place,
}

impl From<Result<Size, Refusal>> for Counts {
    ghost from_gives = { λ built answer. answer ≡ counted built };

    fn from(built: Result<Size, Refusal>) -> Counts {
        match built {
            Ok(size) => Counts {
                number: 0,
                states: size.states,
                edges: size.edges,
                place: NO_PLACE,
            },
            Err(refusal) => Counts {
                number: refusal.number(),
                states: 0,
                edges: 0,
                place: refusal.place(),
            },
        }
    }
}

// More edges than a table can have, or more words than are lent.
#[tactic(auto, unfolding(tables::specs::Table::wide_range))]
fn too_long(words: usize, found: Progress) -> bool
    requires { found.states ≤ wide_range.states }
    ensures { result ≡ too_long wide_range words found.states found.edges }
{
    found.edges > WIDE_RECORDS || table_words(found.states, found.edges) > words
}

// Builds the complement of a pattern that was read: its table in the words, its quadruples in the sets.
fn build_pattern(
    masks: TargetSets,
    shape: Shape,
    words: &mut [u16],
    sets: &mut [u32],
) -> Result<Size, Refusal>
    requires { OfPattern masks shape }
    ensures { BuiltFrom wide_range masks shape result (lent words.old sets.old) (lent words.new sets.new) }
{
    fill(words, 0);
    fill(sets, 0);
    let Some(found) = explore::explore(masks, shape, words, sets) else {
        return Err(Refusal::Room);
    };
    if too_long(words.len(), found) {
        return Err(Refusal::Table);
    }
    lay_out(words, found.states, shape.letters, found.edges);
    flags::set_flags(words, sets, explore::initial_count(shape), found.states);
    Ok(Size {
        states: found.states as u32,
        edges: found.edges as u32,
    })
}

// Tries to build: the table is read once, and what the check reads of it is what is built from. A refused try may leave words behind.
#[tactic(auto, using(crate::proofs::Answers::refused_check, crate::proofs::Answers::of_reading))]
fn try_build(table: &[u16], words: &mut [u16], sets: &mut [u32]) -> Result<Size, Refusal>
    ensures { Tried wide_range table.now result (lent words.old sets.old) (lent words.new sets.new) }
{
    let mut masks = [[0u32; ROW_LETTERS]; SET_STATES];
    let shape = read_pattern(table, &mut masks)?;
    build_pattern(masks, shape, words, sets)
}

// Builds the reachable complement of a pattern in the lent buffers, and clears both where it is refused.
pub fn build_complement(table: &[u16], words: &mut [u16], sets: &mut [u32]) -> Result<Size, Refusal>
    ensures { BuildSays wide_range table.now (counted result) (lent words.old sets.old) (lent words.new sets.new) }
{
    let built = try_build(table, words, sets);
    if built.is_err() {
        fill(words, 0);
        fill(sets, 0);
    }
    built
}
