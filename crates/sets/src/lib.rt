// Sets of pattern states as 32-bit numbers: state q adds 2^q.

#![tactic(auto)]

ghost use Rattle.std.specs.Prelude.{◌≡◌, [], ◌^◌, length, get_or};
ghost use Rattle.sets.specs.Sets.{set_states, size, subsets, nth_subset, union, without};

// A set holds states 0 to 31.
pub const SET_STATES: usize = 32;

// A row of target sets has 16 letters.
pub const ROW_LETTERS: usize = 16;

// A table by state and by letter of target sets: an array of 32 arrays of 16 masks.
pub type TargetSets = [[u32; ROW_LETTERS]; SET_STATES];

// What is in a and not in b.
pub fn without(a: u32, b: u32) -> u32
    ensures { result ≡ without a b }
{
    a & !b
}

// The targets of a state on a letter, by a table of target sets. What lies beyond the table's states and letters has no target.
pub fn targets_of(moves: &TargetSets, state: usize, letter: usize) -> u32
    ensures { result ≡ get_or (get_or moves.now state []) letter 0 }
{
    moves
        .get(state)
        .and_then(|row| row.get(letter))
        .copied()
        .unwrap_or(0)
}

// The targets of the members of a set on a letter, by a table of target sets. The members are walked from the lowest one up.
// The table is lent: a function that indexes an array given by value first copies all of it.
pub fn targets(moves: &TargetSets, letter: usize, set: u32) -> u32
    ensures { result ≡ union set_states set (λ q. get_or (get_or moves.now q []) letter 0) }
{
    let mut left = set;
    let mut all: u32 = 0;
    while left != 0 {
        let state = u32::trailing_zeros(left) as usize;
        all |= targets_of(moves, state, letter);
        left &= left - 1;
    }
    all
}

// How many parts a set has: 2 to the count of its states. Where the set is the free targets of a step
// that nothing blocks, this is the number of successors.
pub fn choices(set: u32) -> u64
    ensures number { result ≡ 2 ^ size set_states set }
    ensures listed { result ≡ length (subsets set_states set) }
{
    1 << u32::count_ones(set)
}

// The part of a set that a choice names, by rising number; choices beyond the last begin anew.
// The lowest digit of the choice says whether the lowest member is taken, the next digit says it of the next member. Where no digit is
// left, no more members are taken.
pub fn nth_subset(set: u32, choice: u32) -> u32
    ensures { result ≡ nth_subset set choice }
{
    let mut members = set;
    let mut digits = choice;
    let mut part: u32 = 0;
    while members != 0 && digits != 0 {
        if digits % 2 == 1 {
            part += 1 << u32::trailing_zeros(members);
        }
        digits /= 2;
        members &= members - 1;
    }
    part
}
