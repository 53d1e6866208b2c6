// Section 3.2 of "Complementing Semi-Deterministic Büchi Automata" line by line: what has to hold if (N', C', S', B') is to follow
// x = (N, C, S, B) on a letter. Each of the six lines stands here under its number, in the paper's order. specs/Lines.antt defines what
// it computes, and `Step` (specs/Step.antt) says it by membership, both in this order and by the same names. Targets of N are d1 of N in
// Q1 and dt of N in Q2; targets of C, S and B are d2 of them.

ghost use Rattle.std.specs.Prelude.{◌≡◌};
ghost use Rattle.ncsb.specs.Array.{from_array};
ghost use Rattle.ncsb.specs.Lines.{reachable_N, reachable_CS, disjoint, safe_stays, not_leaving, no_dead_end, followed, breakpoint};

use crate::{Quadruple, Shape};
use sets::TargetSets;

// The reachable states on a letter: N', and C' and S' together; of these, what lines 3 and 4 are about.
#[derive(Clone, Copy)]
pub(crate) struct Traced {
    pub outer: u32,
    pub tracked: u32,
    pub safe: u32,
    pub staying: u32,
}

// 1. N' = d1(N) and C' ∪ S' = dt(N) ∪ d2(C ∪ S): the reachable states are traced. So that no state is followed twice, d2 of C and S is
// joined from three parts: of C in F, of C without F (line 4) and of S (line 3).
pub(crate) fn reachable(x: Quadruple, moves: &TargetSets, shape: Shape, letter: usize) -> Traced
    ensures N { result.outer ≡ reachable_N (from_array moves.now 0 shape.marks shape.inner) x letter }
    ensures CS { result.tracked ≡ reachable_CS (from_array moves.now 0 shape.marks shape.inner) x letter }
    ensures safe { result.safe ≡ safe_stays (from_array moves.now 0 shape.marks shape.inner) x letter }
    ensures staying { result.staying ≡ not_leaving (from_array moves.now 0 shape.marks shape.inner) x letter }
{
    let from_N = sets::targets(moves, letter, x.N);
    let leaving = sets::targets(moves, letter, x.C & shape.marks);
    let staying = not_leaving(x, moves, shape, letter);
    let safe = safe_stays(x, moves, letter);
    Traced {
        outer: sets::without(from_N, shape.inner),
        tracked: (from_N & shape.inner) | (leaving | staying | safe),
        safe,
        staying,
    }
}

// 2. C' ∩ S' = ∅: a run in Q2 is either safe, or not. So C' is what is tracked and not in S'.
pub(crate) fn disjoint(tracked: u32, safe: u32) -> u32
    ensures { result ≡ disjoint tracked safe }
{
    sets::without(tracked, safe)
}

// 3. S' ⊇ d2(S): safe runs must stay safe.
pub(crate) fn safe_stays(x: Quadruple, moves: &TargetSets, letter: usize) -> u32
    ensures { result ≡ safe_stays (from_array moves.now 0 0 0) x letter }
{
    sets::targets(moves, letter, x.S)
}

// 4. C' ⊇ d2(C \ F): only runs leaving an accepting state can become safe, so those not leaving one stay in C.
pub(crate) fn not_leaving(x: Quadruple, moves: &TargetSets, shape: Shape, letter: usize) -> u32
    ensures { result ≡ not_leaving (from_array moves.now 0 shape.marks 0) x letter }
{
    sets::targets(moves, letter, sets::without(x.C, shape.marks))
}

// 5. d2(q) ≠ ∅ for all q in C \ F: otherwise the run was safe already. The members are walked from the lowest one up.
pub(crate) fn no_dead_end(x: Quadruple, moves: &TargetSets, shape: Shape, letter: usize) -> bool
    ensures { result ≡ no_dead_end (from_array moves.now 0 shape.marks 0) x letter }
{
    let mut left = sets::without(x.C, shape.marks);
    while left != 0 {
        let state = u32::trailing_zeros(left) as usize;
        if sets::targets_of(moves, state, letter) == 0 {
            return false;
        }
        left &= left - 1;
    }
    true
}

// 6. B' = C' if B = ∅, and else B' = d2(B) ∩ C': the breakpoint, so that no run stays in C for ever. B is followed once for every C'.
pub(crate) fn followed(x: Quadruple, moves: &TargetSets, letter: usize) -> u32
    ensures { result ≡ followed (from_array moves.now 0 0 0) x letter }
{
    sets::targets(moves, letter, x.B)
}

pub(crate) fn breakpoint(x: Quadruple, followed: u32, rest: u32) -> u32
    ensures { result ≡ breakpoint x followed rest }
{
    if x.B == 0 { rest } else { followed & rest }
}
