// The complement's states: quadruples (N, C, S, B) of sets of pattern states, and their step (docs/RULES.md, "The quadruple and its step").
#![tactic(auto)]

ghost use Rattle.std.specs.Prelude.{◌≡◌, [], ◌^◌};
ghost use Rattle.sets.specs.Sets.{set_states, size};
ghost use Rattle.ncsb.specs.Array.{from_array, nth_initial, nth_successor};
ghost use Rattle.ncsb.specs.Successors.{accepting, asks, blocked_by};

use sets::TargetSets;

mod lines;

// What the step reads of a pattern beside the table of target sets: how many states and letters there are, and I, F in Q2 (the marks)
// and Q2, each as a set of states.
#[derive(Clone, Copy)]
pub struct Shape {
    pub states: usize,
    pub letters: usize,
    pub starts: u32,
    pub marks: u32,
    pub inner: u32,
}

// Four sets of pattern states: N tracks Q1, C the runs that may still accept, S the safe ones, B those of C since the last breakpoint.
#[repr(C)]
#[derive(Clone, Copy, PartialEq, Eq)]
pub struct Quadruple {
    pub N: u32,
    pub C: u32,
    pub S: u32,
    pub B: u32,
}

// What the lines of section 3.2 ask of all that follows a quadruple on a letter, worked out once for all choices.
#[derive(Clone, Copy)]
pub struct Asked {
    // 1. N', which is d1 of N
    pub outer: u32,
    // 1. C' and S' together, which are dt of N joined with d2 of C and S
    pub tracked: u32,
    // 3. d2 of S, which S' contains
    pub safe: u32,
    // 4. d2 of C without F, which C' contains
    pub staying: u32,
    // what these leave free: the targets that may go to C' or to S'
    pub free: u32,
    // 6. d2 of B, which B' is cut from unless B is empty
    pub followed: u32,
}

impl Quadruple {
    // The initial quadruple for a choice: N is I in Q1, C and S part I in Q2 between them, S has nothing of F, B equals C.
    pub fn initial(shape: Shape, choice: u32) -> Quadruple
        ensures { result ≡ nth_initial (from_array [] shape.starts shape.marks shape.inner) choice }
    {
        let split = shape.starts & shape.inner;
        let safe = sets::nth_subset(sets::without(split, shape.marks), choice);
        let rest = sets::without(split, safe);
        Quadruple {
            N: sets::without(shape.starts, shape.inner),
            C: rest,
            S: safe,
            B: rest,
        }
    }

    // B is empty: a breakpoint.
    #[tactic(auto, unfolding(crate::specs::Successors::accepting))]
    pub fn accepting(self) -> bool
        ensures { result ≡ accepting self }
    {
        self.B == 0
    }

    // What the letter asks, by lines 1, 3 and 4, and how line 6 follows B. They leave free what is tracked, and neither in F, nor in d2 of
    // S, nor in d2 of C without F: these targets come from dt of N or d2 of C in F.
    pub fn on_letter(self, moves: &TargetSets, shape: Shape, letter: usize) -> Asked
        ensures { result ≡ asks (from_array moves.now 0 shape.marks shape.inner) self letter }
    {
        let reachable = lines::reachable(self, moves, shape, letter);
        let bound = shape.marks | (reachable.safe | reachable.staying);
        Asked {
            outer: reachable.outer,
            tracked: reachable.tracked,
            safe: reachable.safe,
            staying: reachable.staying,
            free: sets::without(reachable.tracked, bound),
            followed: lines::followed(self, moves, letter),
        }
    }

    // No quadruple follows: what has to be safe by line 3 lies in F, or has to stay in C by line 4, and line 2 lets no run be both; or
    // line 5 does not hold.
    #[tactic(auto, unfolding(crate::specs::Successors::blocked_by, crate::specs::Array::from_array))]
    pub fn blocked(self, moves: &TargetSets, shape: Shape, letter: usize, asked: Asked) -> bool
        ensures { result ≡ blocked_by (from_array moves.now 0 shape.marks 0) self letter asked }
    {
        if asked.safe & shape.marks != 0 {
            return true;
        }
        if asked.safe & asked.staying != 0 {
            return true;
        }
        !lines::no_dead_end(self, moves, shape, letter)
    }

    // The successor for a choice of the free targets that become safe: S' is d2 of S and the choice, and lines 2 and 6 give C' and B'.
    pub fn successor(self, asked: Asked, choice: u32) -> Quadruple
        ensures { result ≡ nth_successor self asked choice }
    {
        let safe = asked.safe | sets::nth_subset(asked.free, choice);
        let rest = lines::disjoint(asked.tracked, safe);
        Quadruple {
            N: asked.outer,
            C: rest,
            S: safe,
            B: lines::breakpoint(self, asked.followed, rest),
        }
    }
}

impl Asked {
    // Where nothing blocks, the number of successors is 2 to the count of free targets.
    pub fn choices(self) -> u64
        ensures { result ≡ 2 ^ size set_states self.free }
    {
        sets::choices(self.free)
    }
}
