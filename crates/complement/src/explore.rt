// Exploring the complement: states by number in the records, and edges from word 3 on as letter, target and source.
ghost use Rattle.std.specs.Prelude.{◌≡◌, ◌≤◌, [], length, option_map};
ghost use Rattle.automata.specs.System.{an_edge, add_edge, add_all, by_letters};
ghost use Rattle.tables.specs.Table.{wide_range};
ghost use Rattle.ncsb.specs.Successors.{same, ncsb, successors, initials};
ghost use Rattle.record_words.specs.Record.{quadruple_at};
ghost use Rattle.complement.specs.Build.{lent};
ghost use Rattle.complement.specs.Records.{capacity};
ghost use Rattle.complement.specs.Found.{wide_quadruples, held, SameBuffers, EdgeAdded, Placed, Turns, StepAsks, ExpandAsks, array_moves, Begins, start_moves, Started, ExploreAsks, ExploredTo};

use crate::records;
use ncsb::{Quadruple, Shape};
use sets::TargetSets;
use tables::WIDE_RECORDS;

// How many states and edges have been found. They count places of lent memory; what the build answers, `Size`, fits numbers of C.
#[derive(Clone, Copy)]
pub(crate) struct Progress {
    pub states: usize,
    pub edges: usize,
}

// How many initial quadruples there are: the initial states of Q2 outside F are free to be safe or not.
pub(crate) fn initial_count(shape: Shape) -> usize
    ensures { result ≡ length (initials (start_moves shape)) }
{
    sets::choices(sets::without(shape.starts & shape.inner, shape.marks)) as usize
}

// Stores the initial quadruples, by rising choice, if there is room for them: answers how many. They all differ, so none has to be
// looked up.
fn store_initials(shape: Shape, sets: &mut [u32]) -> Option<usize>
    requires { Begins [] sets.old }
    ensures { Started wide_range shape sets.new result }
{
    let choices = initial_count(shape);
    if records::room(sets) < choices {
        return None;
    }
    for choice in 0..choices {
        let x = Quadruple::initial(shape, choice as u32);
        record_words::store(sets, choice, x);
    }
    Some(choices)
}

// The lent buffers and what has been found in them. A step that answers `None` has met more states than fit.
#[derive(Drop)]
struct Growth<'a> {
    words: &'a mut [u16],
    sets: &'a mut [u32],
    found: Progress,
}

impl Growth<'_> {
    // Keeps an edge behind the others, if there is room for it. Their count stops one above what a table can have: still a count, and no
    // sign that there is none, since 11 is decided over the whole complement before 12 (docs/DECISIONS.md, "Edge counts stop").
    #[tactic(auto, unfolding(crate::specs::Found::with_edge, crate::specs::Found::one_more, crate::specs::Found::counted_to, crate::specs::Found::edge_room, tables::specs::Table::wide_range))]
    fn keep_edge(&mut self, source: u16, letter: u16, target: u16)
        ensures same { SameBuffers self.old self.new }
        ensures added { EdgeAdded wide_range (an_edge source letter target) self.old self.new }
    {
        let edges = self.found.edges;
        if edges >= WIDE_RECORDS {
            self.found.edges = WIDE_RECORDS + 1;
            return;
        }
        self.found.edges = edges + 1;
        let at = 3 + 3 * edges;
        if at + 3 <= self.words.len() {
            self.words[at] = letter;
            self.words[at + 1] = target;
            self.words[at + 2] = source;
        }
    }

    // The number of a quadruple. One that was not met before gets the next number, and is stored, if there is room.
    #[tactic(auto, unfolding(crate::specs::Records::capacity))]
    fn place(&mut self, x: Quadruple) -> Option<usize>
        requires { self.old.found.states ≤ capacity wide_range self.old.sets.now }
        ensures same { SameBuffers self.old self.new }
        ensures words { self.new.words.now ≡ self.old.words.now }
        ensures placed { Placed wide_range x self.old self.new result }
    {
        // As one reference: of a field that is lent part by part a proof knows no more than the length.
        let sets = &mut *self.sets;
        let states = self.found.states;
        if let Some(number) = records::find(sets, states, x) {
            return Some(number);
        }
        if states >= records::room(sets) {
            return None;
        }
        record_words::store(sets, states, x);
        self.found.states = states + 1;
        Some(states)
    }

    // Meets a successor of a state on a letter: an edge leads to it.
    fn meet(&mut self, source: usize, letter: usize, x: Quadruple) -> Option<()>
        requires { StepAsks wide_quadruples self.old source letter }
        ensures { Turns wide_quadruples (add_edge same source letter x) self.old self.new result }
    {
        let target = self.place(x)?;
        self.keep_edge(source as u16, letter as u16, target as u16);
        Some(())
    }

    // Meets the successors of a state on one letter, by rising choice.
    fn add_successors(
        &mut self,
        masks: &TargetSets,
        shape: Shape,
        source: usize,
        x: Quadruple,
        letter: usize,
    ) -> Option<()>
        requires { StepAsks wide_quadruples self.old source letter }
        ensures { Turns wide_quadruples (add_all same source letter (successors (array_moves masks.now shape) x letter))
            self.old self.new result }
    {
        let asked = x.on_letter(masks, shape, letter);
        if x.blocked(masks, shape, letter, asked) {
            return Some(());
        }
        for choice in 0..asked.choices() {
            self.meet(source, letter, x.successor(asked, choice as u32))?;
        }
        Some(())
    }

    // The step from one state: all its edges, by rising letter. The masks come by value (docs/DECISIONS.md, "Forms"), beside the shape, and
    // are lent on, since a function that indexes an array which it was given by value copies all of it.
    fn step(&mut self, masks: TargetSets, shape: Shape, source: usize) -> Option<()>
        requires { ExpandAsks wide_quadruples self.old source shape.letters }
        ensures { Turns wide_quadruples (by_letters (ncsb (array_moves masks shape)) shape.letters source
            (quadruple_at self.old.sets.now source)) self.old self.new result }
    {
        let sets = &mut *self.sets;
        let x = record_words::load(sets, source);
        for letter in 0..shape.letters {
            self.add_successors(&masks, shape, source, x, letter)?;
        }
        Some(())
    }

    // Explores from the initial states on, in number order.
    fn explore(&mut self, masks: TargetSets, shape: Shape) -> Option<()>
        requires { ExploreAsks masks shape (held self.old) }
        ensures same { SameBuffers self.old self.new }
        ensures explored { ExploredTo wide_range masks shape (held self.new) (option_map (λ _. self.new.found) result) }
    {
        let states = store_initials(shape, self.sets)?;
        self.found = Progress { states, edges: 0 };
        let mut number = 0;
        // The bound grows as states are found, so no range has it.
        while number < self.found.states {
            self.step(masks, shape, number)?;
            number += 1;
        }
        Some(())
    }
}

// Explores the complement of a pattern in the lent buffers: how much was found, if all states fit.
pub(crate) fn explore(
    masks: TargetSets,
    shape: Shape,
    words: &mut [u16],
    sets: &mut [u32],
) -> Option<Progress>
    requires { ExploreAsks masks shape (lent words.old sets.old) }
    ensures { ExploredTo wide_range masks shape (lent words.new sets.new) result }
{
    let found = Progress {
        states: 0,
        edges: 0,
    };
    let mut growth = Growth { words, sets, found };
    growth.explore(masks, shape)?;
    Some(growth.found)
}
