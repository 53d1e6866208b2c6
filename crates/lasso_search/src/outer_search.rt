// The outer search: depth first through the product, from the initial states at the first position. Its stack lies in the lent work words,
// since no heap is used, and so its depth is handed on beside them.
ghost use Rattle.std.specs.Prelude.{◌≡◌};
ghost use Rattle.lasso_search.specs.Search.{entered, Search, InnerAsks};
ghost use Rattle.lasso_search.specs.Steps.{EnterAsks, TopAsks, Descended, Finished, Explored, TryAsks, TrySays, Searched};
ghost use Rattle.lasso_search.specs.Width.{width_16};

use crate::colouring::{Colour, colour_of, turn};
use crate::product::Product;

impl Product<'_> {
    ghost use Rattle.lasso_search.specs.Walks.{graph};

    // A white node turns grey and lies on the stack; its cursor stands at its first record.
    fn enter(self, work: &mut [u32], node: usize, first: usize, depth: usize)
        requires { EnterAsks width_16 work.old self.size node first depth }
        ensures { work.new ≡ entered width_16 self.entry.size work.old node first depth }
    {
        turn(work, node, Colour::White, Colour::Grey);
        work[self.size + depth] = node as u32;
        work[2 * self.size + depth] = first as u32;
    }

    // The next white target of the stack's top enters, and then the top's cursor moves on. Answers false where there is none.
    fn descend(self, work: &mut [u32], node: usize, depth: usize) -> bool
        requires { TopAsks width_16 (graph self) work.old node depth }
        ensures { Descended width_16 (graph self.entry) work.old work.new node depth result }
    {
        let cursor = 2 * self.size + (depth - 1);
        let mut edges = self.edges_from(node, work[cursor] as usize);
        let Some(target) = edges.next_white(work) else {
            return false;
        };
        let first = self.table.head(target - edges.base);
        self.enter(work, target, first, depth);
        work[cursor] = edges.at as u32;
        true
    }

    // A node whose targets are all visited is finished. Answers whether it accepts and closes a cycle.
    fn finish(self, work: &mut [u32], node: usize) -> bool
        requires { InnerAsks width_16 (graph self) node work.old }
        ensures { Finished width_16 (graph self.entry) node work.old work.new result }
    {
        if !self.accepts(node) {
            turn(work, node, Colour::Grey, Colour::Black);
            return false;
        }
        if self.meets_grey(work, node) {
            return true;
        }
        turn(work, node, Colour::Grey, Colour::Red);
        false
    }

    // Searches from the one node on the stack until the stack is empty. Answers whether an accepting node on a cycle was found.
    fn explore(self, work: &mut [u32]) -> bool
        requires { Search width_16 (graph self) work.old 1 }
        ensures { Explored width_16 (graph self.entry) work.old work.new result }
    {
        let mut depth: usize = 1;
        while depth > 0 {
            let top = depth - 1;
            let node = work[self.size + top] as usize;
            if self.descend(work, node, depth) {
                depth += 1;
            } else if self.finish(work, node) {
                return true;
            } else {
                depth = top;
            }
        }
        false
    }

    // Searches from one state at the first position, if it is initial and white.
    fn try_state(self, work: &mut [u32], state: usize) -> bool
        requires { TryAsks width_16 (graph self) work.old self.table.states state }
        ensures { TrySays width_16 (graph self.entry) work.old work.new state result }
    {
        if !self.starts(state) {
            return false;
        }
        if colour_of(work, state) != Colour::White {
            return false;
        }
        self.enter(work, state, self.table.head(state), 0);
        self.explore(work)
    }

    // Searches from all initial states. Answers whether an accepting node that is reached lies on a cycle.
    pub fn search(self, work: &mut [u32]) -> bool
        requires { Search width_16 (graph self) work.old 0 }
        ensures { Searched (graph self.entry) result }
    {
        for state in 0..self.table.states {
            if self.try_state(work, state) {
                return true;
            }
        }
        false
    }
}
