// The inner search: from a finished accepting node through black nodes, which turn red. Meeting a grey node closes a cycle. Red nodes that
// wait lie in the lent work words, since no heap is used, and so their count is handed on beside them.
ghost use Rattle.lasso_search.specs.Graph.{Arc};
ghost use Rattle.lasso_search.specs.Search.{SpreadSays, Waiting, Drained, InnerAsks, InnerSays};
ghost use Rattle.lasso_search.specs.Steps.{FollowAsks, FollowSays, SpreadAsks};
ghost use Rattle.lasso_search.specs.Width.{width_16};

use crate::colouring::{Colour, colour_of, turn};
use crate::product::Product;

impl Product<'_> {
    ghost use Rattle.lasso_search.specs.Walks.{graph};

    // Follows one edge: a black target turns red and waits. Answers how many nodes wait now, or none where the target is grey.
    fn follow(self, work: &mut [u32], target: usize, waiting: usize) -> Option<usize>
        requires { FollowAsks width_16 self.size work.old target waiting }
        ensures { FollowSays width_16 self.entry.size target work.old work.new waiting result }
    {
        match colour_of(work, target) {
            Colour::Grey => None,
            Colour::Black => {
                turn(work, target, Colour::Black, Colour::Red);
                work[3 * self.size + waiting] = target as u32;
                Some(waiting + 1)
            }
            Colour::White | Colour::Red => Some(waiting),
        }
    }

    // Follows all edges of a node, and answers likewise.
    fn spread(self, work: &mut [u32], node: usize, waiting: usize) -> Option<usize>
        requires { SpreadAsks width_16 (graph self) work.old node waiting }
        ensures { SpreadSays width_16 (graph self.entry).size (Arc (graph self.entry) node) work.old work.new waiting result }
    {
        let mut count = waiting;
        for target in self.edges(node) {
            count = self.follow(work, target, count)?;
        }
        Some(count)
    }

    // Takes the waiting nodes one after the other until none waits. Answers whether a grey node was met.
    fn drain(self, work: &mut [u32], waiting: usize) -> bool
        requires { Waiting width_16 (graph self) work.old waiting }
        ensures { Drained width_16 (graph self.entry) work.old work.new waiting result }
    {
        let mut count = waiting;
        while count > 0 {
            let last = count - 1;
            let node = work[3 * self.size + last] as usize;
            let Some(waits) = self.spread(work, node, last) else {
                return true;
            };
            count = waits;
        }
        false
    }

    // Whether some way from a node, over at least one edge, leads through black nodes to a grey one.
    pub(crate) fn meets_grey(self, work: &mut [u32], node: usize) -> bool
        requires { InnerAsks width_16 (graph self) node work.old }
        ensures { InnerSays width_16 (graph self.entry) node work.old work.new result }
    {
        match self.spread(work, node, 0) {
            Some(waiting) => self.drain(work, waiting),
            None => true,
        }
    }
}
