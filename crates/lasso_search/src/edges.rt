// The edges of a node: those records of its state's chain that are on its letter. They lead to the states of the next position.
ghost use Rattle.std.specs.Prelude.{◌+◌, ◌≤◌, ◌<◌, length};
ghost use Rattle.tables.specs.Table.{m_of};
ghost use Rattle.lasso_search.specs.Width.{width_16};

use crate::colouring::{Colour, colour_of};
use crate::product::Product;

// Those edges of a node that are ahead, from record `at` on; zero ends a chain, as in the table. The position that they lead to begins at
// node `base`.
#[derive(Clone, Copy)]
pub(crate) struct Edges<'a> {
    pub(crate) product: Product<'a>,
    pub(crate) letter: usize,
    pub(crate) base: usize,
    pub(crate) at: usize,
    ghost fits: { base + product.table.states ≤ product.size },
    ghost number_to: { at ≤ m_of product.table.words.now },
}

impl<'a> Product<'a> {
    ghost use Rattle.lasso_search.specs.Walks.{EdgesOf, first_at};

    // The edges of a node from one of its records on.
    pub(crate) fn edges_from(self, node: usize, at: usize) -> Edges<'a>
        requires inside { node < self.size }
        requires number_to { at ≤ m_of self.table.words.now }
        ensures { EdgesOf self.entry node at result }
    {
        Edges {
            product: self,
            letter: self.letter(node),
            base: self.base(node),
            at,
        }
    }

    // All edges of a node.
    pub(crate) fn edges(self, node: usize) -> Edges<'a>
        requires { node < self.size }
        ensures { EdgesOf self.entry node (first_at self.entry node) result }
    {
        self.edges_from(node, self.table.head(node % self.table.states))
    }
}

// Their targets, one after the other.
impl Iterator for Edges<'_> {
    ghost use Rattle.std.specs.Prelude.{MatchOption};
    ghost use Rattle.std.specs.Iterator.{at_most};
    ghost use Rattle.lasso_search.specs.Walks.{NoneAhead, Stepped, records_ahead};

    type Item = usize;

    ghost next_gives = { λ s r t. MatchOption r (NoneAhead s) (λ x. Stepped s x t) };

    ghost remaining = { λ s. at_most (records_ahead s) };

    fn next(&mut self) -> Option<usize> {
        while self.at != 0 {
            let number = self.at;
            let table = self.product.table;
            self.at = table.next(number);
            if table.letter(number) == self.letter {
                return Some(self.base + table.target(number));
            }
        }
        None
    }
}

impl Edges<'_> {
    ghost use Rattle.lasso_search.specs.Walks.{NextWhite};

    // The first of the targets ahead that is white; what lies behind it is ahead then. By `find` it was tried: that its test may be called
    // on each target did not close.
    pub(crate) fn next_white(&mut self, work: &[u32]) -> Option<usize>
        requires { self.old.product.size ≤ length work.now }
        ensures { NextWhite width_16 work.now self.old self.new result }
    {
        while let Some(target) = self.next() {
            if colour_of(work, target) == Colour::White {
                return Some(target);
            }
        }
        None
    }
}
