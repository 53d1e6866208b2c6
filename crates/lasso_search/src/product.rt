// The product of a table's states with a lasso's positions. Its nodes are position · states + state, where a position is a place of the
// prefix or of the loop.
ghost use Rattle.std.specs.Prelude.{◌≡◌, ◌*◌, ◌≤◌, ◌<◌, length};
ghost use Rattle.automata.specs.Lasso.{positions};
ghost use Rattle.tables.specs.Table.{wide_range, n_of, table_refusal};
ghost use Rattle.lasso_search.specs.Steps.{Given};
ghost use Rattle.lasso_search.specs.Width.{width_16, Few};

use tables::{Table, states_of};

// A table and a lasso that were not refused, with the count of nodes.
#[derive(Clone, Copy)]
pub struct Product<'a> {
    pub table: Table<'a>,
    pub prefix: &'a [u8],
    pub cycle: &'a [u8],
    pub size: usize,
    ghost some: { 1 ≤ table.states },
    pub ghost given: { Given width_16 table.words.now prefix.now cycle.now table.states size },
}

impl<'a> Product<'a> {
    // The product of a table that passed its check with a lasso; four blocks of its nodes can be counted through in a work word. The table's
    // words are taken, and its states counted here: the compiler knows that count to be small then, and divides nodes by it faster. With a
    // Table taken as it is, a decision executes 3 percent more instructions.
    pub fn new(table: &'a [u16], prefix: &'a [u8], cycle: &'a [u8]) -> Product<'a>
        requires valid { table_refusal wide_range table.now ≡ 0 }
        requires endless { 1 ≤ length cycle.now }
        requires small { Few width_16.work_bits (positions prefix.now cycle.now * n_of table.now) }
        ensures table { result.table.words ≡ table.entry }
        ensures prefix { result.prefix ≡ prefix.entry }
        ensures cycle { result.cycle ≡ cycle.entry }
    {
        let table = Table {
            words: table,
            states: states_of(table),
        };
        Product {
            table,
            prefix,
            cycle,
            size: (prefix.len() + cycle.len()) * table.states,
        }
    }
}

impl Product<'_> {
    ghost use Rattle.lasso_search.specs.Walks.{graph, letter_at, base_at};

    // Whether a state is initial: flags 1 or 3. Its node at the first position has the state's own number.
    pub(crate) fn starts(self, state: usize) -> bool
        requires { state < self.table.states }
        ensures { result ≡ (graph self.entry).starts state }
    {
        self.table.flags(state) % 2 == 1
    }

    // Whether the state of a node is accepting: flags 2 or 3.
    pub(crate) fn accepts(self, node: usize) -> bool
        requires { node < self.size }
        ensures { result ≡ (graph self.entry).accepts node }
    {
        self.table.flags(node % self.table.states) >= 2
    }

    // The letter that a node's edges are on.
    pub(crate) fn letter(self, node: usize) -> usize
        requires { node < self.size }
        ensures { result ≡ letter_at self.entry node }
    {
        let position = node / self.table.states;
        if position < self.prefix.len() {
            return self.prefix[position] as usize;
        }
        self.cycle[position - self.prefix.len()] as usize
    }

    // The first node of the position that a node's edges lead to: the next one, and the loop's first behind its last.
    pub(crate) fn base(self, node: usize) -> usize
        requires { node < self.size }
        ensures { result ≡ base_at self.entry node }
    {
        let next = node / self.table.states + 1;
        if next < self.prefix.len() + self.cycle.len() {
            return next * self.table.states;
        }
        self.prefix.len() * self.table.states
    }
}
