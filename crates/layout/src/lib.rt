// From numbered states and edges to the words of a chained table. While a system is explored its edges stand in the words as triples (letter,
// target, source); once the number of states is known they become records, in place.
#![tactic(auto)]

ghost use Rattle.std.specs.Prelude.{◌≡◌, ◌+◌, ◌*◌, ◌/◌, ◌≤◌, ◌<◌, cond, eqb, length};
ghost use Rattle.basics.specs.Buffers.{filled};
ghost use Rattle.basics.specs.Words.{word_bits, largest_word};
ghost use Rattle.layout.specs.Chained.{chained_words};
ghost use Rattle.layout.specs.Steps.{LayOutAsks, behind, LinkAsks, Linked, CountsAsk, with_counts};
ghost use Rattle.layout.specs.Triples.{triples_of, plain};

use basics::fill;

// The record behind record r + 1, where the edge behind edge r has the same source; zero ends the chain.
#[tactic(auto, unfolding(crate::specs::Steps::behind))]
fn next_number(edges: &[u16], r: usize) -> usize
    requires { 3 * r + 2 < length edges.now }
    ensures { result ≡ behind r edges.now }
{
    let source = 3 * r + 2;
    if source + 3 < edges.len() && edges[source + 3] == edges[source] {
        return r + 2;
    }
    0
}

// The first record of a state's chain is the one that is set first; a head is zero until then.
fn set_head(head: &mut u16, number: usize)
    requires { number ≤ largest_word word_bits }
    ensures { head.new ≡ cond (eqb head.old 0) number head.old }
{
    if *head == 0 {
        *head = number as u16;
    }
}

// Turns the source of each edge into a next, and gives its state a head: in the words of the states and in those of the edges, which stand behind.
#[tactic(auto, unfolding(crate::specs::Steps::behind))]
fn link(states: &mut [u16], edges: &mut [u16])
    requires { LinkAsks word_bits states.old edges.old }
    ensures { Linked (length edges.old / 3) states.old edges.old states.new edges.new }
{
    for r in 0..edges.len() / 3 {
        let place = 3 * r + 2;
        let source = edges[place] as usize;
        edges[place] = next_number(edges, r) as u16;
        set_head(&mut states[2 * source + 1], r + 1);
    }
}

// The counts n, k and m, before all else.
#[tactic(auto, using(crate::proofs::Laying::counts_set))]
pub fn write_counts(words: &mut [u16], states: usize, letters: usize, edges: usize)
    requires { CountsAsk word_bits words.old states letters edges }
    ensures { words.new ≡ with_counts states letters edges words.old }
{
    words[0] = states as u16;
    words[1] = letters as u16;
    words[2] = edges as u16;
}

// The edges, given as triples, become the chained table of an automaton without flags; the caller sets those.
pub fn lay_out(words: &mut [u16], states: usize, letters: usize, edges: usize)
    requires { LayOutAsks word_bits words.old states letters edges }
    ensures { words.new ≡ filled (chained_words (plain states letters) (triples_of words.old edges)) words.old }
{
    // The edges move up, behind the words of the states; no state has flags or a head yet.
    words.copy_within(3..3 + 3 * edges, 3 + 2 * states);
    let (front, back) = words.split_at_mut(3 + 2 * states);
    let state_words = &mut front[3..];
    fill(state_words, 0);
    link(state_words, &mut back[..3 * edges]);
    write_counts(words, states, letters, edges);
}
