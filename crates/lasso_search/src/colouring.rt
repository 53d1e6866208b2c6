// The colours of the nodes, packed into the work words, so that they stay in the caches. Every change of a colour is a rise.
ghost use Rattle.std.specs.Prelude.{◌≡◌, ◌-◌, ◌/◌, ◌<◌, length};
ghost use Rattle.lasso_search.specs.Search.{colour, risen};
ghost use Rattle.lasso_search.specs.Shades.{shade};
ghost use Rattle.lasso_search.specs.Steps.{TurnAsks};
ghost use Rattle.lasso_search.specs.Width.{width_16, colours, word_colours};

// A node that was not met is white, one on the stack grey, a finished one black, or red, if it leads to red nodes only.
#[derive(Clone, Copy, PartialEq, Eq)]
pub(crate) enum Colour {
    White,
    Grey,
    Black,
    Red,
}

// The bits of a colour.
const COLOUR_BITS: usize = 2;

// How many colours there are.
const COLOURS: u32 = 1 << COLOUR_BITS;

// The bits of a work word.
const WORK_BITS: usize = 32;

// How many colours a work word holds.
pub const WORD_COLOURS: usize = WORK_BITS / COLOUR_BITS;

// A colour in its bits.
impl From<Colour> for u32 {
    ghost from_gives = { λ colour bits. bits ≡ shade colour };

    fn from(colour: Colour) -> u32 {
        colour as u32
    }
}

impl Colour {
    // The colour in these bits.
    fn of_bits(bits: u32) -> Colour
        requires { bits < colours }
        ensures { shade result ≡ bits }
    {
        match bits {
            0 => Colour::White,
            1 => Colour::Grey,
            2 => Colour::Black,
            _ => Colour::Red,
        }
    }
}

// The colour of a node.
pub(crate) fn colour_of(work: &[u32], node: usize) -> Colour
    requires { node / word_colours width_16 < length work.now }
    ensures { shade result ≡ colour width_16 work.now node }
{
    Colour::of_bits((work[node / WORD_COLOURS] >> (COLOUR_BITS * (node % WORD_COLOURS))) % COLOURS)
}

// A node turns from one colour into a later one.
pub(crate) fn turn(work: &mut [u32], node: usize, from: Colour, to: Colour)
    requires { TurnAsks width_16 work.old node (shade from) (shade to) }
    ensures { work.new ≡ risen width_16 work.old node (shade to - shade from) }
{
    let by = u32::from(to) - u32::from(from);
    let word = work[node / WORD_COLOURS];
    work[node / WORD_COLOURS] = word + (by << (COLOUR_BITS * (node % WORD_COLOURS)));
}
