// The lines that have words in them.
ghost use Rattle.basics.specs.Refusals.{number};
ghost use Rattle.decimal.specs.Lines.{HasRoom, Appended};
ghost use Rattle.listing_text.specs.Listing.{refused_line, counts_line};
ghost use Rattle.listing_text.specs.Output.{refused_bytes, counts_bytes};

use basics::Refusal;
use decimal::Output;

// The whole answer to a refusal.
pub(crate) fn put_refused(refusal: Refusal, output: &mut Output)
    requires { HasRoom output.old refused_bytes }
    ensures { Appended output.old refused_bytes (refused_line (number refusal)) output.new }
{
    output.text(b"refused ");
    output.field(refusal.number(), b'\n');
}

// The first line of an accepted build.
pub(crate) fn put_counts(states: u32, edges: u32, output: &mut Output)
    requires { HasRoom output.old counts_bytes }
    ensures { Appended output.old counts_bytes (counts_line states edges) output.new }
{
    output.text(b"states ");
    output.field(states, b' ');
    output.text(b"edges ");
    output.field(edges, b'\n');
}
