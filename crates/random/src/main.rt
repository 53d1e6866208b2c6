// Many random patterns with lassos, drawn anew in the same way at each run. The library's own calls are held to the third
// demand on each; the summary is held to a stored output.
#![tactic(auto)]

mod demand;
mod draw;
mod pattern;
mod tally;

use demand::try_pattern;
use draw::Draw;
use std::io;
use tally::Tally;

fn try_patterns() -> Tally {
    let mut tally = Tally::default();
    for number in 0..500 {
        let draw = Draw {
            seed: number * 7919 + 1,
        };
        try_pattern(&mut tally, draw.next());
    }
    tally
}

fn main(rt: HostRuntime) -> io::Result<()> {
    println!(rt; "{}", try_patterns())
}
