// Runs the trials that stand on standard input, line by line, by the library's own calls. What it prints is held to a stored
// output that was worked out apart (docs/TRIALS.md).
#![tactic(auto)]

mod answers;
mod buffer;
mod filling;
mod lasso;
mod pair;
mod scan;
mod script;
mod tray;

use filling::Table;
use std::io;
use std::io::Read;

fn main(rt: HostRuntime) -> io::Result<()> {
    let mut text = [0; 65536];
    let read = io::copy(&mut rt.stdin().take(65536), &mut &mut text[..])?;
    // No more is read than there is room for, but what `copy` promises does not say so.
    let length = text.len().min(read as usize);
    script::run(&rt, &text[..length], &mut Table::new(0))
}
