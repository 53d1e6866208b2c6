// Lists the complement of a pattern: reads the pattern's words as decimal numbers from standard input, and writes the listing of what
// it read. What is written is proved in `listing_text`. The exit status tells nothing: a refusal is told on standard output, as
// docs/RULES.md has it, and a read or write that failed on standard error.
#![tactic(auto)]

ghost use Rattle.std.specs.Prelude.{IfOk};
ghost use Rattle.decimal.specs.Reading.{Ready};

use decimal::Reading;
use listing_text::{OUTPUT_BYTES, PATTERN_WORDS, list};
use std::io;
use std::io::{ErrorKind, Read};

// Reads to the end of the input, or to a failure. A proved loop has to end, and nothing says that the input does: so its turns
// are counted, and if they ever ran out that would be a failure and not the input's end.
fn read_all<R: Read>(from: &mut R, table: &mut [u16]) -> io::Result<Reading>
    ensures { IfOk result (λ reading. Ready reading table.new) }
{
    let mut reading = Reading::start();
    let mut chunk = [0; 65536];
    for _ in 0..u64::MAX {
        let count = from.read(&mut chunk)?;
        if count == 0 {
            return Ok(reading);
        }
        reading = reading.fed(&chunk[..count], table);
    }
    Err(ErrorKind::Other.into())
}

fn main(rt: HostRuntime) -> io::Result<()> {
    let mut table = [0u16; PATTERN_WORDS];
    let Ok(reading) = read_all(&mut rt.stdin(), &mut table) else {
        return eprintln!(rt; "listing: reading standard input failed");
    };
    let mut output = [0u8; OUTPUT_BYTES];
    let end = list(reading, &mut table, &mut output);
    if rt.write_all(&output[..end]).is_err() {
        return eprintln!(rt; "listing: writing standard output failed");
    }
    Ok(())
}
