// The call for C on a run of records, by the name and with the contract of the library's own.
#![tactic(auto)]

ghost use Rattle.std.specs.Prelude.{◌≡◌, length};
ghost use Rattle.records.specs.Records.{records_in, fitted};

use ncsb::Quadruple;

// Fills the lent records from the sets words of a build, and clears the rest.
#[unsafe(no_mangle)]
pub extern "C" fn tubochre_records(records: &mut [Quadruple], words: &[u32])
    ensures { records.new ≡ fitted (length records.old) (records_in words.now) }
{
    records::tubochre_records(records, words);
}
