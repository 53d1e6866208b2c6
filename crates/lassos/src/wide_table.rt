// Wide tables that have passed their check.
ghost use Rattle.std.specs.Prelude.{◌≡◌, IfOk};
ghost use Rattle.basics.specs.Refusals.{refused};
ghost use Rattle.tables.specs.Table.{wide_range, table_refusal};

use basics::Refusal;
use tables::{Table, WIDE_RECORDS, WIDE_STATES};

// A wide table that refusals 2 to 9 let pass.
#[derive(Clone, Copy)]
pub struct WideTable<'a> {
    pub table: Table<'a>,
    pub ghost passed: { table_refusal wide_range table.words.now ≡ 0 },
}

impl<'a> WideTable<'a> {
    // The table of these words, or the first of refusals 2 to 9 that they meet.
    #[tactic(auto, unfolding(tables::specs::Table::wide_range))]
    pub fn check(words: &'a [u16]) -> Result<WideTable<'a>, Refusal>
        ensures refusal { refused result ≡ table_refusal wide_range words.now }
        ensures table { IfOk result (λ wide. wide.table.words ≡ words.entry) }
    {
        let table = Table::checked(words, WIDE_STATES, WIDE_RECORDS)?;
        Ok(WideTable { table })
    }
}
