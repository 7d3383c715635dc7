//! The stage that a table of bytes says: n in four bytes, n bytes of 0 or 1, n codes of four bytes, the least byte first.
ghost use Rattle.std.specs.Prelude.{◌≡◌, nat_le};
ghost use Rattle.card.specs.Lists.{all};
ghost use Rattle.stage.specs.Stages.{table_stage};
ghost use Rattle.stage.specs.Made.{TableMade};

use crate::asked::Stage;
use card::Fault;
use codes::CodeTable;
use std::num::NonZeroU32;

/// A table of a stage, lent by its owner: a drawn byte and a code of four bytes for each number.
#[derive(Clone, Copy)]
pub struct TableStage<'a> {
    table: CodeTable<'a, 5>,
}

// Whether each byte is 0 or 1.
fn are_flags(bytes: &[u8]) -> bool
    ensures { result ≡ all (λ b. nat_le b 1) bytes.now }
{
    bytes.iter().all(|byte| *byte <= 1)
}

impl<'a> TableStage<'a> {
    /// The stage of a table; refuses bytes with a wrong length, count or drawn byte.
    pub fn new(bytes: &'a [u8]) -> Result<TableStage<'a>, Fault>
        ensures { TableMade bytes.now result }
    {
        let table = CodeTable::new(bytes).ok_or(Fault::WrongTable)?;
        if are_flags(table.flags()) {
            Ok(TableStage { table })
        } else {
            Err(Fault::WrongTable)
        }
    }
}

impl Stage for TableStage<'_> {
    ghost drawn = { λ s. (table_stage s.table.bytes.now).drawn };

    ghost flow = { λ s. (table_stage s.table.bytes.now).flow };

    fn is_drawn(&self, n: u32) -> bool {
        self.table
            .flags()
            .get(n as usize)
            .is_some_and(|flag| *flag == 1)
    }

    // The codes stand behind the drawn bytes.
    fn flow(&self, n: u32) -> Option<NonZeroU32> {
        self.table.code(1, n)
    }
}
