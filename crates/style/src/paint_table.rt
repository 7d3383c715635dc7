//! The paint that a table of bytes says: n in four bytes, n codes of fills and n of strokes, each of four bytes, the least byte first.
ghost use Rattle.std.specs.Prelude.{◌≡◌};
ghost use Rattle.style.specs.Paints.{table_fill, table_stroke};
ghost use Rattle.style.specs.Made.{PaintMade};

use crate::paint::Paint;
use card::Fault;
use codes::CodeTable;
use std::num::NonZeroU32;

/// A table of a paint, lent by its owner: two codes of four bytes for each number.
#[derive(Clone, Copy)]
pub struct PaintTable<'a> {
    table: CodeTable<'a, 8>,
}

impl<'a> PaintTable<'a> {
    /// The paint of a table; refuses bytes with a wrong length or count.
    pub fn new(bytes: &'a [u8]) -> Result<PaintTable<'a>, Fault>
        ensures { PaintMade bytes.now result }
    {
        let table = CodeTable::new(bytes).ok_or(Fault::WrongTable)?;
        Ok(PaintTable { table })
    }
}

impl Paint for PaintTable<'_> {
    ghost fill = { λ p. table_fill p.table.bytes.now };

    ghost stroke = { λ p. table_stroke p.table.bytes.now };

    fn fill(&self, n: u32) -> Option<NonZeroU32> {
        self.table.code(0, n)
    }

    // The strokes stand behind the fills.
    fn stroke(&self, n: u32) -> Option<NonZeroU32> {
        self.table.code(4, n)
    }
}
