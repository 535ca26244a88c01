// Rows are read through one view, which holds the lent bytes of the row section.
ghost use Rattle.std.specs.Prelude.{◌≡◌, ◌<◌};
ghost use Rattle.table.specs.Rows.{id_in, rows_in};

use words::word_at;

#[derive(Clone, Copy)]
pub(crate) struct RowView<'a> {
    bytes: &'a [u8],
}

impl<'a> RowView<'a> {
    pub(crate) fn of(rows: &'a [u8]) -> RowView<'a>
        ensures { result.bytes ≡ rows.entry }
    {
        RowView { bytes: rows }
    }

    // The id of a row at a corner.
    pub(crate) fn id(self, row: usize, corner: usize) -> usize
        requires { (row < rows_in self.bytes.now) × (corner < 4) }
        ensures { result ≡ id_in self.entry.bytes.now row corner }
    {
        word_at(self.bytes, 16 * row + 4 * corner) as usize
    }
}
