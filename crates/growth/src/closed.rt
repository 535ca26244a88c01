// A closed table with its neighbour list, and a mark for each row: all that the skin and the walk about an edge are found on.
ghost use Rattle.std.specs.Prelude.{◌≡◌, ◌<◌};
ghost use Rattle.std.proofs.Props.{props};
ghost use Rattle.table.specs.Rows.{rows_in};
ghost use Rattle.skin.specs.Between.{between};
ghost use Rattle.growth.specs.Tested.{ClosedTested};

use skin::is_between;
use table::checked::Table;

// With what `table` carries, this says `ClosedGround`, and nothing of tallies, of V or of what stands behind the neighbour list.
#[derive(Clone, Copy)]
pub(crate) struct Closed<'a> {
    pub(crate) table: Table<'a>,
    pub(crate) marks: &'a [u8],
    ghost tested: { ClosedTested table.rows.now marks.now } by { Prim.hlevel props },
}

impl Closed<'_> {
    // The triangle of a row that leaves out a corner is on the skin.
    pub(crate) fn on_skin(self, row: usize, corner: usize) -> bool
        requires { (row < rows_in self.table.rows.now) × (corner < 4) }
        ensures { result ≡ between self.entry.table.neighbours.now self.entry.marks.now row corner }
    {
        is_between(self.table.neighbours, self.marks, row, corner)
    }
}
