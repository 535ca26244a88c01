// A closed table, marks, and the work area for these marks: what the answer to a proposal is found on.
ghost use Rattle.std.specs.Prelude.{◌≡◌};
ghost use Rattle.std.proofs.Props.{props};
ghost use Rattle.growth.specs.Tested.{AreaTested};

use crate::closed::Closed;
use table::checked::Table;

#[derive(Clone, Copy)]
pub(crate) struct Growing<'a> {
    pub(crate) rows: &'a [u8],
    pub(crate) work: &'a [u32],
    pub(crate) marks: &'a [u8],
    pub(crate) ids: usize,
    ghost tested: { AreaTested rows.now work.now marks.now ids } by { Prim.hlevel props },
}

impl<'a> Growing<'a> {
    // The neighbour list stands at the front of the work area.
    pub(crate) fn closed(self) -> Closed<'a>
        ensures { (result.table.rows.now ≡ self.entry.rows.now) × (result.table.neighbours.now ≡ self.entry.work.now)
            × (result.marks.now ≡ self.entry.marks.now) }
    {
        let table = Table {
            rows: self.rows,
            neighbours: self.work,
        };
        Closed {
            table,
            marks: self.marks,
        }
    }
}
