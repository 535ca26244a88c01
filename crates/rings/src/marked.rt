// A closed table with its ids below V and a mark for each row.
ghost use Rattle.std.proofs.Props.{props};
ghost use Rattle.rings.specs.Tested.{MarksTested};

use table::checked::Table;

#[derive(Clone, Copy)]
pub struct Marked<'a> {
    pub table: Table<'a>,
    pub marks: &'a [u8],
    pub ids: usize,
    ghost tested: { MarksTested table.rows.now marks.now ids } by { Prim.hlevel props },
}
