// A checked table with its ids below V, and for each id a point that passed code 13.
ghost use Rattle.std.proofs.Props.{props};
ghost use Rattle.points.specs.Tested.{PointsTested};

use table::checked::Table;

#[derive(Clone, Copy)]
pub struct Placed<'a> {
    pub table: Table<'a>,
    pub points: &'a [u8],
    pub ids: usize,
    ghost tested: { PointsTested table.rows.now points.now ids } by { Prim.hlevel props },
}
