// The order in which the ids of each triangle are listed.
ghost use Rattle.std.specs.Prelude.{◌≡◌, true, cond};
ghost use Rattle.std.proofs.Math.Option.{some, none};
ghost use Rattle.rules.specs.Points.{point_in};
ghost use Rattle.table.specs.Tested.{IdsTested};
ghost use Rattle.points.specs.Grid.{Grid};
ghost use Rattle.skin_list.specs.Orders.{rows_of, neighbours_of, points_of, lent_of};

use points::placed::Placed;
use table::checked::Table;

// A checked table whose triangles' ids rise, or one with points, by which they pass outward.
#[derive(Clone, Copy)]
pub enum Order<'a> {
    Rising(Table<'a>),
    Outward(Placed<'a>),
}

impl<'a> Order<'a> {
    // Outward where that is asked for, by the points, of which there is one for each id; else rising, and no point is read.
    pub fn of(table: Table<'a>, points: &'a [u8], ids: usize, outward: bool) -> Order<'a>
        requires { IdsTested table.rows.now ids × (outward ≡ true → Grid points.now ids) }
        ensures { (rows_of result ≡ table.entry.rows.now) × (points_of result ≡ cond outward (some (point_in points.now)) none)
            × (neighbours_of result ≡ table.entry.neighbours.now) × (lent_of result ≡ cond outward (some (points.now, ids)) none) }
    {
        if !outward {
            return Order::Rising(table);
        }
        Order::Outward(Placed { table, points, ids })
    }

    pub(crate) fn table(self) -> Table<'a>
        ensures { result.rows.now ≡ rows_of self.entry }
    {
        match self {
            Order::Rising(table) => table,
            Order::Outward(placed) => placed.table,
        }
    }
}
