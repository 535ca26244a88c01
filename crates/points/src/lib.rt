// Points on a table. Codes 13 to 15, and which way a triangle's rising ids pass.
#![tactic(auto)]

pub mod placed;
mod sides;

ghost use Rattle.std.specs.Prelude.{◌≡◌, ◌+◌, ◌*◌, ◌≤◌, ◌<◌, length};
ghost use Rattle.std.proofs.Math.Option.{some};
ghost use Rattle.rules.specs.Below.{lowest};
ghost use Rattle.rules.specs.First.{first_match};
ghost use Rattle.rules.specs.Points.{point_in};
ghost use Rattle.rules.specs.Outward.{off_grid};
ghost use Rattle.rules.specs.Job.{most_ids, point_tests};
ghost use Rattle.values.specs.Places.{place_of};
ghost use Rattle.table.specs.Rows.{table_in};
ghost use Rattle.table.specs.Tested.{IdsTested};
ghost use Rattle.points.specs.Placed.{verdict_of};

use placed::Placed;
use table::checked::Table;
use volume::{at_origin, on_grid, point_at};

// The first rule that the points break, with the id or the lowest row that breaks it. Where none is broken, all points are in range, no finite row
// is flat, and finite neighbours are on different sides of their triangle.
#[derive(Clone, Copy)]
pub enum Misplaced {
    // A point out of range, or that of id 0 not three zeros.
    Point(usize),
    // A finite row of zero volume.
    Flat(usize),
    // A finite row with a finite neighbour on the same side of their triangle.
    Folded(usize),
}

// ---- 13

fn is_off(points: &[u8], id: usize) -> bool
    requires { (id < most_ids) × (6 * id + 6 ≤ length points.now) }
    ensures { result ≡ off_grid (point_in points.now) id }
{
    let p = point_at(points, id);
    !on_grid(p) | ((id == 0) & !at_origin(p))
}

// The first id whose point is out of range, or 0 where that is not three zeros.
fn off_grid(points: &[u8], ids: usize) -> Option<usize>
    requires { (ids ≤ most_ids) × (6 * ids ≤ length points.now) }
    ensures { place_of result ≡ lowest ids (off_grid (point_in points.now)) }
{
    (0..ids).find(|&id| is_off(points, id))
}

// The first of the refusals 13 to 15.
pub fn check_points(table: Table, points: &[u8], ids: usize) -> Result<(), Misplaced>
    requires { IdsTested table.rows.now ids × (ids ≤ most_ids) × (6 * ids ≤ length points.now) }
    ensures { verdict_of result ≡ first_match 13 (point_tests (table_in table.entry.rows.now) ids (some (point_in points.now))) }
{
    if let Some(id) = off_grid(points, ids) {
        return Err(Misplaced::Point(id));
    }
    let placed = Placed { table, points, ids };
    if let Some(row) = placed.flat_row() {
        return Err(Misplaced::Flat(row));
    }
    if let Some(row) = placed.folded_row() {
        return Err(Misplaced::Folded(row));
    }
    Ok(())
}
