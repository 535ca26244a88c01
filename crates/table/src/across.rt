// The neighbour list. Code 7.
ghost use Rattle.std.specs.Prelude.{◌≡◌, ◌*◌, ◌≤◌, ◌<◌, length, set};
ghost use Rattle.rules.specs.Below.{lowest};
ghost use Rattle.values.specs.Places.{place_of};
ghost use Rattle.table.specs.Rows.{rows_in, table_in, RisingRows};
ghost use Rattle.table.specs.Faces.{triangles_at, triangles_each};
ghost use Rattle.table.specs.Places.{Chained};
ghost use Rattle.table.specs.Triangles.{unshared, Written};

use crate::chains::Chains;
use crate::faces::FaceKind;
use crate::row_count;

// Writes a row's number at a place of the list.
fn put(work: &mut [u32], place: usize, row: usize)
    requires { (place < length work.old) × (row ≤ 2048) }
    ensures { work.new ≡ set work.old place row }
{
    work[place] = row as u32;
}

// The first row with a triangle that is not in exactly two rows; without one, the neighbour list is written.
fn neighbours_by(rows: &[u8], chains: &Chains, work: &mut [u32]) -> Option<usize>
    requires { RisingRows rows.now × Chained (table_in rows.now) triangles_at triangles_each chains.now.head chains.now.next × (4 * rows_in rows.now ≤ length work.old) }
    ensures { (place_of result ≡ lowest (rows_in rows.now) (unshared (table_in rows.now)))
        × Written (table_in rows.now) result work.old work.new }
{
    for place in 0..4 * row_count(rows) {
        let found = chains.like_places(rows, FaceKind::Triangles, place);
        if found.count != 2 {
            return Some(place / 4);
        }
        put(work, place, found.other / 4);
    }
    None
}

pub(crate) fn neighbours(rows: &[u8], chains: &mut Chains, work: &mut [u32]) -> Option<usize>
    requires { RisingRows rows.now × (4 * rows_in rows.now ≤ length work.old) }
    ensures { (place_of result ≡ lowest (rows_in rows.now) (unshared (table_in rows.now)))
        × Written (table_in rows.now) result work.old work.new }
{
    chains.thread(rows, FaceKind::Triangles);
    neighbours_by(rows, chains, work)
}
