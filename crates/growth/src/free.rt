// Vertices that are free of the other side, by the corner tallies.
ghost use Rattle.std.specs.Prelude.{◌≡◌, List, ℕ, ◌<◌, length};
ghost use Rattle.rules.specs.Below.{all};
ghost use Rattle.rules.specs.Cases.{other_side};
ghost use Rattle.rules.specs.Proposals.{inside_in};
ghost use Rattle.table.specs.Rows.{table_in, rows_in};
ghost use Rattle.tallies.specs.Area.{Area};
ghost use Rattle.growth.specs.Free.{vertex_free};

use skin::is_inside;
use table::id_at;
use tallies::others_at;

// For an add the inside rows are the other side, for a remove the outside rows.
pub(crate) fn on_other_side(marks: &[u8], adding: bool, row: usize) -> bool
    requires { row < length marks.now }
    ensures { result ≡ other_side adding (inside_in marks.now) row }
{
    is_inside(marks, row) == adding
}

// No row of the other side holds the vertex at a corner. It is lent no marks, and speaks of any for which the work area stands, so that no
// value with marks would serve.
pub(crate) fn vertex_free(
    rows: &[u8],
    work: &[u32],
    ids: usize,
    adding: bool,
    row: usize,
    corner: usize,
) -> bool
    requires { ((marks : List ℕ) × Area rows.now work.now marks ids) × (row < rows_in rows.now) × (corner < 4) }
    ensures { (marks : List ℕ) → Area rows.now work.now marks ids
        → result ≡ vertex_free (table_in rows.now) (other_side adding (inside_in marks)) row corner }
{
    others_at(rows, work, ids, adding, id_at(rows, row, corner)) == 0
}

pub(crate) fn vertices_free(rows: &[u8], work: &[u32], ids: usize, adding: bool, row: usize) -> bool
    requires { ((marks : List ℕ) × Area rows.now work.now marks ids) × (row < rows_in rows.now) }
    ensures { (marks : List ℕ) → Area rows.now work.now marks ids
        → result ≡ all 4 (vertex_free (table_in rows.now) (other_side adding (inside_in marks)) row) }
{
    (0..4).all(|corner| vertex_free(rows, work, ids, adding, row, corner))
}
