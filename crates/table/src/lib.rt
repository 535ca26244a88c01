// The table: rows, neighbours, and the rules of a closed table. Codes 5 to 9.
#![tactic(auto)]

mod across;
mod asked;
mod chains;
pub mod checked;
pub mod faces;
mod flood;
mod joined;
mod rows;
mod view;

ghost use Rattle.std.specs.Prelude.{◌≡◌, ℕ, ◌+◌, ◌*◌, ◌≤◌, ◌<◌, length, get_or, replicate};
ghost use Rattle.rules.specs.First.{first_match};
ghost use Rattle.rules.specs.Job.{written, table_tests, most_rows};
ghost use Rattle.rules.specs.Table.{holds, neighbour_list};
ghost use Rattle.table.specs.Rows.{rows_in, id_in, table_in, OrderedRows};
ghost use Rattle.table.specs.Tested.{Tested};
ghost use Rattle.table.specs.Closed.{verdict_of, joined_tests, shared_tests, left_of};

use across::neighbours;
use chains::Chains;
use checked::Table;
use faces::FaceKind;
use joined::broken_face;
use rows::{bad_row, out_of_order};
use view::RowView;

// The first rule that the table breaks, with the lowest row that breaks it. Of a closed table there is none.
#[derive(Clone, Copy)]
pub enum Broken {
    // Ids that do not rise, or are not below V.
    Row(usize),
    // A row that is not after the one before it.
    Order(usize),
    Triangle(usize),
    Edge(usize),
    Vertex(usize),
}

// The id of a row at a corner, through the view. Every id of a table is read here.
pub fn id_at(rows: &[u8], row: usize, corner: usize) -> usize
    requires { (row < rows_in rows.now) × (corner < 4) }
    ensures { result ≡ id_in rows.now row corner }
{
    RowView::of(rows).id(row, corner)
}

// How many rows a section has. Only this function and the view know how wide a row is.
pub fn row_count(rows: &[u8]) -> usize
    ensures { result ≡ rows_in rows.now }
{
    rows.len() / 16
}

// An id is one of a row's.
pub fn holds(rows: &[u8], row: usize, id: usize) -> bool
    requires { row < rows_in rows.now }
    ensures { result ≡ holds (table_in rows.now) row id }
{
    (id_at(rows, row, 0) == id)
        | (id_at(rows, row, 1) == id)
        | (id_at(rows, row, 2) == id)
        | (id_at(rows, row, 3) == id)
}

// The row across the triangle of a row that leaves out a corner, by the neighbour list. Every neighbour is read here. It promises this of
// any list, and so takes no checked table.
pub fn across_at(neighbours: &[u32], row: usize, corner: usize) -> usize
    requires { 4 * row + corner < length neighbours.now }
    ensures { result ≡ get_or neighbours.now (4 * row + corner) 0 }
{
    neighbours[4 * row + corner] as usize
}

// Leaves zero in every word.
pub fn clear(work: &mut [u32])
    ensures { work.new ≡ replicate (length work.old) 0 }
{
    work.fill(0);
}

// Codes 8 and 9.
fn check_joined(rows: &[u8], chains: &mut Chains, work: &mut [u32]) -> Result<(), Broken>
    requires { Tested rows.now work.old }
    ensures { (verdict_of result ≡ first_match 8 (joined_tests (table_in rows.now)))
        × (work.new ≡ left_of result work.old) }
{
    let table = Table {
        rows,
        neighbours: work,
    };
    if let Some(row) = broken_face(table, FaceKind::Edges, chains) {
        clear(work);
        return Err(Broken::Edge(row));
    }
    let table = Table {
        rows,
        neighbours: work,
    };
    if let Some(row) = broken_face(table, FaceKind::Vertices, chains) {
        clear(work);
        return Err(Broken::Vertex(row));
    }
    Ok(())
}

// Codes 7 to 9. One area on the stack serves the chains of triangles, then of edges, then of vertices.
fn check_shared(rows: &[u8], work: &mut [u32]) -> Result<(), Broken>
    requires { ((ids : ℕ) × OrderedRows rows.now ids) × (4 * rows_in rows.now ≤ length work.old) }
    ensures { (verdict_of result ≡ first_match 7 (shared_tests (table_in rows.now)))
        × (work.new ≡ left_of result (written (neighbour_list (table_in rows.now)) work.old)) }
{
    let mut chains = Chains::new();
    if let Some(row) = neighbours(rows, &mut chains, work) {
        clear(work);
        return Err(Broken::Triangle(row));
    }
    check_joined(rows, &mut chains, work)
}

// The first of the refusals 5 to 9. A closed table leaves its neighbour list at the front of `work`, a refusal leaves it all zero.
pub fn check(rows: &[u8], ids: usize, work: &mut [u32]) -> Result<(), Broken>
    requires { (rows_in rows.now ≤ most_rows) × (4 * rows_in rows.now ≤ length work.old) }
    ensures { (verdict_of result ≡ first_match 5 (table_tests (table_in rows.now) ids))
        × (work.new ≡ left_of result (written (neighbour_list (table_in rows.now)) work.old)) }
{
    if let Some(row) = bad_row(rows, ids) {
        clear(work);
        return Err(Broken::Row(row));
    }
    if let Some(row) = out_of_order(rows) {
        clear(work);
        return Err(Broken::Order(row));
    }
    check_shared(rows, work)
}
