// The skin list: the triangles between an inside row and an outside row, three ids each.
#![tactic(auto)]

pub mod order;

ghost use Rattle.std.specs.Prelude.{◌≡◌, true, not, ◌&&◌, cond, ◌+◌, ◌*◌, ◌≤◌, ◌<◌, length, set};
ghost use mathlib.Core.List.{flatten};
ghost use Rattle.std.proofs.lemmas.List.Edits.{sets};
ghost use Rattle.rules.specs.Skin.{on_skin, skin_as};
ghost use Rattle.rules.specs.Outward.{triangle_as};
ghost use Rattle.rules.specs.Proposals.{inside_in};
ghost use Rattle.rules.specs.Job.{written};
ghost use Rattle.table.specs.Rows.{id_in, table_in, rows_in};
ghost use Rattle.table.specs.Faces.{corner_of};
ghost use Rattle.skin_list.specs.Listing.{in_order};
ghost use Rattle.skin_list.specs.Orders.{rows_of, points_of, is_turned};

use order::Order;
use skin::{is_between, is_inside};
use table::checked::Table;
use table::faces::corner_at;
use table::id_at;
use values::choose;

// An id of the triangle of a row that leaves out a corner.
fn triangle_id(rows: &[u8], row: usize, corner: usize, k: usize) -> u32
    requires { (row < rows_in rows.now) × (corner < 4) × (k < 3) }
    ensures { result ≡ id_in rows.now row (corner_of corner k) }
{
    id_at(rows, row, corner_at(corner, k)) as u32
}

// Writes three ids from a place on, into the buffer that C lends.
fn put_ids(triangles: &mut [u32], at: usize, a: u32, b: u32, c: u32)
    requires { at + 3 ≤ length triangles.old }
    ensures { triangles.new ≡ set (set (set triangles.old at a) (at + 1) b) (at + 2) c }
{
    triangles[at..at + 3].copy_from_slice(&[a, b, c]);
}

// Puts the triangle behind the n that are listed; where it is turned, with its last two ids exchanged. `turned`
// chooses ids, and no step.
fn put(turned: bool, rows: &[u8], row: usize, corner: usize, triangles: &mut [u32], n: usize)
    requires { (row < rows_in rows.now) × (corner < 4) × (3 * n + 3 ≤ length triangles.old) }
    ensures { triangles.new ≡ sets triangles.old (3 * n) (in_order turned (table_in rows.now) row corner) }
{
    let a = triangle_id(rows, row, corner, 0);
    let b = triangle_id(rows, row, corner, choose(turned, 2, 1));
    let c = triangle_id(rows, row, corner, choose(turned, 1, 2));
    put_ids(triangles, 3 * n, a, b, c);
}

// The row is inside, and its triangle that leaves out the corner is on the skin.
fn is_listed(table: Table, marks: &[u8], row: usize, corner: usize) -> bool
    requires { (row < rows_in table.rows.now) × (corner < 4) × (rows_in table.rows.now ≤ length marks.now) }
    ensures { result ≡ (inside_in marks.now row && on_skin (table_in table.entry.rows.now) (inside_in marks.now) row corner) }
{
    is_inside(marks, row) && is_between(table.neighbours, marks, row, corner)
}

// The triangle is listed outward, and rising ids are the wrong way.
fn is_turned(order: Order, row: usize, corner: usize) -> bool
    requires { (row < rows_in (rows_of order)) × (corner < 4) }
    ensures { result ≡ is_turned order.entry row corner }
{
    match order {
        Order::Rising(_) => false,
        Order::Outward(placed) => !placed.right_way(row, corner),
    }
}

// Writes the skin to the front of the triangles, row by row and by left-out corner, rising or outward, and tells how many triangles it
// has. The number of triangles listed stands beside their buffer: the C interface lends it.
pub fn list_skin(order: Order, marks: &[u8], triangles: &mut [u32]) -> usize
    requires { (rows_in (rows_of order) ≤ length marks.now) × (6 * rows_in (rows_of order) ≤ length triangles.old) }
    ensures { (result ≡ length (skin_as (table_in (rows_of order.entry)) (inside_in marks.now) (triangle_as (table_in (rows_of order.entry)) true (points_of order.entry))))
        × (triangles.new ≡ written (flatten (skin_as (table_in (rows_of order.entry)) (inside_in marks.now) (triangle_as (table_in (rows_of order.entry)) true (points_of order.entry)))) triangles.old) }
{
    let table = order.table();
    let end = 4 * table.row_count();
    let mut n = 0;
    for place in 0..end {
        let row = place / 4;
        let corner = place % 4;
        if is_listed(table, marks, row, corner) {
            let turned = is_turned(order, row, corner);
            put(turned, table.rows, row, corner, triangles, n);
            n += 1;
        }
    }
    n
}
