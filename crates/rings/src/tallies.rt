// The skin triangles at a vertex, each in its inside row: how many there are, and the last of their places. Place p is the triangle of row
// p / 4 that leaves out corner p % 4.
ghost use Rattle.std.specs.Prelude.{◌≡◌, true, ◌+◌, ◌*◌, ◌/◌, ◌<◌, get_or};
ghost use Rattle.rules.specs.Proposals.{inside_in};
ghost use Rattle.table.specs.Rows.{table_in, rows_in};
ghost use Rattle.rings.specs.Far.{in_face, shown_at};
ghost use Rattle.rings.specs.Tallies.{Tallied, Tallies, unmet, met};

use crate::marked::Marked;
use skin::{is_between, is_inside};
use table::faces::Face;
use values::choose;

// Of a vertex: how many skin triangles it has so far, and the last of their places. Both fit: a table has no more than 8192 places.
#[derive(Clone, Copy)]
pub(crate) struct Tally {
    pub(crate) count: u16,
    pub(crate) place: u16,
}

// One of three ids: a face is no list to be asked.
fn in_face(f: Face, id: usize) -> bool
    ensures { result ≡ in_face f id }
{
    (f.a == id) | (f.b == id) | (f.c == id)
}

// At a place there is a skin triangle of the vertex, in its inside row.
fn is_shown(marked: Marked, vertex: usize, place: usize) -> bool
    requires { place < 4 * rows_in marked.table.rows.now }
    ensures { result ≡ shown_at (table_in marked.entry.table.rows.now) (inside_in marked.entry.marks.now) vertex place }
{
    let f = marked.table.face(place / 4, place % 4);
    let inner = is_inside(marked.marks, place / 4);
    let side = is_between(marked.table.neighbours, marked.marks, place / 4, place % 4);
    inner & (side & in_face(f, vertex))
}

pub(crate) fn tally_one(marked: Marked, vertex: usize) -> Tally
    ensures { Tallied marked.entry.table.rows.now marked.entry.marks.now vertex (4 * rows_in marked.entry.table.rows.now) result.count result.place }
{
    let mut count = 0;
    let mut last = 0;
    for place in 0..4 * marked.table.row_count() {
        let on = is_shown(marked, vertex, place);
        count += choose(on, 1, 0);
        last = choose(on, place, last);
    }
    Tally {
        count: count as u16,
        place: last as u16,
    }
}

// One skin triangle more at an id.
fn meet(id: usize, place: usize, tallies: &mut [Tally; 1024])
    requires { (id < 1024) × (place < 8192) × ((get_or tallies.old id unmet).count < 16384) }
    ensures { tallies.new ≡ met id place tallies.old }
{
    tallies[id] = Tally {
        count: tallies[id].count + 1,
        place: place as u16,
    };
}

// The triangle at a place of an inside row, if it is on the skin, tallied at each of its ids.
fn tally_place(marked: Marked, place: usize, tallies: &mut [Tally; 1024])
    requires { (place < 4 * rows_in marked.table.rows.now)
        × (inside_in marked.marks.now (place / 4) ≡ true) × Tallies marked.table.rows.now marked.marks.now place tallies.old }
    ensures { Tallies marked.entry.table.rows.now marked.entry.marks.now (place + 1) tallies.new }
{
    if !is_between(marked.table.neighbours, marked.marks, place / 4, place % 4) {
        return;
    }
    let f = marked.table.face(place / 4, place % 4);
    meet(f.a, place, tallies);
    meet(f.b, place, tallies);
    meet(f.c, place, tallies);
}

// The triangles of a row.
fn tally_row(marked: Marked, row: usize, tallies: &mut [Tally; 1024])
    requires { (row < rows_in marked.table.rows.now)
        × Tallies marked.table.rows.now marked.marks.now (4 * row) tallies.old }
    ensures { Tallies marked.entry.table.rows.now marked.entry.marks.now (4 * (row + 1)) tallies.new }
{
    if !is_inside(marked.marks, row) {
        return;
    }
    for place in 4 * row..4 * row + 4 {
        tally_place(marked, place, tallies);
    }
}

// For all vertices in one pass.
pub(crate) fn tally_all(marked: Marked, tallies: &mut [Tally; 1024])
    requires { Tallies marked.table.rows.now marked.marks.now 0 tallies.old }
    ensures { Tallies marked.entry.table.rows.now marked.entry.marks.now (4 * rows_in marked.entry.table.rows.now) tallies.new }
{
    for row in 0..marked.table.row_count() {
        tally_row(marked, row, tallies);
    }
}
