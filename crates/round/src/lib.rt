// The rows about an edge, walked through the neighbour list.
#![tactic(auto)]

ghost use Rattle.std.specs.Prelude.{◌≡◌, ◌≢◌, ◌≤◌, ◌<◌, length};
ghost use Rattle.rules.specs.Proposals.{inside_in};
ghost use Rattle.rules.specs.Table.{across};
ghost use Rattle.table.specs.Rows.{table_in, rows_in, id_in};
ghost use Rattle.round.specs.Edge.{Near, way_on, Turned};

use skin::is_inside;
use table::checked::Table;
use values::choose;

// The edge of two ids.
#[derive(Clone, Copy)]
pub struct Edge {
    pub a: usize,
    pub b: usize,
}

// The row at which a walk stops, and the row that would be next.
#[derive(Clone, Copy)]
pub struct Stop {
    pub at: usize,
    pub next: usize,
}

// The way on about an edge: the row across, and the id of the corner that is left out.
#[derive(Clone, Copy)]
pub struct Way {
    pub row: usize,
    pub id: usize,
}

// From row x on about the edge, not back to `from`. The row across is chosen and not the corner, which would have to be looked up.
pub fn onward(table: Table, edge: Edge, from: usize, x: usize) -> Way
    requires { x < rows_in table.rows.now }
    ensures { (result.row ≡ across (table_in table.entry.rows.now) x (way_on (table_in table.entry.rows.now) edge.a edge.b from x))
        × (result.id ≡ id_in table.entry.rows.now x (way_on (table_in table.entry.rows.now) edge.a edge.b from x)) }
{
    let mut row = table.across(x, 0);
    let mut id = table.id_at(x, 0);
    for corner in 0..4 {
        let left = table.id_at(x, corner);
        let across = table.across(x, corner);
        let on = (left != edge.a) & (left != edge.b) & (across != from);
        row = choose(on, across, row);
        id = choose(on, left, id);
    }
    Way { row, id }
}

// From row `first` to row `second` and on about the edge, up to the last row before the first again or before a row that is not of the
// second's side. That leaves one possible result (`turned_once`).
pub fn turn(table: Table, marks: &[u8], edge: Edge, first: usize, second: usize) -> Stop
    requires { (rows_in table.rows.now ≤ length marks.now) × (edge.a ≢ edge.b) × Near (table_in table.rows.now) edge.a edge.b second first }
    ensures { Turned (table_in table.entry.rows.now) (inside_in marks.now) edge.a edge.b first second result.at result.next }
{
    let side = is_inside(marks, second);
    let mut at = second;
    let start = onward(table, edge, first, second);
    let mut next = start.row;
    // Counted for the loop's measure: `at` and `next` don't tell how far the walk is, and a `for` has an end that no walk comes to.
    let mut steps: usize = 0;
    while (next != first) & (is_inside(marks, next) == side) {
        let way = onward(table, edge, at, next);
        at = next;
        next = way.row;
        steps += 1;
    }
    Stop { at, next }
}
