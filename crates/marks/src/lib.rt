// The starting marks. Codes 10 to 12.
#![tactic(auto)]

ghost use Rattle.std.specs.Prelude.{◌≡◌, length};
ghost use Rattle.rules.specs.Below.{lowest};
ghost use Rattle.rules.specs.First.{first_match};
ghost use Rattle.rules.specs.Job.{unlike, mark_tests};
ghost use Rattle.table.specs.Rows.{table_in, rows_in};
ghost use Rattle.marks.specs.Start.{bad_mark, verdict_of};
ghost use Rattle.values.specs.Places.{place_of};

use rings::marked::Marked;
use rings::ringless_vertex;

// The first rule that the marks break, with the row or the vertex that breaks it. Where none is broken, the marks may be grown.
#[derive(Clone, Copy)]
pub enum Unfit {
    // A mark that is not 0 or 1.
    Mark(usize),
    // An outer row whose mark differs from that of the lowest outer row.
    Outer(usize),
    // A skin vertex without one ring.
    Vertex(usize),
}

// The first mark that is not 0 or 1.
fn bad_mark(marks: &[u8]) -> Option<usize>
    ensures { place_of result ≡ lowest (length marks.now) (bad_mark marks.now) }
{
    (0..marks.len()).find(|&row| !((marks[row] == 0) | (marks[row] == 1)))
}

// The first outer row whose mark differs from that of the lowest outer row. Outer rows come first, so that one is row 0.
fn unlike_outer(marked: Marked) -> Option<usize>
    ensures { place_of result ≡ lowest (rows_in marked.entry.table.rows.now) (unlike (table_in marked.entry.table.rows.now) marked.entry.marks.now) }
{
    (1..marked.table.row_count()).find(|&row| marked.table.holds(row, 0)
        & (marked.marks[row] != marked.marks[0]))
}

// The first of the refusals 10 to 12.
pub fn check_marks(marked: Marked) -> Result<(), Unfit>
    ensures { verdict_of result ≡ first_match 10 (mark_tests (table_in marked.entry.table.rows.now) marked.entry.ids marked.entry.marks.now) }
{
    if let Some(row) = bad_mark(marked.marks) {
        return Err(Unfit::Mark(row));
    }
    if let Some(row) = unlike_outer(marked) {
        return Err(Unfit::Outer(row));
    }
    if let Some(vertex) = ringless_vertex(marked) {
        return Err(Unfit::Vertex(vertex));
    }
    Ok(())
}
