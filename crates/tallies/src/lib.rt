// Corner tallies: behind the neighbour list the work area has for each id the number of inside rows that hold it, and then for each id the
// number of all rows that do. The work area is lent whole.
#![tactic(auto)]

ghost use Rattle.std.specs.Prelude.{◌≡◌, true, false, cond, List, ℕ, ◌+◌, ◌*◌, ◌≤◌, ◌<◌, set};
ghost use Rattle.rules.specs.Below.{bit};
ghost use Rattle.rules.specs.Cases.{other_side};
ghost use Rattle.rules.specs.Proposals.{inside_in};
ghost use Rattle.rules.specs.Work.{tally, work_area};
ghost use Rattle.rules.specs.Job.{most_rows};
ghost use Rattle.table.specs.Rows.{table_in, rows_in};
ghost use Rattle.tallies.specs.Steps.{shifted, Steppable, RowSteppable, step_at, step_row};
ghost use Rattle.tallies.specs.Counted.{Listed, counted};
ghost use Rattle.tallies.specs.Area.{Area};

use skin::is_inside;
use table::{clear, id_at, row_count};

// One more, or one less. A closure for the step would be asked for the bounds of both, and be no plainer.
fn step(n: u32, up: bool) -> u32
    requires { (up ≡ true → n ≤ most_rows) × (up ≡ false → 0 < n) }
    ensures { result ≡ shifted up n 1 }
{
    if up { n + 1 } else { n - 1 }
}

fn step_at(place: usize, up: bool, work: &mut [u32])
    requires { Steppable up work.old place }
    ensures { work.new ≡ step_at up work.old place }
{
    work[place] = step(work[place], up);
}

// The tally of each id of a row, of the tallies that begin at `first`.
fn step_row(rows: &[u8], first: usize, up: bool, row: usize, work: &mut [u32])
    requires { RowSteppable (table_in rows.now) first up row work.old × (row < rows_in rows.now) }
    ensures { work.new ≡ step_row (table_in rows.now) first up row 4 work.old }
{
    for corner in 0..4 {
        step_at(first + id_at(rows, row, corner), up, work);
    }
}

// Where the tallies begin: behind a neighbour for each corner of a row.
fn tallies_at(rows: &[u8]) -> usize
    requires { rows_in rows.now ≤ most_rows }
    ensures { result ≡ 4 * rows_in rows.now }
{
    4 * row_count(rows)
}

// Whether a row counts is a question with no value beside it; of all rows the answer is yes.
fn count_if(counts: bool, rows: &[u8], first: usize, row: usize, work: &mut [u32])
    requires { RowSteppable (table_in rows.now) first true row work.old × (row < rows_in rows.now) }
    ensures { work.new ≡ cond counts (step_row (table_in rows.now) first true row 4 work.old) work.old }
{
    if counts {
        step_row(rows, first, true, row, work);
    }
}

// One row more: at its ids, of the inside rows if it is one of them, and of all rows.
fn count_row(rows: &[u8], marks: &[u8], ids: usize, row: usize, work: &mut [u32])
    requires { ((work₀ : List ℕ) × Listed rows.now work₀ marks.now ids) × (row < rows_in rows.now) × (work.old ≡ counted (table_in rows.now) ids marks.now row) }
    ensures { work.new ≡ counted (table_in rows.now) ids marks.now (row + 1) }
{
    let first = tallies_at(rows);
    count_if(is_inside(marks, row), rows, first, row, work);
    count_if(true, rows, first + ids, row, work);
}

// Counts all rows: makes the work area for the marks, of one that has the neighbour list at its front.
pub fn count_rows(rows: &[u8], marks: &[u8], ids: usize, work: &mut [u32])
    requires { Listed rows.now work.old marks.now ids }
    ensures { work.new ≡ work_area (table_in rows.now) ids marks.now }
{
    let first = tallies_at(rows);
    clear(&mut work[first..]);
    for row in 0..row_count(rows) {
        count_row(rows, marks, ids, row, work);
    }
}

// How many rows of the other side hold an id: for an add the inside rows, for a remove all less these. The work area is that of some
// marks, which it does not take, so that no value with marks would serve.
pub fn others_at(rows: &[u8], work: &[u32], ids: usize, adding: bool, id: usize) -> usize
    requires { ((marks : List ℕ) × Area rows.now work.now marks ids) × (id < ids) }
    ensures { (marks : List ℕ) → Area rows.now work.now marks ids
        → result ≡ tally (table_in rows.now) (other_side adding (inside_in marks)) id }
{
    let first = tallies_at(rows);
    let inside = work[first + id] as usize;
    if adding {
        return inside;
    }
    work[first + ids + id] as usize - inside
}

// A row goes to the other side: its mark is set, and the tallies of its four ids go with it. Marks and work area change, so that no
// value that carries `Area` could hold them.
pub fn flip_row(rows: &[u8], row: usize, adding: bool, marks: &mut [u8], work: &mut [u32])
    requires { ((ids : ℕ) × Area rows.now work.old marks.old ids) × (row < rows_in rows.now) × (other_side adding (inside_in marks.old) row ≡ false) }
    ensures { (marks.new ≡ set marks.old row (bit adding))
        × ((ids : ℕ) → Area rows.now work.old marks.old ids → work.new ≡ work_area (table_in rows.now) ids marks.new) }
{
    marks[row] = u8::from(adding);
    step_row(rows, tallies_at(rows), adding, row, work);
}
