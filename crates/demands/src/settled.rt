// Calls whose contract is not an equation of their result: each here with the one result that it leaves. (For the other public calls the
// contract itself is the equation.) Each takes what its call takes, the four buffers one by one; the two of `tallies` also take the marks or V
// for which the call's contract says what is given.
ghost use Rattle.std.specs.Prelude.{◌≡◌, ◌≢◌, false, ◌*◌, ◌≤◌, ◌<◌, length, set};
ghost use Rattle.std.proofs.Math.Option.{some};
ghost use Rattle.rules.specs.Below.{lowest, bit};
ghost use Rattle.rules.specs.First.{first_match};
ghost use Rattle.rules.specs.Table.{neighbour_list};
ghost use Rattle.rules.specs.Skin.{ringless};
ghost use Rattle.rules.specs.Points.{point_in};
ghost use Rattle.rules.specs.Cases.{other_side};
ghost use Rattle.rules.specs.Proposals.{inside_in};
ghost use Rattle.rules.specs.Work.{tally, work_area};
ghost use Rattle.rules.specs.Job.{track, most_ids, most_rows, written, layout_tests, table_tests, mark_tests, point_tests, run};
ghost use Rattle.rules.specs.Stl.{write_skin};
ghost use Rattle.job.specs.Reading.{header};
ghost use Rattle.table.specs.Rows.{table_in, rows_in};
ghost use Rattle.table.specs.Tested.{IdsTested};
ghost use Rattle.table.specs.Closed.{left_of};
ghost use Rattle.round.specs.Edge.{Near};
ghost use Rattle.tallies.specs.Area.{Area};
ghost use Rattle.track.specs.Outcomes.{lent};
ghost use Rattle.demands.specs.Settled.{reading_at, broken_at, unfit_at, misplaced_at, found_at, TheStop, grown_at, outcome_at, skin_at};

use job::{Header, Refused};
use marks::{Unfit, check_marks};
use points::{Misplaced, check_points};
use rings::marked::Marked;
use rings::ringless_vertex;
use round::{Edge, Stop, turn};
use table::Broken;
use table::checked::Table;
use tallies::{flip_row, others_at};
use track::refusal::{Grown, Refusal};
use track_stl::unwritten::Unwritten;
use track_stl::write_skin;

pub(crate) fn header_read(job: &[u8]) -> Result<Header, Refused>
    ensures { result ≡ reading_at (first_match 1 (layout_tests track job.now)) (header job.now) }
{
    job::read(job)
}

pub(crate) fn table_checked(rows: &[u8], ids: usize, work: &mut [u32]) -> Result<(), Broken>
    requires { (rows_in rows.now ≤ most_rows) × (4 * rows_in rows.now ≤ length work.old) }
    ensures { (result ≡ broken_at (first_match 5 (table_tests (table_in rows.now) ids)))
        × (work.new ≡ left_of (broken_at (first_match 5 (table_tests (table_in rows.now) ids))) (written (neighbour_list (table_in rows.now)) work.old)) }
{
    table::check(rows, ids, work)
}

pub(crate) fn marks_checked(marked: Marked) -> Result<(), Unfit>
    ensures { result ≡ unfit_at (first_match 10 (mark_tests (table_in marked.entry.table.rows.now) marked.entry.ids marked.entry.marks.now)) }
{
    check_marks(marked)
}

pub(crate) fn points_checked(table: Table, points: &[u8], ids: usize) -> Result<(), Misplaced>
    requires { IdsTested table.rows.now ids × (ids ≤ most_ids) × (6 * ids ≤ length points.now) }
    ensures { result ≡ misplaced_at (first_match 13 (point_tests (table_in table.entry.rows.now) ids (some (point_in points.now)))) }
{
    check_points(table, points, ids)
}

pub(crate) fn vertex_found(marked: Marked) -> Option<usize>
    ensures { result ≡ found_at (lowest marked.entry.ids (ringless (table_in marked.entry.table.rows.now) (inside_in marked.entry.marks.now) marked.entry.ids)) }
{
    ringless_vertex(marked)
}

pub(crate) fn stop_found(
    table: Table,
    marks: &[u8],
    edge: Edge,
    first: usize,
    second: usize,
) -> Stop
    requires { (rows_in table.rows.now ≤ length marks.now) × (edge.a ≢ edge.b) × Near (table_in table.rows.now) edge.a edge.b second first }
    ensures { TheStop (table_in table.entry.rows.now) (inside_in marks.now) edge.a edge.b first second result }
{
    turn(table, marks, edge, first, second)
}

pub(crate) fn job_run(
    job: &[u8],
    answers: &mut [u8],
    final_marks: &mut [u8],
    triangles: &mut [u32],
    work: &mut [u32],
) -> Result<Grown, Refusal>
    ensures { (result ≡ grown_at (outcome_at (run track job.now (lent answers.old final_marks.old triangles.old work.old))))
        × (lent answers.new final_marks.new triangles.new work.new ≡ (run track job.now (lent answers.old final_marks.old triangles.old work.old)).left) }
{
    track::run(job, answers, final_marks, triangles, work)
}

pub(crate) fn skin_written(
    job: &[u8],
    answers: &mut [u8],
    final_marks: &mut [u8],
    triangles: &mut [u32],
    work: &mut [u32],
    file: &mut [u8],
) -> Result<Grown, Unwritten>
    ensures { (result ≡ skin_at (outcome_at (write_skin track job.now (lent answers.old final_marks.old triangles.old work.old) file.old).result))
        × (lent answers.new final_marks.new triangles.new work.new ≡ (write_skin track job.now (lent answers.old final_marks.old triangles.old work.old) file.old).result.left)
        × (file.new ≡ (write_skin track job.now (lent answers.old final_marks.old triangles.old work.old) file.old).file) }
{
    write_skin(job, answers, final_marks, triangles, work, file)
}

// Here and below the clauses of `tallies`, word for word.
pub(crate) fn others_counted(
    rows: &[u8],
    work: &[u32],
    ids: usize,
    marks: &[u8],
    adding: bool,
    id: usize,
) -> usize
    requires { Area rows.now work.now marks.now ids × (id < ids) }
    ensures { result ≡ tally (table_in rows.now) (other_side adding (inside_in marks.now)) id }
{
    others_at(rows, work, ids, adding, id)
}

pub(crate) fn row_flipped(
    rows: &[u8],
    ids: usize,
    row: usize,
    adding: bool,
    marks: &mut [u8],
    work: &mut [u32],
)
    requires { Area rows.now work.old marks.old ids × (row < rows_in rows.now) × (other_side adding (inside_in marks.old) row ≡ false) }
    ensures { (marks.new ≡ set marks.old row (bit adding))
        × (work.new ≡ work_area (table_in rows.now) ids (set marks.old row (bit adding))) }
{
    flip_row(rows, row, adding, marks, work)
}
