// The run: a job is read, its table, its marks and its points are checked, its proposals are answered and its skin is listed.
#![tactic(auto)]

mod grown;
pub mod refusal;

ghost use Rattle.std.specs.Prelude.{◌≡◌, ◌≤◌, length};
ghost use Rattle.rules.specs.First.{first_match};
ghost use Rattle.rules.specs.Job.{track, most_ids, point_bytes, points_of, job_of, point_tests, run};
ghost use Rattle.job.specs.Reading.{meant};
ghost use Rattle.table.specs.Rows.{table_in};
ghost use Rattle.table.specs.Tested.{IdsTested};
ghost use Rattle.points.specs.Placed.{verdict_of};
ghost use Rattle.track.specs.Outcomes.{lent, told, outcome_of, result_of};
ghost use Rattle.track.specs.Stages.{job_in, later_tests, from_table, from_marks, Ready, Laid};

use grown::{Sections, grow};
use job::{Header, read, room_short};
use marks::check_marks;
use points::{Misplaced, check_points};
use refusal::{Grown, Refusal};
use rings::marked::Marked;
use table::checked::Table;
use table::{check, clear};

// The points, where there are any.
fn look_at_points(h: Header, table: Table, points: &[u8]) -> Result<(), Misplaced>
    requires { IdsTested table.rows.now h.ids × (h.ids ≤ most_ids) × (length points.now ≡ point_bytes track (meant h)) }
    ensures { verdict_of result ≡ first_match 13 (point_tests (table_in table.entry.rows.now) h.ids (points_of track (meant h) points.now)) }
{
    if h.has_points() {
        return check_points(table, points, h.ids);
    }
    Ok(())
}

// The marks, and then the points: codes 10 to 15.
fn look_at_marks_and_points(h: Header, marked: Marked, points: &[u8]) -> Result<(), Refusal>
    requires { (marked.ids ≡ h.ids) × (length points.now ≡ point_bytes track (meant h)) }
    ensures { told result ≡ first_match 10 (later_tests (table_in marked.entry.table.rows.now) h.ids marked.entry.marks.now (points_of track (meant h) points.now)) }
{
    check_marks(marked)?;
    look_at_points(h, marked.table, points)?;
    Ok(())
}

// From the starting marks on, with the neighbour list at the front of the work words. The four lent buffers stay parameters of their own: each
// stage lends other parts of them on.
fn run_closed(
    h: Header,
    sections: Sections,
    answers: &mut [u8],
    final_marks: &mut [u8],
    triangles: &mut [u32],
    work: &mut [u32],
) -> Result<Grown, Refusal>
    requires { Ready h sections.rows.now sections.marks.now sections.proposals.now sections.points.now (lent answers.old final_marks.old triangles.old work.old) }
    ensures { result_of (outcome_of result) (lent answers.new final_marks.new triangles.new work.new)
        ≡ from_marks h (job_in h sections.entry.rows.now sections.entry.marks.now sections.entry.proposals.now sections.entry.points.now)
        (lent answers.old final_marks.old triangles.old work.old) }
{
    let table = Table {
        rows: sections.rows,
        neighbours: work,
    };
    let marked = Marked {
        table,
        marks: sections.marks,
        ids: h.ids,
    };
    if let Err(refusal) = look_at_marks_and_points(h, marked, sections.points) {
        clear(work);
        return Err(refusal);
    }
    Ok(grow(h, sections, answers, final_marks, triangles, work))
}

// From the table on, with as many work words as the job needs.
fn run_laid(
    h: Header,
    job: &[u8],
    answers: &mut [u8],
    final_marks: &mut [u8],
    triangles: &mut [u32],
    work: &mut [u32],
) -> Result<Grown, Refusal>
    requires { Laid h job.now (lent answers.old final_marks.old triangles.old work.old) }
    ensures { result_of (outcome_of result) (lent answers.new final_marks.new triangles.new work.new)
        ≡ from_table h (job_of track job.now)
        (lent answers.old final_marks.old triangles.old work.old) }
{
    let rows_at = h.rows_at();
    let marks_at = h.marks_at();
    let proposals_at = h.proposals_at();
    let points_at = h.points_at();
    let rows = &job[rows_at..marks_at];
    check(rows, h.ids, work)?;
    let sections = Sections {
        rows,
        marks: &job[marks_at..proposals_at],
        proposals: &job[proposals_at..points_at],
        points: &job[points_at..],
    };
    run_closed(h, sections, answers, final_marks, triangles, work)
}

// Runs a job. Every slice of bytes has an answer.
pub fn run(
    job: &[u8],
    answers: &mut [u8],
    final_marks: &mut [u8],
    triangles: &mut [u32],
    work: &mut [u32],
) -> Result<Grown, Refusal>
    ensures { result_of (outcome_of result) (lent answers.new final_marks.new triangles.new work.new)
        ≡ run track job.now (lent answers.old final_marks.old triangles.old work.old) }
{
    let h = read(job)?;
    if room_short(
        h,
        answers.len(),
        final_marks.len(),
        triangles.len(),
        work.len(),
    ) {
        return Err(Refusal::Room);
    }
    let room = h.work_room();
    run_laid(h, job, answers, final_marks, triangles, &mut work[..room])
}
