// The job's writer: a job is run, and its skin is written as binary STL, outward.
#![tactic(auto)]

mod corners;
pub mod unwritten;

ghost use Rattle.std.specs.Prelude.{◌≡◌, true, ◌*◌, ◌≤◌, length};
ghost use mathlib.Core.List.{flatten};
ghost use Rattle.rules.specs.Points.{point_in};
ghost use Rattle.rules.specs.Job.{track, has_points, job_of, written, Lent};
ghost use Rattle.rules.specs.Stl.{file_length, file_of, corners_of, outward_skin, skin_file, exported, write_skin};
ghost use Rattle.job.specs.Reading.{meant};
ghost use Rattle.table.specs.Rows.{rows_in};
ghost use Rattle.track.specs.Outcomes.{lent, result_of};
ghost use Rattle.track_stl.specs.Outcomes.{outcome_of};
ghost use Rattle.track_stl.specs.Skins.{listed_as};
ghost use Rattle.track_stl.specs.Ran.{Ran, told};

use corners::put_triangles;
use job::{Header, read};
use points::placed::Placed;
use skin_list::list_skin;
use skin_list::order::Order;
use table::checked::Table;
use track::refusal::Grown;
use track::run;
use unwritten::Unwritten;

// Lists the skin outward and writes it; then lists it as it was listed, which brings the triangles back. `asked`
// is the header's yes or no, of which `Order::of` makes an order.
fn put_listed(placed: Placed, asked: bool, marks: &[u8], triangles: &mut [u32], file: &mut [u8])
    requires { (rows_in placed.table.rows.now ≤ length marks.now) × (6 * rows_in placed.table.rows.now ≤ length triangles.old)
        × (triangles.old ≡ written (flatten (listed_as asked placed.table.rows.now marks.now placed.points.now)) triangles.old)
        × (file_length (length (listed_as true placed.table.rows.now marks.now placed.points.now)) ≤ length file.old) }
    ensures { (triangles.new ≡ triangles.old)
        × (file.new ≡ written (file_of (corners_of (point_in placed.entry.points.now) (listed_as true placed.entry.table.rows.now marks.now placed.entry.points.now))) file.old) }
{
    let count = list_skin(Order::Outward(placed), marks, triangles);
    put_triangles(placed, triangles, count, file);
    let order = Order::of(placed.table, placed.points, placed.ids, asked);
    list_skin(order, marks, triangles);
}

// The file of a job that was run and has points. The triangles are left as the run left them.
fn put_skin<'a>(
    h: Header,
    job: &'a [u8],
    final_marks: &[u8],
    triangles: &mut [u32],
    work: &'a [u32],
    file: &mut [u8],
)
    requires { Ran h job.now final_marks.now triangles.old work.now × (has_points track (meant h) ≡ true)
        × (file_length (length (outward_skin (job_of track job.now))) ≤ length file.old) }
    ensures { (triangles.new ≡ triangles.old) × (file.new ≡ written (skin_file (job_of track job.now)) file.old) }
{
    let rows_at = h.rows_at();
    let marks_at = h.marks_at();
    let points_at = h.points_at();
    let n = h.rows;
    let table = Table {
        rows: &job[rows_at..marks_at],
        neighbours: work,
    };
    let placed = Placed {
        table,
        points: &job[points_at..],
        ids: h.ids,
    };
    put_listed(placed, h.asks_outward(), &final_marks[..n], triangles, file);
}

// What a job that was run gets: 20, 21, or its file.
fn write_ran(
    h: Header,
    ran: Grown,
    job: &[u8],
    final_marks: &[u8],
    triangles: &mut [u32],
    work: &[u32],
    file: &mut [u8],
) -> Result<Grown, Unwritten>
    requires { Ran h job.now final_marks.now triangles.old work.now × (ran.triangles ≡ length (outward_skin (job_of track job.now))) }
    ensures { (triangles.new ≡ triangles.old)
        × ((left : Lent) → told (outcome_of result) left file.new ≡ exported track job.now (result_of (outcome_of (Ok ran)) left) file.old) }
{
    if !h.has_points() {
        return Err(Unwritten::NoPoints);
    }
    if file.len() < 84 + 50 * ran.triangles {
        return Err(Unwritten::Room);
    }
    put_skin(h, job, final_marks, triangles, work, file);
    Ok(ran)
}

// Runs a job and writes its skin to the front of the file. The four buffers of the job are left as its run leaves them.
pub fn write_skin(
    job: &[u8],
    answers: &mut [u8],
    final_marks: &mut [u8],
    triangles: &mut [u32],
    work: &mut [u32],
    file: &mut [u8],
) -> Result<Grown, Unwritten>
    ensures { told (outcome_of result) (lent answers.new final_marks.new triangles.new work.new) file.new
        ≡ write_skin track job.now (lent answers.old final_marks.old triangles.old work.old) file.old }
{
    let ran = run(job, answers, final_marks, triangles, work)?;
    // A job that was run is laid out.
    let Ok(h) = read(job) else { unreachable!() };
    write_ran(h, ran, job, final_marks, triangles, work, file)
}
