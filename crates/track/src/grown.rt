// An accepted job: its rows are counted at their ids, its proposals are answered and its skin is listed. Code 0.
ghost use Rattle.std.specs.Prelude.{◌≡◌, ◌*◌, ◌/◌, ◌≤◌, length};
ghost use mathlib.Core.List.{flatten};
ghost use Rattle.rules.specs.Proposals.{answers_to, final_marks as marks_grown, taken};
ghost use Rattle.rules.specs.Work.{work_area};
ghost use Rattle.rules.specs.Job.{written, accepted};
ghost use Rattle.table.specs.Rows.{table_in, rows_in};
ghost use Rattle.table.specs.Ground.{Ground};
ghost use Rattle.tallies.specs.Area.{Area};
ghost use Rattle.growth.specs.Answers.{proposals_in};
ghost use Rattle.track.specs.Outcomes.{lent, outcome_of, result_of};
ghost use Rattle.track.specs.Stages.{job_in, Ready, OnGrid, front_skin};

use crate::refusal::Grown;
use growth::answer_all;
use job::Header;
use skin_list::list_skin;
use skin_list::order::Order;
use table::checked::Table;
use table::row_count;
use tallies::count_rows;

// The sections of a job behind its header.
#[derive(Clone, Copy)]
pub(crate) struct Sections<'a> {
    pub(crate) rows: &'a [u8],
    pub(crate) marks: &'a [u8],
    pub(crate) proposals: &'a [u8],
    pub(crate) points: &'a [u8],
}

// By hand and not by `copy_from_slice`, which would call `memmove`: of the C library the archive needs `memset` alone (track.h).
fn copy(from: &[u8], to: &mut [u8])
    requires { length from.now ≤ length to.old }
    ensures { to.new ≡ written from.now to.old }
{
    for i in 0..from.len() {
        to[i] = from[i];
    }
}

// The answers, and at the front of the final marks the marks after them, with the work area for these. Marks and work area change on the way
// and are lent apart, so that no value holds what is known of both.
fn answer_copied(
    rows: &[u8],
    ids: usize,
    marks: &[u8],
    proposals: &[u8],
    answers: &mut [u8],
    final_marks: &mut [u8],
    work: &mut [u32],
) -> usize
    requires { Area rows.now work.old marks.now ids × (length proposals.now / 8 ≤ length answers.old) × (rows_in rows.now ≤ length final_marks.old) }
    ensures { (result ≡ taken (answers_to (table_in rows.now) marks.now (proposals_in proposals.now)))
        × (answers.new ≡ written (answers_to (table_in rows.now) marks.now (proposals_in proposals.now)) answers.old)
        × (final_marks.new ≡ written (marks_grown (table_in rows.now) marks.now (proposals_in proposals.now)) final_marks.old)
        × (work.new ≡ work_area (table_in rows.now) ids (marks_grown (table_in rows.now) marks.now (proposals_in proposals.now))) }
{
    copy(marks, final_marks);
    let n = marks.len();
    answer_all(rows, ids, proposals, answers, &mut final_marks[..n], work)
}

// The skin of the marks at the front of the final marks, in the order that word 7 asks for.
fn list_front(
    h: Header,
    rows: &[u8],
    points: &[u8],
    final_marks: &[u8],
    triangles: &mut [u32],
    work: &[u32],
) -> usize
    requires { Ground rows.now work.now h.ids × (rows_in rows.now ≤ length final_marks.now) × (6 * rows_in rows.now ≤ length triangles.old) × OnGrid h points.now }
    ensures { (result ≡ length (front_skin h rows.now points.now final_marks.now))
        × (triangles.new ≡ written (flatten (front_skin h rows.now points.now final_marks.now)) triangles.old) }
{
    let table = Table {
        rows,
        neighbours: work,
    };
    let outward = h.asks_outward();
    let order = Order::of(table, points, h.ids, outward);
    let n = row_count(rows);
    list_skin(order, &final_marks[..n], triangles)
}

pub(crate) fn grow(
    h: Header,
    sections: Sections,
    answers: &mut [u8],
    final_marks: &mut [u8],
    triangles: &mut [u32],
    work: &mut [u32],
) -> Grown
    requires { Ready h sections.rows.now sections.marks.now sections.proposals.now sections.points.now (lent answers.old final_marks.old triangles.old work.old)
        × OnGrid h sections.points.now }
    ensures { result_of (outcome_of (Ok result)) (lent answers.new final_marks.new triangles.new work.new)
        ≡ accepted (job_in h sections.entry.rows.now sections.entry.marks.now sections.entry.proposals.now sections.entry.points.now)
        (lent answers.old final_marks.old triangles.old work.old) }
{
    let Sections {
        rows,
        marks,
        proposals,
        points,
    } = sections;
    count_rows(rows, marks, h.ids, work);
    let taken = answer_copied(rows, h.ids, marks, proposals, answers, final_marks, work);
    let triangles = list_front(h, rows, points, final_marks, triangles, work);
    Grown { taken, triangles }
}
