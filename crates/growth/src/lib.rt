// Growing: the five cases, and the answers to proposals.
#![tactic(auto)]

mod about;
mod answering;
mod cases;
mod closed;
mod declined;
mod edges;
mod free;
mod growing;

ghost use Rattle.std.specs.Prelude.{◌≡◌, ◌/◌, ◌≤◌, length};
ghost use Rattle.rules.specs.Proposals.{answers_to, final_marks, taken};
ghost use Rattle.rules.specs.Work.{work_area};
ghost use Rattle.rules.specs.Job.{written};
ghost use Rattle.table.specs.Rows.{table_in};
ghost use Rattle.tallies.specs.Area.{Area};
ghost use Rattle.growth.specs.Answers.{proposals_in};

use answering::answer_one;

// Answers the proposals one after the other, each on the marks then standing. The result is how many were taken; the work area is left as
// the marks are. The buffers change on the way, so that no value that carries `Area` could hold them.
pub fn answer_all(
    rows: &[u8],
    ids: usize,
    proposals: &[u8],
    answers: &mut [u8],
    marks: &mut [u8],
    work: &mut [u32],
) -> usize
    requires { Area rows.now work.old marks.old ids × (length proposals.now / 8 ≤ length answers.old) }
    ensures { (result ≡ taken (answers_to (table_in rows.now) marks.old (proposals_in proposals.now)))
        × (answers.new ≡ written (answers_to (table_in rows.now) marks.old (proposals_in proposals.now)) answers.old)
        × (marks.new ≡ final_marks (table_in rows.now) marks.old (proposals_in proposals.now))
        × (work.new ≡ work_area (table_in rows.now) ids marks.new) }
{
    let mut taken = 0;
    for k in 0..proposals.len() / 8 {
        taken += answer_one(rows, ids, proposals, k, answers, marks, work);
    }
    taken
}
