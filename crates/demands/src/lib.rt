// The three demands on one function, and the one possible result of each public call (settled).
#![tactic(auto)]

mod settled;
mod workshop;

ghost use Rattle.track.specs.Outcomes.{lent, outcome_of};
ghost use Rattle.demands.specs.Demands.{Demands};

use track::refusal::{Grown, Refusal};

// `track::run`, with the demands for its contract (specs/Demands.antt). A contract of `track::run` that says less does not prove it.
pub fn run(
    job: &[u8],
    answers: &mut [u8],
    final_marks: &mut [u8],
    triangles: &mut [u32],
    work: &mut [u32],
) -> Result<Grown, Refusal>
    ensures { Demands job.now (lent answers.old final_marks.old triangles.old work.old)
        (outcome_of result) (lent answers.new final_marks.new triangles.new work.new) }
{
    track::run(job, answers, final_marks, triangles, work)
}
