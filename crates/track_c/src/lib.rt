// The run and binary STL, for C and Rust.
#![tactic(auto)]

mod files;
mod told;

ghost use Rattle.std.specs.Prelude.{◌≡◌};
ghost use Rattle.std.proofs.lemmas.List.Edits.{sets};
ghost use Rattle.rules.specs.Job.{track, run};
ghost use Rattle.track.specs.Outcomes.{lent};
ghost use Rattle.track_c.specs.Told.{told};

use told::tell_run;
use track::run;

// Runs a job. `outcome` gets code, place, taken and triangles.
#[unsafe(no_mangle)]
pub extern "C" fn track_run(
    job: &[u8],
    answers: &mut [u8],
    final_marks: &mut [u8],
    triangles: &mut [u32],
    work: &mut [u32],
    outcome: &mut [u32; 4],
)
    ensures { (outcome.new ≡ sets outcome.old 0 (told (run track job.now (lent answers.old final_marks.old triangles.old work.old))))
        × (lent answers.new final_marks.new triangles.new work.new
        ≡ (run track job.now (lent answers.old final_marks.old triangles.old work.old)).left) }
{
    let ran = run(job, answers, final_marks, triangles, work);
    tell_run(ran.map_err(|refusal| refusal.code_and_place()), outcome);
}
