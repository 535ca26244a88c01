// The listing of a job: the text that document 01 has printed of it.
#![tactic(auto)]

mod done;
pub mod facets;
mod text;

ghost use Rattle.std.specs.Prelude.{◌≡◌, ◌+◌, ◌*◌, ◌≤◌, length};
ghost use Rattle.rules.specs.Job.{written};
ghost use Rattle.lines.specs.Listing.{line, word_refused, listing_of};
ghost use Rattle.lines.specs.Listed.{proposals_read};

use done::put_done;
use job::read;
use text::Page;
use track::run;

// Bytes enough for every listing: a first line of 68 at most, 1,024 proposals of 12 and 4,096 triangles of 35.
pub const ROOM: usize = 163840;

// Writes the line of a refusal to the front of a buffer, and tells how long it is: `refused`, code, place, and what more is told. It
// promises this of any buffer that is lent, and so takes no page.
pub fn refused_line(numbers: &[usize], out: &mut [u8]) -> usize
    requires { 8 + 21 * length numbers.now ≤ length out.old }
    ensures { (result ≡ length (line word_refused numbers.now)) × (out.new ≡ written (line word_refused numbers.now) out.old) }
{
    let mut page = Page { out, at: 0 };
    page.put_line(b"refused", numbers);
    page.at
}

// P of a job that is laid out.
fn proposals_of(job: &[u8]) -> usize
    ensures { result ≡ proposals_read job.now }
{
    read(job).map_or(0, |h| h.proposals)
}

// Writes the listing of a job to the front of a buffer that is lent, and tells how long it is.
pub fn list_job(job: &[u8], out: &mut [u8]) -> usize
    requires { 163840 ≤ length out.old }
    ensures { (result ≡ length (listing_of job.now)) × (out.new ≡ written (listing_of job.now) out.old) }
{
    let mut answers = [0u8; 1024];
    let mut final_marks = [0u8; 2048];
    let mut triangles = [0u32; 12288];
    let mut work = [0u32; 10240];
    let ran = run(
        job,
        &mut answers,
        &mut final_marks,
        &mut triangles,
        &mut work,
    );
    match ran {
        Ok(grown) => put_done(
            proposals_of(job),
            grown.taken,
            grown.triangles,
            &answers,
            &triangles,
            out,
        ),
        Err(refusal) => {
            let (code, place) = refusal.code_and_place();
            let numbers = [code, place];
            refused_line(&numbers, out)
        }
    }
}
