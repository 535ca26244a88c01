// Binary STL for C and Rust: the facet writer, the reader, and the job's writer.
ghost use Rattle.std.specs.Prelude.{◌≡◌};
ghost use Rattle.std.proofs.lemmas.List.Edits.{sets};
ghost use Rattle.rules.specs.Job.{track};
ghost use Rattle.rules.specs.Stl.{write_facets, read_file, write_skin};
ghost use Rattle.track.specs.Outcomes.{lent};
ghost use Rattle.track_c.specs.Told.{told, told_wrote, told_read};

use crate::told::{tell_read, tell_run, tell_write};
use stl::reader::read_file;
use stl::writer::write_facets;
use track_stl::write_skin;

// Writes a list of units to the front of a file. `outcome` gets code and place.
#[unsafe(no_mangle)]
pub extern "C" fn track_stl_write(units: &[i16], file: &mut [u8], outcome: &mut [u32; 2])
    ensures { (outcome.new ≡ sets outcome.old 0 (told_wrote (write_facets units.now file.old)))
        × (file.new ≡ (write_facets units.now file.old).left) }
{
    tell_write(write_facets(units, file), outcome);
}

// Reads a file to the front of the units. `outcome` gets code, place, facets, and the bits of the number off the grid.
#[unsafe(no_mangle)]
pub extern "C" fn track_stl_read(file: &[u8], units: &mut [i16], outcome: &mut [u32; 4])
    ensures { (outcome.new ≡ sets outcome.old 0 (told_read (read_file file.now units.old)))
        × (units.new ≡ (read_file file.now units.old).left) }
{
    tell_read(read_file(file, units), outcome);
}

// Runs a job and writes its skin to the front of a file. `outcome` gets code, place, taken and triangles.
#[unsafe(no_mangle)]
pub extern "C" fn track_stl_run(
    job: &[u8],
    answers: &mut [u8],
    final_marks: &mut [u8],
    triangles: &mut [u32],
    work: &mut [u32],
    file: &mut [u8],
    outcome: &mut [u32; 4],
)
    ensures { (outcome.new ≡ sets outcome.old 0 (told (write_skin track job.now (lent answers.old final_marks.old triangles.old work.old) file.old).result))
        × (lent answers.new final_marks.new triangles.new work.new
        ≡ (write_skin track job.now (lent answers.old final_marks.old triangles.old work.old) file.old).result.left)
        × (file.new
        ≡ (write_skin track job.now (lent answers.old final_marks.old triangles.old work.old) file.old).file) }
{
    let written = write_skin(job, answers, final_marks, triangles, work, file);
    tell_run(
        written.map_err(|unwritten| unwritten.code_and_place()),
        outcome,
    );
}
