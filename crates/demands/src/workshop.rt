// Document 02 (vi) on functions that make its calls (specs/Workshop.antt). No program calls them: they are there to be proved.
ghost use Rattle.std.specs.Prelude.{◌≡◌};
ghost use Rattle.rules.specs.Stl.{write_facets, read_file};
ghost use Rattle.track.specs.Outcomes.{lent};
ghost use Rattle.track_stl.specs.Outcomes.{outcome_of};
ghost use Rattle.demands.specs.Settled.{writing_at, file_reading_at};
ghost use Rattle.demands.specs.Workshop.{WrittenRead, ReadWritten, SkinFile};

use stl::reader::read_file;
use stl::writer::write_facets;
use stl::{reader, writer};
use track::refusal::Grown;
use track_stl::unwritten::Unwritten;
use track_stl::write_skin;

// The one result of each of the two calls (specs/Settled.antt).
pub(crate) fn facets_written(units: &[i16], file: &mut [u8]) -> Result<(), writer::Refusal>
    ensures { (result ≡ writing_at (write_facets units.now file.old).verdict) × (file.new ≡ (write_facets units.now file.old).left) }
{
    write_facets(units, file)
}

pub(crate) fn file_read(file: &[u8], units: &mut [i16]) -> Result<u32, reader::Refusal>
    ensures { (result ≡ file_reading_at (read_file file.now units.old)) × (units.new ≡ (read_file file.now units.old).left) }
{
    read_file(file, units)
}

// Writes a list of units, and reads the file back.
pub(crate) fn write_then_read(units: &[i16], file: &mut [u8], back: &mut [i16]) -> bool
    ensures { WrittenRead units.now file.old back.old result file.new back.new }
{
    if write_facets(units, file).is_err() {
        return false;
    }
    let size = 84 + 50 * (units.len() / 9);
    read_file(&file[..size], back).is_ok()
}

// Reads a file, and writes the units that were read.
pub(crate) fn read_then_write(file: &[u8], units: &mut [i16], again: &mut [u8]) -> bool
    ensures { ReadWritten file.now units.old again.old result units.new again.new }
{
    if read_file(file, units).is_err() {
        return false;
    }
    let size = (file.len() - 84) / 50 * 9;
    write_facets(&units[..size], again).is_ok()
}

// Runs a job, and writes its skin.
pub(crate) fn write_job(
    job: &[u8],
    answers: &mut [u8],
    final_marks: &mut [u8],
    triangles: &mut [u32],
    work: &mut [u32],
    file: &mut [u8],
) -> Result<Grown, Unwritten>
    ensures { SkinFile job.now (lent answers.old final_marks.old triangles.old work.old) file.old
        (outcome_of result) (lent answers.new final_marks.new triangles.new work.new) file.new }
{
    write_skin(job, answers, final_marks, triangles, work, file)
}
