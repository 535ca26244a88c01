// The writing side: a job on standard input has its skin printed as binary STL.
ghost use Rattle.std.specs.Prelude.{◌≡◌, length};
ghost use Rattle.workshop.specs.Said.{Says, size_in, refuses};
ghost use Rattle.workshop.specs.Skin.{skin_said, skin_refused};

use crate::said::{Said, refused, say, tell_script};
use std::rt::HostRuntime;
use streams::failure::fail;
use streams::input::read_input;
use track_stl::write_skin;

// Writes what is to be said of a job to the front of a buffer that has room for the longest file.
fn put_skin(job: &[u8], file: &mut [u8]) -> Said
    requires { 204884 ≡ length file.old }
    ensures { Says (skin_said job.now) (skin_refused job.now) file.old (size_in result) (refuses result) file.new }
{
    let mut answers = [0u8; 1024];
    let mut final_marks = [0u8; 2048];
    let mut triangles = [0u32; 12288];
    let mut work = [0u32; 10240];
    let written = write_skin(
        job,
        &mut answers,
        &mut final_marks,
        &mut triangles,
        &mut work,
        file,
    );
    match written {
        Ok(grown) => Ok(84 + 50 * grown.triangles),
        Err(unwritten) => {
            let (code, place) = unwritten.code_and_place();
            refused(&[code, place], file)
        }
    }
}

// Of a longer input the first 65,536 bytes are read. No job is as long, so it is refused, and `skin_enough` says that its front gets the
// same refusal. Buffers, messages and what is said differ from those of `print_facets`: one function over all of them would be no plainer.
pub(crate) fn print_skin(rt: &HostRuntime) {
    let mut job = [0u8; 65536];
    let count = match read_input(&mut rt.stdin(), &mut job) {
        Ok(count) => count,
        Err(failed) => {
            fail(rt, b"stl: the job could not be read", failed.error);
            return;
        }
    };
    let mut file = [0u8; 204884];
    match put_skin(&job[..count], &mut file) {
        Ok(size) => say(rt, &file[..size], b"stl: the file could not be written"),
        Err(size) => tell_script(rt, &file[..size]),
    }
}
