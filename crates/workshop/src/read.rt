// The reading side: an STL file on standard input has its facets printed, nine units a line.
ghost use Rattle.std.specs.Prelude.{◌≤◌, length};
ghost use Rattle.workshop.specs.Said.{file_said, file_refused, Says, size_in, refuses};

use crate::said::{Said, refused, say, tell_script};
use lines::facets::{FACETS_ROOM, list_facets};
use std::rt::HostRuntime;
use stl::reader::{Refusal, read_file};
use streams::failure::fail;
use streams::input::read_input;

// Writes what is to be said of a file to the front of a buffer.
fn list_file(file: &[u8], out: &mut [u8]) -> Said
    requires { 258048 ≤ length out.old }
    ensures { Says (file_said file.now) (file_refused file.now) out.old (size_in result) (refuses result) out.new }
{
    let mut units = [0i16; 36864];
    // The codes stand here, and not in a method of `Refusal`: a must-fail edit gets one of them wrong here, and Off needs a case for its bits anyhow.
    match read_file(file, &mut units) {
        Ok(count) => Ok(list_facets(&units[..9 * (count as usize)], out)),
        Err(Refusal::Length) => refused(&[1, 0], out),
        Err(Refusal::Header) => refused(&[2, 0], out),
        Err(Refusal::Room) => refused(&[3, 0], out),
        Err(Refusal::NotZero(facet)) => refused(&[4, facet as usize], out),
        Err(Refusal::Off(off)) => refused(&[5, off.facet as usize, off.bits as usize], out),
    }
}

// Of a longer file one byte more is read than the longest has. It is refused for its length, and `front_enough` says that its front gets
// the same answer.
pub(crate) fn print_facets(rt: &HostRuntime) {
    let mut file = [0u8; 204885];
    let count = match read_input(&mut rt.stdin(), &mut file) {
        Ok(count) => count,
        Err(failed) => {
            fail(rt, b"stl: the file could not be read", failed.error);
            return;
        }
    };
    let mut out = [0u8; FACETS_ROOM];
    match list_file(&file[..count], &mut out) {
        Ok(size) => say(rt, &out[..size], b"stl: the facets could not be printed"),
        Err(size) => tell_script(rt, &out[..size]),
    }
}
