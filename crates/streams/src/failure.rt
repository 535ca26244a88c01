// What failed and why, as a line on standard error.
ghost use Rattle.std.specs.Prelude.{◌≤◌, length};

use std::io;
use std::io::Write;
use std::rt::HostRuntime;

// The system's text of an error: std writes it with the error's number behind, in brackets.
fn reason(said: &[u8]) -> &[u8] {
    let Ok(text) = str::from_utf8(said) else {
        return said;
    };
    match text.split_once(" (os error ") {
        Some((reason, _)) => reason.as_bytes(),
        None => said,
    }
}

// Writes what std says of an error to the front of a room, and answers how many bytes of it there are.
fn write_error(error: io::Error, room: &mut [u8]) -> usize
    ensures { result ≤ length room.new }
{
    let all = room.len();
    let mut left: &mut [u8] = room;
    let _ = write!(left, "{error}");
    all.saturating_sub(left.len())
}

// Says what failed, a colon and why.
pub fn fail(rt: &HostRuntime, what: &[u8], error: io::Error) {
    let mut room = [0u8; 320];
    let size = write_error(error, &mut room);
    let mut out = rt.stderr();
    let _ = out.write_all(what);
    let _ = out.write_all(b": ");
    let _ = out.write_all(reason(&room[..size]));
    let _ = out.write_all(b"\n");
}
